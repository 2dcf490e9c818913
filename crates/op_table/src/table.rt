// An operation by its number.
ghost use Rattle.std.specs.Prelude.{◌≡◌, None, false};
ghost use Rattle.op_table.specs.Table.{planned};
ghost use Rattle.op_work.specs.Work.{Ends};
ghost use Rattle.py_model.specs.Quiet.{may_ask};
ghost use Rattle.py_model.specs.Told.{IsNamedOp, is_operation as is_number};
ghost use Rattle.py_value.specs.Values.{AreNamed};

use crate::functions::{first_functions, last_functions};
use crate::items::containers;
use crate::methods::{list_methods, text_methods, word_methods};
use crate::naming::{constants, definitions, names, statements};
use crate::operators::{comparisons, memberships, numbers};
use crate::wrapped::missing;
use op_work::{Exception, Stop, Work};
use py_model::{Answer, Op};
use py_value::Value;
use std::alloc::Global;

/// An operation that asks nothing, by its number. A number that no operation has raises TypeError.
pub fn perform(work: &mut Work, alloc: Global, op: Op, operands: &[Value]) -> Result<Answer, Stop>
    requires quiet { may_ask op.no ≡ false }
    requires op { IsNamedOp work.old.values op }
    requires named { AreNamed work.old.values operands.now }
    requires fresh { work.old.made ≡ None }
    requires unsaid { work.old.note ≡ None }
    ensures { Ends (planned op operands.now) work.old work.new result }
{
    if !is_operation(op.no) {
        return Err(work.fault(alloc, Exception::TypeError, "wrong number of arguments"));
    }
    match op.no {
        0..=2 => constants(work, alloc, op, operands),
        3..=11 => numbers(work, alloc, op, operands),
        12..=17 => comparisons(work, alloc, op, operands),
        18..=22 => memberships(work, alloc, op, operands),
        23..=29 => containers(work, alloc, op, operands),
        30..=37 => names(work, alloc, op, operands),
        38..=43 => definitions(work, alloc, op, operands),
        44..=47 => statements(work, alloc, op, operands),
        50..=60 => first_functions(work, alloc, op, operands),
        61..=71 => last_functions(work, alloc, op, operands),
        80..=90 => list_methods(work, alloc, op, operands),
        91..=97 => text_methods(work, alloc, op, operands),
        98..=108 => word_methods(work, alloc, op, operands),
        _ => missing(),
    }
}

// Whether an operation has this number.
fn is_operation(no: u8) -> bool
    ensures { result ≡ is_number no }
{
    no < 48 || (50 <= no && no < 72) || (80 <= no && no < 112)
}
