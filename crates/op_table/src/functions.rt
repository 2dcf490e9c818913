// Built-in functions by their numbers.
ghost use Rattle.std.specs.Prelude.{◌≡◌, None, false};
ghost use Rattle.op_table.specs.Table.{planned, IsFrom};
ghost use Rattle.op_work.specs.Work.{Ends};
ghost use Rattle.py_model.specs.Quiet.{may_ask};
ghost use Rattle.py_model.specs.Told.{IsNamedOp};
ghost use Rattle.py_value.specs.Values.{AreNamed};

use crate::wrapped::{do_isinstance, missing};
use op_compare::{max, min};
use op_dicts::{dict_builtin, len};
use op_joins::{int, sum};
use op_lists::{enumerate, list_builtin, tuple_builtin, zip};
use op_numbers::{abs, chr, ord, range, truth};
use op_printing::{print, repr, str};
use op_sorting::sorted;
use op_work::{Stop, Work};
use py_model::{Answer, Op};
use py_value::Value;
use std::alloc::Global;

// Built-in functions, the first half: 50 to 60, but for 55, which asks.
pub(crate) fn first_functions(
    work: &mut Work,
    alloc: Global,
    op: Op,
    operands: &[Value],
) -> Result<Answer, Stop>
    requires number { IsFrom 50 60 op.no }
    requires quiet { may_ask op.no ≡ false }
    requires op { IsNamedOp work.old.values op }
    requires named { AreNamed work.old.values operands.now }
    requires fresh { work.old.made ≡ None }
    requires unsaid { work.old.note ≡ None }
    ensures { Ends (planned op operands.now) work.old work.new result }
{
    match op.no {
        50 => abs(work, alloc, operands),
        51 => truth(work, alloc, operands),
        52 => chr(work, alloc, operands),
        53 => dict_builtin(work, alloc, operands),
        54 => enumerate(work, alloc, operands),
        56 => int(work, alloc, operands),
        57 => do_isinstance(work, alloc, op, operands),
        58 => len(work, alloc, operands),
        59 => list_builtin(work, alloc, operands),
        60 => max(work, alloc, operands),
        _ => missing(),
    }
}

// Built-in functions, the second half: 61 to 71, but for 62, which asks.
pub(crate) fn last_functions(
    work: &mut Work,
    alloc: Global,
    op: Op,
    operands: &[Value],
) -> Result<Answer, Stop>
    requires number { IsFrom 61 71 op.no }
    requires quiet { may_ask op.no ≡ false }
    requires op { IsNamedOp work.old.values op }
    requires named { AreNamed work.old.values operands.now }
    requires fresh { work.old.made ≡ None }
    requires unsaid { work.old.note ≡ None }
    ensures { Ends (planned op operands.now) work.old work.new result }
{
    match op.no {
        61 => min(work, alloc, operands),
        63 => ord(work, alloc, operands),
        64 => print(work, alloc, operands),
        65 => range(work, alloc, operands),
        66 => repr(work, alloc, operands),
        67 => sorted(work, alloc, operands),
        68 => str(work, alloc, operands),
        69 => sum(work, alloc, operands),
        70 => tuple_builtin(work, alloc, operands),
        71 => zip(work, alloc, operands),
        _ => missing(),
    }
}
