// Displays and items by their numbers.
ghost use Rattle.std.specs.Prelude.{◌≡◌, None};
ghost use Rattle.op_table.specs.Table.{planned, IsFrom};
ghost use Rattle.op_work.specs.Work.{Ends};
ghost use Rattle.py_model.specs.Told.{IsNamedOp};
ghost use Rattle.py_value.specs.Values.{AreNamed};

use crate::wrapped::missing;
use op_items::{getitem, setitem, slice};
use op_lists::{list_display, tuple_display};
use op_mutations::{delitem, dict_display};
use op_work::{Stop, Work};
use py_model::{Answer, Op};
use py_value::Value;
use std::alloc::Global;

// Displays, and items of sequences and dictionaries: 23 to 29.
pub(crate) fn containers(
    work: &mut Work,
    alloc: Global,
    op: Op,
    operands: &[Value],
) -> Result<Answer, Stop>
    requires number { IsFrom 23 29 op.no }
    requires op { IsNamedOp work.old.values op }
    requires named { AreNamed work.old.values operands.now }
    requires fresh { work.old.made ≡ None }
    requires unsaid { work.old.note ≡ None }
    ensures { Ends (planned op operands.now) work.old work.new result }
{
    match op.no {
        23 => list_display(work, operands),
        24 => dict_display(work, alloc, operands),
        25 => tuple_display(work, alloc, operands),
        26 => getitem(work, alloc, operands),
        27 => slice(work, alloc, operands),
        28 => setitem(work, alloc, operands),
        29 => delitem(work, alloc, operands),
        _ => missing(),
    }
}
