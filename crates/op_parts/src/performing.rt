// An operation that asks nothing.
ghost use Rattle.std.specs.Prelude.{◌≡◌, ◌<◌, false};
ghost use Rattle.op_state.specs.Held.{Finishes, begun};
ghost use Rattle.op_table.specs.Table.{planned};
ghost use Rattle.op_work.specs.Work.{Extends};
ghost use Rattle.py_model.specs.Quiet.{may_ask};
ghost use Rattle.py_model.specs.Told.{IsNamedOp};
ghost use Rattle.py_value.specs.Values.{AreNamed};

use op_state::{Held, begin};
use prov_base::Memory;
use py_model::{Deed, Op};
use py_value::Value;
use std::alloc::Global;

/// Performs an operation that asks nothing, with so many steps left. It is none where it costs more.
pub fn perform(
    held: &mut Held,
    alloc: Global,
    op: Op,
    operands: &[Value],
    left: u32,
) -> Result<Option<Deed>, Memory>
    requires quiet { may_ask op.no ≡ false }
    requires op { IsNamedOp held.old.work.values op }
    requires named { AreNamed held.old.work.values operands.now }
    requires some { 0 < left }
    ensures finishes { Finishes (planned op operands.now) (record held.old { work = begun left held.old.work }) held.new result }
    ensures extends { Extends held.old.work.values held.new.work.values }
{
    begin(&mut held.work, left);
    let answer = op_table::perform(&mut held.work, alloc, op, operands);
    held.end(alloc, answer)
}
