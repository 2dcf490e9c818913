// Operators by their numbers.
ghost use Rattle.std.specs.Prelude.{◌≡◌, None};
ghost use Rattle.op_table.specs.Table.{planned, IsFrom};
ghost use Rattle.op_work.specs.Work.{Ends};
ghost use Rattle.py_model.specs.Told.{IsNamedOp};
ghost use Rattle.py_value.specs.Values.{AreNamed};

use crate::wrapped::missing;
use op_compare::{eq, ge, gt, is_in, le, lt, ne, not_in};
use op_joins::{add, iadd, mul};
use op_numbers::{floor_div, is, is_not, neg, not, pos, remainder, sub, truth};
use op_work::{Stop, Work};
use py_model::{Answer, Op};
use py_value::Value;
use std::alloc::Global;

// Truth, signs, and the operators of numbers: 3 to 11.
pub(crate) fn numbers(
    work: &mut Work,
    alloc: Global,
    op: Op,
    operands: &[Value],
) -> Result<Answer, Stop>
    requires number { IsFrom 3 11 op.no }
    requires op { IsNamedOp work.old.values op }
    requires named { AreNamed work.old.values operands.now }
    requires fresh { work.old.made ≡ None }
    requires unsaid { work.old.note ≡ None }
    ensures { Ends (planned op operands.now) work.old work.new result }
{
    match op.no {
        3 => truth(work, alloc, operands),
        4 => not(work, alloc, operands),
        5 => neg(work, alloc, operands),
        6 => pos(work, alloc, operands),
        7 => add(work, alloc, operands),
        8 => sub(work, alloc, operands),
        9 => mul(work, alloc, operands),
        10 => floor_div(work, alloc, operands),
        11 => remainder(work, alloc, operands),
        _ => missing(),
    }
}

// Comparisons: 12 to 17.
pub(crate) fn comparisons(
    work: &mut Work,
    alloc: Global,
    op: Op,
    operands: &[Value],
) -> Result<Answer, Stop>
    requires number { IsFrom 12 17 op.no }
    requires op { IsNamedOp work.old.values op }
    requires named { AreNamed work.old.values operands.now }
    requires fresh { work.old.made ≡ None }
    requires unsaid { work.old.note ≡ None }
    ensures { Ends (planned op operands.now) work.old work.new result }
{
    match op.no {
        12 => eq(work, alloc, operands),
        13 => ne(work, alloc, operands),
        14 => lt(work, alloc, operands),
        15 => le(work, alloc, operands),
        16 => gt(work, alloc, operands),
        17 => ge(work, alloc, operands),
        _ => missing(),
    }
}

// Membership, identity, and sums in place: 18 to 22.
pub(crate) fn memberships(
    work: &mut Work,
    alloc: Global,
    op: Op,
    operands: &[Value],
) -> Result<Answer, Stop>
    requires number { IsFrom 18 22 op.no }
    requires op { IsNamedOp work.old.values op }
    requires named { AreNamed work.old.values operands.now }
    requires fresh { work.old.made ≡ None }
    requires unsaid { work.old.note ≡ None }
    ensures { Ends (planned op operands.now) work.old work.new result }
{
    match op.no {
        18 => is_in(work, alloc, operands),
        19 => not_in(work, alloc, operands),
        20 => is(work, alloc, operands),
        21 => is_not(work, alloc, operands),
        22 => iadd(work, alloc, operands),
        _ => missing(),
    }
}
