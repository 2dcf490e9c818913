// The operators that compare.
ghost use Rattle.std.specs.Prelude.{◌≡◌, None, map};
ghost use Rattle.op_work.specs.Work.{Ends};
ghost use Rattle.py_model.specs.Arithmetic.{eq_plan, ne_plan, lt_plan, le_plan, gt_plan, ge_plan};
ghost use Rattle.py_value.specs.Contents.{contents};
ghost use Rattle.py_value.specs.Values.{AreNamed};

use crate::compare::equals;
use crate::orders::in_order;
use op_numbers::{truth_answer, two};
use op_work::{Stop, Work};
use py_model::Answer;
use py_value::Value;
use std::alloc::Global;

/// `a == b`.
pub fn eq(work: &mut Work, alloc: Global, operands: &[Value]) -> Result<Answer, Stop>
    requires named { AreNamed work.old.values operands.now }
    requires fresh { work.old.made ≡ None }
    ensures { Ends (λ table. eq_plan (map (contents table) operands.now)) work.old work.new result }
{
    let (v, w) = two(work, alloc, operands)?;
    let same = equals(work, alloc, v, w)?;
    truth_answer(work, same)
}

/// `a != b`.
pub fn ne(work: &mut Work, alloc: Global, operands: &[Value]) -> Result<Answer, Stop>
    requires named { AreNamed work.old.values operands.now }
    requires fresh { work.old.made ≡ None }
    ensures { Ends (λ table. ne_plan (map (contents table) operands.now)) work.old work.new result }
{
    let (v, w) = two(work, alloc, operands)?;
    let same = equals(work, alloc, v, w)?;
    truth_answer(work, !same)
}

/// `a < b`.
pub fn lt(work: &mut Work, alloc: Global, operands: &[Value]) -> Result<Answer, Stop>
    requires named { AreNamed work.old.values operands.now }
    requires fresh { work.old.made ≡ None }
    ensures { Ends (λ table. lt_plan (map (contents table) operands.now)) work.old work.new result }
{
    let (v, w) = two(work, alloc, operands)?;
    let compared = in_order(work, alloc, v, w)?;
    truth_answer(work, compared.is_less())
}

/// `a <= b`.
pub fn le(work: &mut Work, alloc: Global, operands: &[Value]) -> Result<Answer, Stop>
    requires named { AreNamed work.old.values operands.now }
    requires fresh { work.old.made ≡ None }
    ensures { Ends (λ table. le_plan (map (contents table) operands.now)) work.old work.new result }
{
    let (v, w) = two(work, alloc, operands)?;
    let compared = in_order(work, alloc, v, w)?;
    truth_answer(work, !compared.is_more())
}

/// `a > b`.
pub fn gt(work: &mut Work, alloc: Global, operands: &[Value]) -> Result<Answer, Stop>
    requires named { AreNamed work.old.values operands.now }
    requires fresh { work.old.made ≡ None }
    ensures { Ends (λ table. gt_plan (map (contents table) operands.now)) work.old work.new result }
{
    let (v, w) = two(work, alloc, operands)?;
    let compared = in_order(work, alloc, v, w)?;
    truth_answer(work, compared.is_more())
}

/// `a >= b`.
pub fn ge(work: &mut Work, alloc: Global, operands: &[Value]) -> Result<Answer, Stop>
    requires named { AreNamed work.old.values operands.now }
    requires fresh { work.old.made ≡ None }
    ensures { Ends (λ table. ge_plan (map (contents table) operands.now)) work.old work.new result }
{
    let (v, w) = two(work, alloc, operands)?;
    let compared = in_order(work, alloc, v, w)?;
    truth_answer(work, !compared.is_less())
}
