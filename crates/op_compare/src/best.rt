// The greatest and the least of values.
ghost use Rattle.std.specs.Prelude.{◌≡◌, None, map};
ghost use Rattle.op_compare.specs.Comparisons.{how};
ghost use Rattle.op_compare.specs.Best.{better_of, better_value, best_among as among_plan};
ghost use Rattle.op_work.specs.Work.{Comes, Ends};
ghost use Rattle.py_model.specs.Arithmetic.{best_of, best_plan, max_plan, min_plan};
ghost use Rattle.py_value.specs.Contents.{contents};
ghost use Rattle.py_value.specs.Values.{IsNamed, AreNamed};

use crate::comparison::Comparison;
use crate::orders::in_order;
use op_lists::walk_value;
use op_numbers::value_answer;
use op_work::{Exception, Stop, Work};
use py_model::Answer;
use py_value::Value;
use std::alloc::Global;

// Whether a value is better than another, by how they compare: where the most is sought it is more, else it is less.
fn is_better(most: bool, compared: Comparison) -> bool
    ensures { result ≡ better_of most (how compared) }
{
    if most {
        compared.is_more()
    } else {
        compared.is_less()
    }
}

// The better of two values; the other where they are as good.
fn better(most: bool, compared: Comparison, v: Value, other: Value) -> Value
    ensures { result ≡ better_value (better_of most (how compared)) v other }
{
    if is_better(most, compared) { v } else { other }
}

// The best of values: each is compared with the best so far, which stays where it is as good.
fn best_among(work: &mut Work, alloc: Global, most: bool, items: &[Value]) -> Result<Value, Stop>
    requires { AreNamed work.old.values items.now }
    ensures { Comes IsNamed contents (λ table. among_plan (better_of most) (map (contents table) items.now)) work.old work.new result }
{
    if items.is_empty() {
        return Err(work.fault(alloc, Exception::ValueError, "empty or zero"));
    }
    let mut best = items[0];
    for i in 1..items.len() {
        let compared = in_order(work, alloc, items[i], best)?;
        best = better(most, compared, items[i], best);
    }
    Ok(best)
}

// The best of values is the answer.
fn best_answer(work: &mut Work, alloc: Global, most: bool, items: &[Value]) -> Result<Answer, Stop>
    requires named { AreNamed work.old.values items.now }
    requires fresh { work.old.made ≡ None }
    ensures { Ends (λ table. best_of (better_of most) (map (contents table) items.now)) work.old work.new result }
{
    let v = best_among(work, alloc, most, items)?;
    value_answer(work, v)
}

// The best of one sequence, which is walked, or of two values and more.
fn best(work: &mut Work, alloc: Global, most: bool, operands: &[Value]) -> Result<Answer, Stop>
    requires named { AreNamed work.old.values operands.now }
    requires fresh { work.old.made ≡ None }
    ensures { Ends (λ table. best_plan (better_of most) (map (contents table) operands.now)) work.old work.new result }
{
    if operands.is_empty() {
        return Err(work.fault(alloc, Exception::TypeError, "wrong number of arguments"));
    }
    if operands.len() != 1 {
        return best_answer(work, alloc, most, operands);
    }
    let items = walk_value(work, alloc, operands[0])?;
    best_answer(work, alloc, most, items.as_slice())
}

/// `max` (60) of one sequence, or of two values and more: the first of those that are greatest.
pub fn max(work: &mut Work, alloc: Global, operands: &[Value]) -> Result<Answer, Stop>
    requires named { AreNamed work.old.values operands.now }
    requires fresh { work.old.made ≡ None }
    ensures { Ends (λ table. max_plan (map (contents table) operands.now)) work.old work.new result }
{
    best(work, alloc, true, operands)
}

/// `min` (61) of one sequence, or of two values and more: the first of those that are least.
pub fn min(work: &mut Work, alloc: Global, operands: &[Value]) -> Result<Answer, Stop>
    requires named { AreNamed work.old.values operands.now }
    requires fresh { work.old.made ≡ None }
    ensures { Ends (λ table. min_plan (map (contents table) operands.now)) work.old work.new result }
{
    best(work, alloc, false, operands)
}
