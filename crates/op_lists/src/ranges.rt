// The numbers of a range.
ghost use Rattle.std.specs.Prelude.{◌≡◌, IfOk};
ghost use Rattle.op_lists.specs.ValuesSeen.{values_seen};
ghost use Rattle.py_model.specs.Numbers.{range_count};
ghost use Rattle.py_model.specs.Walks.{numbers_from, walk};
ghost use Rattle.op_work.specs.Work.{Comes};
ghost use Rattle.py_value.specs.Contents.{range};
ghost use Rattle.py_value.specs.Values.{ValuesView, AreNamed};

use op_work::{Stop, Work};
use prov_base::Memory;
use py_value::Value;
use std::alloc::Global;

/// How many numbers a range has.
pub fn range_count(start: i64, end: i64, step: i64) -> u64
    ensures { result ≡ range_count start end step }
{
    if step > 0 && start < end {
        return (end.abs_diff(start) - 1) / step.unsigned_abs() + 1;
    }
    if step < 0 && end < start {
        return (start.abs_diff(end) - 1) / step.unsigned_abs() + 1;
    }
    0
}

// The numbers of a range, in turn. The sum behind the last number may pass the greatest, and is not used.
fn range_numbers(alloc: Global, start: i64, end: i64, step: i64) -> Result<Vec<Value>, Memory>
    ensures seen { IfOk result (λ vs. (table : ValuesView) → values_seen table vs.items ≡ numbers_from (range_count start end step) start step) }
    ensures named { IfOk result (λ vs. (values : ValuesView) → AreNamed values vs.items) }
{
    let mut numbers = Vec::new(alloc);
    let mut number = start;
    for i in 0..range_count(start, end, step) {
        numbers.push(Value::Int(number))?;
        number = number.saturating_add(step);
    }
    Ok(numbers)
}

/// The numbers of a range, each looked at.
pub fn walk_range(
    work: &mut Work,
    alloc: Global,
    start: i64,
    end: i64,
    step: i64,
) -> Result<Vec<Value>, Stop>
    ensures { Comes (λ values vs. AreNamed values vs.items) (λ table vs. values_seen table vs.items) (λ table. walk (range start end step)) work.old work.new result }
{
    work.look(range_count(start, end, step))?;
    let numbers = range_numbers(alloc, start, end, step)?;
    Ok(numbers)
}
