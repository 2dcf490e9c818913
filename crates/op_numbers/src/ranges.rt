// Ranges.
ghost use Rattle.std.specs.Prelude.{◌≡◌, None, map, ℤ};
ghost use Rattle.op_numbers.specs.RangeBounds.{bounds_of, of_bounds};
ghost use Rattle.op_work.specs.Work.{Comes, Ends, is_any, as_is};
ghost use Rattle.py_model.specs.Arithmetic.{a_range, range_plan};
ghost use Rattle.py_model.specs.Plan.{Plan};
ghost use Rattle.py_value.specs.Contents.{contents};
ghost use Rattle.py_value.specs.Values.{AreNamed};

use crate::number;
use op_work::{Exception, Stop, Work};
use py_model::Answer;
use py_value::Value;
use std::alloc::Global;

// The start, the end and the step that operands say.
fn bounds(operands: &[Value]) -> Option<(Value, (Value, Value))>
    ensures { result ≡ bounds_of operands.now }
{
    match operands {
        [end] => Some((Value::Int(0), (*end, Value::Int(1)))),
        [start, end] => Some((*start, (*end, Value::Int(1)))),
        [start, end, step] => Some((*start, (*end, *step))),
        _ => None,
    }
}

// A range, where its step is not 0.
fn range_answer(
    work: &mut Work,
    alloc: Global,
    start: i64,
    end: i64,
    step: i64,
) -> Result<Answer, Stop>
    requires fresh { work.old.made ≡ None }
    ensures { Ends (λ table. a_range start end step) work.old work.new result }
{
    if step == 0 {
        return Err(work.fault(alloc, Exception::ValueError, "empty or zero"));
    }
    Ok(Answer::Value(Value::Range(start, end, step)))
}

/// `range` of an end, of start and end, or of start, end and step. The step 0 raises ValueError.
pub fn range(work: &mut Work, alloc: Global, operands: &[Value]) -> Result<Answer, Stop>
    requires named { AreNamed work.old.values operands.now }
    requires fresh { work.old.made ≡ None }
    ensures { Ends (λ table. range_plan (map (contents table) operands.now)) work.old work.new result }
{
    match bounds(operands) {
        Some((v, (w, x))) => {
            let start = number(work, alloc, v)?;
            let end = number(work, alloc, w)?;
            let step = number(work, alloc, x)?;
            range_answer(work, alloc, start, end, step)
        }
        None => Err(work.fault(alloc, Exception::TypeError, "wrong number of arguments")),
    }
}
