// Truth values.
ghost use Rattle.std.specs.Prelude.{◌≡◌, None, map, ◌==◌, not as opposite};
ghost use Rattle.op_work.specs.Work.{Comes, Ends, is_any, as_is};
ghost use Rattle.py_model.specs.Arithmetic.{truth_of, truth_plan, not_plan};
ghost use Rattle.py_model.specs.Numbers.{range_count};
ghost use Rattle.py_value.specs.Contents.{contents, object};
ghost use Rattle.py_value.specs.Values.{IsNamed, AreNamed};

use crate::{one, truth_answer};
use op_work::{Stop, Work};
use py_model::Answer;
use py_value::{Kind, Value, tuples_are_their_parts};
use std::alloc::Global;

// Whether a range has a number.
fn range_has(start: i64, end: i64, step: i64) -> bool
    ensures { result ≡ opposite (range_count start end step == 0) }
{
    if step > 0 {
        start < end
    } else if step < 0 {
        end < start
    } else {
        false
    }
}

/// Whether an object is true: a list and a dictionary where it is not empty, any other always.
pub fn object_truth(work: &mut Work, o: u32) -> Result<bool, Stop>
    ensures { Comes is_any as_is (λ table. truth_of (object o)) work.old work.new result }
{
    match work.kind(o) {
        Some(Kind::List) => {
            let n = work.read_len(o)?;
            Ok(n != 0)
        }
        Some(Kind::Dict) => {
            let n = work.read_order(o)?;
            Ok(n != 0)
        }
        Some(Kind::File(_, _)) => Ok(true),
        Some(Kind::Instance(_)) => Ok(true),
        None => Ok(true),
    }
}

/// Whether a value is true. False are None, 0 and what is empty.
pub fn truth_value(work: &mut Work, v: Value) -> Result<bool, Stop>
    requires { IsNamed work.old.values v }
    ensures { Comes is_any as_is (λ table. truth_of (contents table v)) work.old work.new result }
{
    tuples_are_their_parts();
    match v {
        Value::None => Ok(false),
        Value::Bool(b) => Ok(b),
        Value::Int(i) => Ok(i != 0),
        Value::Text(id) => Ok(work.text_of(id).len() != 0),
        Value::Tuple(id) => Ok(work.tuple_of(id).len() != 0),
        Value::Range(start, end, step) => Ok(range_has(start, end, step)),
        Value::Object(o) => object_truth(work, o),
        Value::Fn(_) => Ok(true),
        Value::Class(_) => Ok(true),
        Value::Exc(_) => Ok(true),
        Value::Builtin(_) => Ok(true),
    }
}

/// The truth of a value, also by `bool`.
pub fn truth(work: &mut Work, alloc: Global, operands: &[Value]) -> Result<Answer, Stop>
    requires named { AreNamed work.old.values operands.now }
    requires fresh { work.old.made ≡ None }
    ensures { Ends (λ table. truth_plan (map (contents table) operands.now)) work.old work.new result }
{
    let v = one(work, alloc, operands)?;
    let b = truth_value(work, v)?;
    truth_answer(work, b)
}

/// `not a`.
pub fn not(work: &mut Work, alloc: Global, operands: &[Value]) -> Result<Answer, Stop>
    requires named { AreNamed work.old.values operands.now }
    requires fresh { work.old.made ≡ None }
    ensures { Ends (λ table. not_plan (map (contents table) operands.now)) work.old work.new result }
{
    let v = one(work, alloc, operands)?;
    let b = truth_value(work, v)?;
    truth_answer(work, !b)
}
