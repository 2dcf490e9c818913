// Whether two values are one.
ghost use Rattle.std.specs.Prelude.{◌≡◌, None, map};
ghost use Rattle.op_numbers.specs.Identity.{identity_of, or_not_there};
ghost use Rattle.op_work.specs.Work.{Comes, Ends, is_any, as_is};
ghost use Rattle.py_model.specs.Arithmetic.{identical as identical_plan, is_plan, is_not_plan};
ghost use Rattle.py_value.specs.Contents.{contents};
ghost use Rattle.py_value.specs.Values.{AreNamed};

use crate::{truth_answer, two};
use op_work::{Exception, Stop, Work};
use py_model::Answer;
use py_value::Value;
use std::alloc::Global;

// Whether two values are one, where it is said.
fn identity(v: Value, w: Value) -> Option<bool>
    ensures { result ≡ identity_of v w }
{
    match (v, w) {
        (Value::Int(_), Value::Int(_)) => None,
        (Value::Text(_), Value::Text(_)) => None,
        (Value::Tuple(_), Value::Tuple(_)) => None,
        (Value::Range(_, _, _), Value::Range(_, _, _)) => None,
        (Value::None, Value::None) => Some(true),
        (Value::Bool(a), Value::Bool(b)) => Some(if a { b } else { !b }),
        (Value::Fn(p), Value::Fn(q)) => Some(p == q),
        (Value::Class(p), Value::Class(q)) => Some(p == q),
        (Value::Exc(m), Value::Exc(n)) => Some(m == n),
        (Value::Builtin(m), Value::Builtin(n)) => Some(m == n),
        (Value::Object(m), Value::Object(n)) => Some(m == n),
        _ => Some(false),
    }
}

// Whether two values are one. Of two integers, texts, tuples or ranges it is not said.
fn identical(work: &mut Work, alloc: Global, v: Value, w: Value) -> Result<bool, Stop>
    ensures { Comes is_any as_is (λ table. identical_plan (contents table v) (contents table w)) work.old work.new result }
{
    match identity(v, w) {
        Some(b) => Ok(b),
        None => Err(work.fault(alloc, Exception::NotImplementedError, "not in this profile")),
    }
}

/// `a is b`.
pub fn is(work: &mut Work, alloc: Global, operands: &[Value]) -> Result<Answer, Stop>
    requires named { AreNamed work.old.values operands.now }
    requires fresh { work.old.made ≡ None }
    ensures { Ends (λ table. is_plan (map (contents table) operands.now)) work.old work.new result }
{
    let (v, w) = two(work, alloc, operands)?;
    let same = identical(work, alloc, v, w)?;
    truth_answer(work, same)
}

/// `a is not b`.
pub fn is_not(work: &mut Work, alloc: Global, operands: &[Value]) -> Result<Answer, Stop>
    requires named { AreNamed work.old.values operands.now }
    requires fresh { work.old.made ≡ None }
    ensures { Ends (λ table. is_not_plan (map (contents table) operands.now)) work.old work.new result }
{
    let (v, w) = two(work, alloc, operands)?;
    let same = identical(work, alloc, v, w)?;
    truth_answer(work, !same)
}
