// The length of a value.
ghost use Rattle.std.specs.Prelude.{◌≡◌, map, None};
ghost use Rattle.op_work.specs.Work.{Comes, Ends, is_any, as_is};
ghost use Rattle.py_model.specs.Arithmetic.{len_plan, length_of as plan_length};
ghost use Rattle.py_value.specs.Contents.{contents};
ghost use Rattle.py_value.specs.Values.{IsNamed, AreNamed};

use crate::object_lengths::object_length;
use op_lists::range_count;
use op_numbers::{int_answer, one};
use op_texts::size;
use op_work::{Exception, Stop, Work};
use py_model::Answer;
use py_value::{Value, tuples_are_their_parts};
use std::alloc::Global;

/// How many characters, items or keys a value has. A list reads its length, a dictionary its order.
pub fn length_of(work: &mut Work, alloc: Global, v: Value) -> Result<u64, Stop>
    requires { IsNamed work.old.values v }
    ensures { Comes is_any as_is (λ table. plan_length (contents table v)) work.old work.new result }
{
    tuples_are_their_parts();
    match v {
        Value::Text(id) => Ok(size(work.text_of(id))),
        Value::Tuple(id) => Ok(work.tuple_of(id).len() as u64),
        Value::Range(start, end, step) => Ok(range_count(start, end, step)),
        Value::Object(o) => object_length(work, alloc, o),
        _ => Err(work.fault(alloc, Exception::TypeError, "wrong kind of value")),
    }
}

/// `len(v)` (58): the length of a value. Of a text, a tuple or a range nothing is read or counted.
pub fn len(work: &mut Work, alloc: Global, operands: &[Value]) -> Result<Answer, Stop>
    requires named { AreNamed work.old.values operands.now }
    requires fresh { work.old.made ≡ None }
    ensures { Ends (λ table. len_plan (map (contents table) operands.now)) work.old work.new result }
{
    let v = one(work, alloc, operands)?;
    let n = length_of(work, alloc, v)?;
    int_answer(work, alloc, i64::try_from(n).ok())
}
