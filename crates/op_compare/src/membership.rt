// Whether a value is in another, and the operators that say so.
ghost use Rattle.std.specs.Prelude.{◌≡◌, None, map};
ghost use Rattle.op_work.specs.Work.{Comes, Ends, is_any, as_is};
ghost use Rattle.py_model.specs.Arithmetic.{contained as contained_plan, in_plan, not_in_plan};
ghost use Rattle.py_value.specs.Contents.{contents};
ghost use Rattle.py_value.specs.Values.{IsNamed, AreNamed};

use crate::in_texts::in_text;
use crate::numbers::in_range;
use crate::objects::in_object;
use crate::parts::in_tuple;
use op_numbers::{truth_answer, two};
use op_work::{Exception, Stop, Work};
use py_model::Answer;
use py_value::Value;
use std::alloc::Global;

/// Whether a value is in another: a text, a tuple, a range, a list or a dictionary. Any other raises TypeError.
pub fn contained(work: &mut Work, alloc: Global, v: Value, w: Value) -> Result<bool, Stop>
    requires one { IsNamed work.old.values v }
    requires other { IsNamed work.old.values w }
    ensures { Comes is_any as_is (λ table. contained_plan (contents table v) (contents table w)) work.old work.new result }
{
    match w {
        Value::Text(id) => in_text(work, alloc, v, id),
        Value::Tuple(id) => in_tuple(work, alloc, v, id),
        Value::Range(start, end, step) => in_range(work, v, start, end, step),
        Value::Object(o) => in_object(work, alloc, v, o),
        _ => Err(work.fault(alloc, Exception::TypeError, "wrong kind of value")),
    }
}

/// `a in b` (18).
pub fn is_in(work: &mut Work, alloc: Global, operands: &[Value]) -> Result<Answer, Stop>
    requires named { AreNamed work.old.values operands.now }
    requires fresh { work.old.made ≡ None }
    ensures { Ends (λ table. in_plan (map (contents table) operands.now)) work.old work.new result }
{
    let (v, w) = two(work, alloc, operands)?;
    let found = contained(work, alloc, v, w)?;
    truth_answer(work, found)
}

/// `a not in b` (19).
pub fn not_in(work: &mut Work, alloc: Global, operands: &[Value]) -> Result<Answer, Stop>
    requires named { AreNamed work.old.values operands.now }
    requires fresh { work.old.made ≡ None }
    ensures { Ends (λ table. not_in_plan (map (contents table) operands.now)) work.old work.new result }
{
    let (v, w) = two(work, alloc, operands)?;
    let found = contained(work, alloc, v, w)?;
    truth_answer(work, !found)
}
