// The place of a value in a list.
ghost use Rattle.std.specs.Prelude.{◌≡◌, None, map};
ghost use Rattle.op_work.specs.Work.{Ends};
ghost use Rattle.py_model.specs.Lists.{index_method, answer_place};
ghost use Rattle.py_value.specs.Contents.{contents};
ghost use Rattle.py_value.specs.Values.{AreNamed};

use crate::items::seek;
use op_joins::list_operand;
use op_work::{Exception, Stop, Work};
use py_model::Answer;
use py_value::Value;
use std::alloc::Global;

// The place of a value, or a fault where it has none. A place past 63 bits is refused as out of memory.
fn place_answer(work: &mut Work, alloc: Global, place: Option<u64>) -> Result<Answer, Stop>
    requires fresh { work.old.made ≡ None }
    ensures { Ends (λ table. answer_place place) work.old work.new result }
{
    let Some(p) = place else {
        return Err(work.fault(alloc, Exception::ValueError, "not found"));
    };
    let Ok(i) = i64::try_from(p) else {
        return Err(Stop::Memory);
    };
    Ok(Answer::Value(Value::Int(i)))
}

/// `l.index(v)` (84): the place of the first item that is equal.
pub fn index(work: &mut Work, alloc: Global, operands: &[Value]) -> Result<Answer, Stop>
    requires named { AreNamed work.old.values operands.now }
    requires fresh { work.old.made ≡ None }
    ensures { Ends (λ table. index_method (map (contents table) operands.now)) work.old work.new result }
{
    let o = list_operand(work, alloc, operands, 2)?;
    let n = work.read_len(o)?;
    let place = seek(work, alloc, n, o, operands[1])?;
    place_answer(work, alloc, place)
}
