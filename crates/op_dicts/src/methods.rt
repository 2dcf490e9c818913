// Methods of dictionaries.
ghost use Rattle.std.specs.Prelude.{◌≡◌, None, map};
ghost use Rattle.op_dicts.specs.Operands.{first_object};
ghost use Rattle.op_work.specs.Work.{Ends};
ghost use Rattle.py_model.specs.Dicts.{get_method as plan_get};
ghost use Rattle.py_value.specs.Contents.{contents};
ghost use Rattle.py_value.specs.Values.{AreNamed};

use crate::gets::{get, get_or};
use op_work::{Exception, Stop, Work};
use py_model::Answer;
use py_value::Value;
use std::alloc::Global;

// The object that the first operand is, by its number.
fn object_first(operands: &[Value]) -> Option<u32>
    ensures { result ≡ first_object operands.now }
{
    match operands.first() {
        Some(Value::Object(o)) => Some(*o),
        _ => None,
    }
}

/// `d.get(key)` and `d.get(key, instead)` (method 87).
pub fn get_method(work: &mut Work, alloc: Global, operands: &[Value]) -> Result<Answer, Stop>
    requires named { AreNamed work.old.values operands.now }
    requires fresh { work.old.made ≡ None }
    ensures { Ends (λ table. plan_get (map (contents table) operands.now)) work.old work.new result }
{
    let Some(o) = object_first(operands) else {
        return Err(work.fault(alloc, Exception::TypeError, "wrong kind of value"));
    };
    if operands.len() == 2 {
        return get(work, alloc, o, operands[1]);
    }
    if operands.len() == 3 {
        return get_or(work, alloc, o, operands[1], operands[2]);
    }
    Err(work.fault(alloc, Exception::TypeError, "wrong number of arguments"))
}
