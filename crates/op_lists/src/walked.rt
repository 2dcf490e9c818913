// Whether a value can be walked, before anything of it is read.
ghost use Rattle.op_work.specs.Work.{Comes, is_any, as_is};
ghost use Rattle.py_model.specs.Plan.{Plan, kind_of};
ghost use Rattle.py_model.specs.Walks.{if_walked, when_walked};
ghost use Rattle.py_value.specs.Contents.{contents};

use op_work::{Exception, Stop, Work};
use py_value::{Kind, Value};
use std::alloc::Global;

// An object can be walked where it is a list or a dictionary.
fn object_walked(work: &mut Work, alloc: Global, o: u32) -> Result<(), Stop>
    ensures { Comes is_any as_is (λ table (go : Unit {0} → Plan). kind_of o (when_walked (go tt))) work.old work.new result }
{
    match work.kind(o) {
        Some(Kind::List) => Ok(()),
        Some(Kind::Dict) => Ok(()),
        Some(Kind::File(_, _)) => Err(work.fault(
            alloc,
            Exception::NotImplementedError,
            "not in this profile",
        )),
        Some(Kind::Instance(_)) => Err(work.fault(
            alloc,
            Exception::TypeError,
            "wrong kind of value",
        )),
        None => Err(work.fault(alloc, Exception::TypeError, "wrong kind of value")),
    }
}

/// Whether a value can be walked, before anything of it is read: a text, a tuple, a range, a list or a dictionary. Another is a fault.
pub fn if_walked(work: &mut Work, alloc: Global, v: Value) -> Result<(), Stop>
    ensures { Comes is_any as_is (λ table (go : Unit {0} → Plan). if_walked (contents table v) (go tt)) work.old work.new result }
{
    match v {
        Value::Text(_) => Ok(()),
        Value::Tuple(_) => Ok(()),
        Value::Range(_, _, _) => Ok(()),
        Value::Object(o) => object_walked(work, alloc, o),
        _ => Err(work.fault(alloc, Exception::TypeError, "wrong kind of value")),
    }
}
