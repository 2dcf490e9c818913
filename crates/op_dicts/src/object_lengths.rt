// The length of an object.
ghost use Rattle.op_work.specs.Work.{Comes, is_any, as_is};
ghost use Rattle.py_model.specs.Arithmetic.{length_of};
ghost use Rattle.py_value.specs.Contents.{object};

use op_work::{Exception, Stop, Work};
use py_value::Kind;
use std::alloc::Global;

/// `len` of an object: a list reads its length, a dictionary its order.
pub fn object_length(work: &mut Work, alloc: Global, o: u32) -> Result<u64, Stop>
    ensures { Comes is_any as_is (λ table. length_of (object o)) work.old work.new result }
{
    match work.kind_there(o) {
        Some(Kind::List) => work.read_len(o),
        Some(Kind::Dict) => {
            let count = work.read_order(o)?;
            Ok(u64::from(count))
        }
        Some(Kind::Instance(_)) => Err(work.fault(
            alloc,
            Exception::TypeError,
            "wrong kind of value",
        )),
        Some(Kind::File(_, _)) => Err(work.fault(
            alloc,
            Exception::TypeError,
            "wrong kind of value",
        )),
        None => Err(work.fault(alloc, Exception::TypeError, "wrong kind of value")),
    }
}
