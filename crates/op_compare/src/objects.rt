// A value is sought in a list, or as a key of a dictionary.
ghost use Rattle.std.specs.Prelude.{is_some, Bool};
ghost use Rattle.op_work.specs.Work.{Comes, is_any, as_is};
ghost use Rattle.py_model.specs.Arithmetic.{contained as contained_plan, among_items};
ghost use Rattle.py_model.specs.Keys.{with_key_of};
ghost use Rattle.py_model.specs.Plan.{Plan, read_len, read_entry};
ghost use Rattle.py_value.specs.Contents.{contents, object};
ghost use Rattle.py_value.specs.Values.{IsNamed};

use crate::items::seek;
use op_dicts::entry_at;
use op_work::{Exception, Stop, Work};
use py_value::{Kind, Value};
use std::alloc::Global;

// Whether a value is in a list: its length is read, and its items up to the hit.
fn in_list(work: &mut Work, alloc: Global, v: Value, o: u32) -> Result<bool, Stop>
    requires { IsNamed work.old.values v }
    ensures { Comes is_any as_is (λ table go. read_len o (λ n. among_items n o 0 (contents table v) go)) work.old work.new result }
{
    let n = work.read_len(o)?;
    let place = seek(work, alloc, n, o, v)?;
    Ok(place.is_some())
}

// Whether a value is a key of a dictionary: one entry is read.
fn in_dict(work: &mut Work, alloc: Global, v: Value, o: u32) -> Result<bool, Stop>
    requires { IsNamed work.old.values v }
    ensures { Comes is_any as_is (λ table (go : Bool → Plan). with_key_of (contents table v) (λ key. read_entry o key (λ entry. go (is_some entry)))) work.old work.new result }
{
    let (key, entry) = entry_at(work, alloc, o, v)?;
    let _ = key;
    Ok(entry.is_some())
}

// Whether a value is in an object.
pub(crate) fn in_object(work: &mut Work, alloc: Global, v: Value, o: u32) -> Result<bool, Stop>
    requires { IsNamed work.old.values v }
    ensures { Comes is_any as_is (λ table. contained_plan (contents table v) (object o)) work.old work.new result }
{
    match work.kind_there(o) {
        Some(Kind::List) => in_list(work, alloc, v, o),
        Some(Kind::Dict) => in_dict(work, alloc, v, o),
        Some(Kind::Instance(_)) => Err(work.fault(
            alloc,
            Exception::TypeError,
            "wrong kind of value",
        )),
        Some(Kind::File(_, _)) => Err(work.fault(
            alloc,
            Exception::TypeError,
            "wrong kind of value",
        )),
        None => Err(work.fault(alloc, Exception::TypeError, "wrong kind of value")),
    }
}
