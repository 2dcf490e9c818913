// The beginning and the end of a `with`.
ghost use Rattle.std.specs.Prelude.{◌≡◌, None};
ghost use Rattle.op_work.specs.Work.{Ends};
ghost use Rattle.py_model.specs.Names.{begin_with as plan_begin, end_with as plan_end};
ghost use Rattle.py_value.specs.Contents.{contents, object};

use crate::kinds::{is_file, object_of};
use op_work::{Exception, Stop, Work};
use py_model::Answer;
use py_value::{Content, Location, Value};
use std::alloc::Global;

/// Begins a `with` (operation 46): a file that is closed is refused, and one that is open is answered.
pub fn begin_with(work: &mut Work, alloc: Global, v: Value) -> Result<Answer, Stop>
    requires first { work.old.made ≡ None }
    ensures { Ends (λ table. plan_begin (contents table v)) work.old work.new result }
{
    match object_of(v) {
        Some(o) => begin_of_object(work, alloc, o),
        None => Err(work.fault(alloc, Exception::TypeError, "wrong kind of value")),
    }
}

// The beginning of a `with` of an object.
fn begin_of_object(work: &mut Work, alloc: Global, o: u32) -> Result<Answer, Stop>
    requires first { work.old.made ≡ None }
    ensures { Ends (λ table. plan_begin (object o)) work.old work.new result }
{
    let there = is_file(work.kind(o));
    if there {
        let is_closed = work.read_closed(o)?;
        if is_closed {
            return Err(work.fault(alloc, Exception::ValueError, "file is closed"));
        }
        return Ok(Answer::Value(Value::Object(o)));
    }
    Err(work.fault(alloc, Exception::TypeError, "wrong kind of value"))
}

/// Ends a `with` (operation 45): the file is closed.
pub fn end_with(work: &mut Work, alloc: Global, v: Value) -> Result<Answer, Stop>
    requires first { work.old.made ≡ None }
    ensures { Ends (λ table. plan_end (contents table v)) work.old work.new result }
{
    match object_of(v) {
        Some(o) => end_of_object(work, alloc, o),
        None => Err(work.fault(alloc, Exception::TypeError, "wrong kind of value")),
    }
}

// The end of a `with` of an object.
fn end_of_object(work: &mut Work, alloc: Global, o: u32) -> Result<Answer, Stop>
    requires first { work.old.made ≡ None }
    ensures { Ends (λ table. plan_end (object o)) work.old work.new result }
{
    let there = is_file(work.kind(o));
    if there {
        work.set(Location::Closed(o), Content::Closed(true))?;
        return Ok(Answer::Value(Value::None));
    }
    Err(work.fault(alloc, Exception::TypeError, "wrong kind of value"))
}
