// Open files are closed.
ghost use Rattle.std.specs.Prelude.{◌≡◌, None, map, true};
ghost use Rattle.op_work.specs.Work.{Ends, WroteAll};
ghost use Rattle.py_model.specs.Files.{close_plan};
ghost use Rattle.py_model.specs.Plan.{write, done};
ghost use Rattle.py_value.specs.Contents.{contents, nothing};
ghost use Rattle.py_value.specs.Seen.{closed_at, closed_is};
ghost use Rattle.py_value.specs.Values.{AreNamed};

use crate::operands::{one_object, open_file};
use op_work::{Exception, Stop, Work};
use py_model::Answer;
use py_value::{Content, Location, Value};
use std::alloc::Global;

// A file is closed.
fn set_closed(work: &mut Work, o: u32) -> Result<Answer, Stop>
    ensures { WroteAll (λ table. write (closed_at o) (closed_is true) (done nothing)) work.old work.new result }
{
    work.set(Location::Closed(o), Content::Closed(true))?;
    Ok(Answer::Value(Value::None))
}

/// `f.close()` (108): an open file is closed. It may be closed again.
pub fn close(work: &mut Work, alloc: Global, operands: &[Value]) -> Result<Answer, Stop>
    requires named { AreNamed work.old.values operands.now }
    requires fresh { work.old.made ≡ None }
    ensures { Ends (λ table. close_plan (map (contents table) operands.now)) work.old work.new result }
{
    let o = one_object(work, alloc, operands)?;
    let Some((path, mode)) = open_file(work, o) else {
        return Err(work.fault(alloc, Exception::TypeError, "wrong kind of value"));
    };
    let _ = (path, mode);
    set_closed(work, o)
}
