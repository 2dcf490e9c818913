// Texts are written into open files.
ghost use Rattle.std.specs.Prelude.{◌≡◌, ◌<◌, None, Some, length, map, pos, IsSome};
ghost use Rattle.object_store.specs.Store.{file_at as held_file};
ghost use Rattle.op_files.specs.Written.{appended, written_unless};
ghost use Rattle.op_work.specs.Work.{Ends, WroteAll};
ghost use Rattle.py_model.specs.Files.{write_plan, write_to};
ghost use Rattle.py_model.specs.Plan.{read_closed, change, done};
ghost use Rattle.py_value.specs.Contents.{contents, int};
ghost use Rattle.py_value.specs.Seen.{bytes_of, file_at, bytes_appended};
ghost use Rattle.py_value.specs.Values.{AreNamed};

use crate::operands::{object_and_text, open_file};
use op_items::is_read;
use op_texts::size;
use op_work::{Exception, Stop, Work};
use py_model::Answer;
use py_value::{Change, Location, Mode, Value};
use std::alloc::Global;

// A text goes behind the bytes of a file that is there, and a number is the answer.
fn put_behind(work: &mut Work, path: u32, id: u32, count: i64) -> Result<Answer, Stop>
    requires path { path < length work.old.values.texts }
    requires named { id < length work.old.values.texts }
    requires there { IsSome (held_file work.old.store path) }
    ensures { WroteAll (λ table. change (file_at (bytes_of table path)) (bytes_appended (bytes_of table id)) (done (int count))) work.old work.new result }
{
    work.update(Location::File(path), Change::Append(id))?;
    Ok(Answer::Value(Value::Int(count)))
}

// A text goes behind the bytes of a file, and its characters are counted. Where no file is there, memory ran out.
fn append_text(work: &mut Work, path: u32, id: u32) -> Result<Answer, Stop>
    requires path { path < length work.old.values.texts }
    requires named { id < length work.old.values.texts }
    requires fresh { work.old.made ≡ None }
    ensures { Ends (λ table. appended (bytes_of table path) (bytes_of table id)) work.old work.new result }
{
    let n = size(work.text_of(id));
    let Ok(count) = i64::try_from(n) else {
        return Err(Stop::Memory);
    };
    if work.file(path).is_none() {
        return Err(Stop::Memory);
    }
    work.count(n)?;
    put_behind(work, path, id, count)
}

// A text is written into an open file, which is not closed and was not opened for reading.
fn file_write(
    work: &mut Work,
    alloc: Global,
    o: u32,
    path: u32,
    mode: Mode,
    id: u32,
) -> Result<Answer, Stop>
    requires path { path < length work.old.values.texts }
    requires named { id < length work.old.values.texts }
    requires fresh { work.old.made ≡ None }
    ensures { Ends (λ table. read_closed o (written_unless (bytes_of table path) mode (bytes_of table id))) work.old work.new result }
{
    let closed = work.read_closed(o)?;
    if closed {
        return Err(work.fault(alloc, Exception::ValueError, "file is closed"));
    }
    if is_read(mode) {
        return Err(work.fault(alloc, Exception::OSError, "wrong mode"));
    }
    append_text(work, path, id)
}

// A text is written into an object, which is an open file.
fn object_write(work: &mut Work, alloc: Global, o: u32, id: u32) -> Result<Answer, Stop>
    requires named { id < length work.old.values.texts }
    requires fresh { work.old.made ≡ None }
    ensures { Ends (λ table. write_to o (bytes_of table id)) work.old work.new result }
{
    let Some((path, mode)) = open_file(work, o) else {
        return Err(work.fault(alloc, Exception::TypeError, "wrong kind of value"));
    };
    file_write(work, alloc, o, path, mode, id)
}

/// `f.write(text)` (107): the text goes behind the bytes of an open file. The number of its characters is the answer.
pub fn write(work: &mut Work, alloc: Global, operands: &[Value]) -> Result<Answer, Stop>
    requires named { AreNamed work.old.values operands.now }
    requires fresh { work.old.made ≡ None }
    ensures { Ends (λ table. write_plan (map (contents table) operands.now)) work.old work.new result }
{
    let (o, id) = object_and_text(work, alloc, operands)?;
    object_write(work, alloc, o, id)
}
