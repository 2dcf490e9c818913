// Open files are read.
ghost use Rattle.std.specs.Prelude.{◌≡◌, ◌<◌, None, Some, length, map, slice_get};
ghost use Rattle.object_store.specs.Store.{file_at, kinds};
ghost use Rattle.op_files.specs.Pieces.{piece_behind, piece_plan, piece_unless};
ghost use Rattle.op_work.specs.Work.{Comes, Ends, WroteAll, is_any};
ghost use Rattle.py_model.specs.Files.{read_plan, readline_plan};
ghost use Rattle.py_model.specs.Plan.{read_closed, read_file as plan_file, write, done};
ghost use Rattle.py_value.specs.Contents.{contents};
ghost use Rattle.py_value.specs.Seen.{bytes_of, offset_at, offset_is};
ghost use Rattle.py_value.specs.Values.{IsNamed, AreNamed};
ghost use Rattle.py_value.specs.declared.access.Kind.TheVariants.{File};

use crate::operands::{one_object, open_file};
use crate::pieces::{piece_at, piece_size, piece_text};
use op_items::is_read;
use op_work::{Exception, Stop, Work};
use py_model::Answer;
use py_value::{Content, Location, Mode, Value};
use std::alloc::Global;

// The file of an open file object is read.
fn read_opened(work: &mut Work, o: u32, path: u32, mode: Mode) -> Result<(), Stop>
    requires named { path < length work.old.values.texts }
    requires kind { slice_get (kinds work.old.store) o ≡ Some (File path mode) }
    ensures { Comes is_any (λ table done. file_at work.old.store path) (λ table. plan_file (bytes_of table path)) work.old work.new result }
{
    let _ = (o, mode);
    work.read_file(path)
}

// The offset of a file is set behind a piece, which is the answer.
fn behind(work: &mut Work, o: u32, end: u64, piece: Value) -> Result<Answer, Stop>
    requires named { IsNamed work.old.values piece }
    ensures { WroteAll (λ table. write (offset_at o) (offset_is end) (done (contents table piece))) work.old work.new result }
{
    work.set(Location::Offset(o), Content::Offset(end))?;
    Ok(Answer::Value(piece))
}

// The piece behind an offset, which is counted. An offset that passes 64 bits is refused as out of memory.
fn take_piece(
    work: &mut Work,
    alloc: Global,
    whole: bool,
    o: u32,
    path: u32,
    offset: u64,
) -> Result<Answer, Stop>
    requires fresh { work.old.made ≡ None }
    ensures { Ends (λ table. piece_behind whole o offset (file_at work.old.store path)) work.old work.new result }
{
    let length = piece_at(work, whole, path, offset).len() as u64;
    let Some(count) = piece_size(work, whole, path, offset) else {
        return Err(work.fault(alloc, Exception::ValueError, "not UTF-8"));
    };
    work.count(count)?;
    let words = piece_text(work, alloc, whole, path, offset)?;
    let piece = work.text(alloc, words.as_str())?;
    let Some(end) = offset.checked_add(length) else {
        return Err(Stop::Memory);
    };
    behind(work, o, end, piece)
}

// The next piece of an open file, which is not closed and was opened for reading.
fn file_piece(
    work: &mut Work,
    alloc: Global,
    whole: bool,
    o: u32,
    path: u32,
    mode: Mode,
) -> Result<Answer, Stop>
    requires named { path < length work.old.values.texts }
    requires kind { slice_get (kinds work.old.store) o ≡ Some (File path mode) }
    requires fresh { work.old.made ≡ None }
    ensures { Ends (λ table. read_closed o (piece_unless whole o (bytes_of table path) mode)) work.old work.new result }
{
    let closed = work.read_closed(o)?;
    if closed {
        return Err(work.fault(alloc, Exception::ValueError, "file is closed"));
    }
    if !is_read(mode) {
        return Err(work.fault(alloc, Exception::OSError, "wrong mode"));
    }
    let offset = work.read_offset(o)?;
    read_opened(work, o, path, mode)?;
    take_piece(work, alloc, whole, o, path, offset)
}

// The next piece of an object, which is an open file.
fn object_piece(work: &mut Work, alloc: Global, whole: bool, o: u32) -> Result<Answer, Stop>
    requires fresh { work.old.made ≡ None }
    ensures { Ends (λ table. piece_plan whole o) work.old work.new result }
{
    let Some((path, mode)) = open_file(work, o) else {
        return Err(work.fault(alloc, Exception::TypeError, "wrong kind of value"));
    };
    file_piece(work, alloc, whole, o, path, mode)
}

/// `f.read()` (105): all that is left of an open file.
pub fn read(work: &mut Work, alloc: Global, operands: &[Value]) -> Result<Answer, Stop>
    requires named { AreNamed work.old.values operands.now }
    requires fresh { work.old.made ≡ None }
    ensures { Ends (λ table. read_plan (map (contents table) operands.now)) work.old work.new result }
{
    let o = one_object(work, alloc, operands)?;
    object_piece(work, alloc, true, o)
}

/// `f.readline()` (106): the next line of an open file with its line feed, empty at the end.
pub fn readline(work: &mut Work, alloc: Global, operands: &[Value]) -> Result<Answer, Stop>
    requires named { AreNamed work.old.values operands.now }
    requires fresh { work.old.made ≡ None }
    ensures { Ends (λ table. readline_plan (map (contents table) operands.now)) work.old work.new result }
{
    let o = one_object(work, alloc, operands)?;
    object_piece(work, alloc, false, o)
}
