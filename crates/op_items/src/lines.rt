// The next line of an open file.
ghost use Rattle.std.specs.Prelude.{◌≡◌, ◌<◌, None, Some, drop, length, slice_get, string_bytes, IfOk, MatchOption, true, false};
ghost use Rattle.std.specs.Str.{is_utf8};
ghost use Rattle.object_store.specs.Store.{file_at, kinds};
ghost use Rattle.op_items.specs.Lines.{bytes_in, is_reading, line_or_end, line_unless};
ghost use Rattle.op_work.specs.Work.{Comes, Ends, WroteAll, is_any};
ghost use Rattle.py_model.specs.Files.{first_line as first_line_of, next_line as next_plan};
ghost use Rattle.py_model.specs.Plan.{read_closed, read_file as plan_file, write, done, done_at_end};
ghost use Rattle.py_model.specs.Texts.{size as size_of};
ghost use Rattle.py_value.specs.Contents.{contents};
ghost use Rattle.py_value.specs.Seen.{bytes_of, offset_at, offset_is};
ghost use Rattle.py_value.specs.Values.{IsNamed};
ghost use Rattle.py_value.specs.declared.access.Kind.TheVariants.{File};

use op_texts::size;
use op_work::{Exception, Stop, Work};
use prov_base::Memory;
use py_model::Answer;
use py_value::{Content, Kind, Location, Mode, Value};
use std::alloc::Global;
use std::str;

/// The bytes up to the first line feed and with it, or all.
pub fn first_line(bytes: &[u8]) -> &[u8]
    ensures { result.now ≡ first_line_of bytes.now }
{
    for i in 0..bytes.len() {
        if bytes[i] == 10 {
            return &bytes[..i + 1];
        }
    }
    bytes
}

// The next line of a file behind an offset.
fn line_at(work: &Work, path: u32, offset: u64) -> &[u8]
    ensures { result.now ≡ first_line_of (drop offset (bytes_in (file_at work.now.store path))) }
{
    match work.file(path) {
        Some(bytes) => {
            if offset >= bytes.len() as u64 {
                return &[];
            }
            first_line(&bytes[offset as usize..])
        }
        None => &[],
    }
}

// How many characters the next line has, where it is a text.
fn line_size(work: &Work, path: u32, offset: u64) -> Option<u64>
    ensures { MatchOption result (is_utf8 (first_line_of (drop offset (bytes_in (file_at work.now.store path)))) ≡ false)
        (λ n. (is_utf8 (first_line_of (drop offset (bytes_in (file_at work.now.store path)))) ≡ true) × (n ≡ size_of (first_line_of (drop offset (bytes_in (file_at work.now.store path)))))) }
{
    match str::from_utf8(line_at(work, path, offset)) {
        Ok(line) => Some(size(line)),
        Err(_) => None,
    }
}

// The next line, where it is a text.
fn line_text(work: &Work, alloc: Global, path: u32, offset: u64) -> Result<String, Memory>
    ensures { IfOk result (λ made. is_utf8 (first_line_of (drop offset (bytes_in (file_at work.now.store path)))) ≡ true
        → string_bytes made ≡ first_line_of (drop offset (bytes_in (file_at work.now.store path)))) }
{
    match str::from_utf8(line_at(work, path, offset)) {
        Ok(line) => {
            let made = String::from_str(alloc, line)?;
            Ok(made)
        }
        Err(_) => Ok(String::new(alloc)),
    }
}

// The file of an open file object is read.
fn read_opened(work: &mut Work, o: u32, path: u32, mode: Mode) -> Result<(), Stop>
    requires named { path < length work.old.values.texts }
    requires kind { slice_get (kinds work.old.store) o ≡ Some (File path mode) }
    ensures { Comes is_any (λ table done. file_at work.old.store path) (λ table. plan_file (bytes_of table path)) work.old work.new result }
{
    let _ = (o, mode);
    work.read_file(path)
}

// The offset of a file stays where nothing is left, and the sequence is at its end.
fn at_end(work: &mut Work, o: u32, offset: u64) -> Result<Answer, Stop>
    ensures { WroteAll (λ table. write (offset_at o) (offset_is offset) done_at_end) work.old work.new result }
{
    work.set(Location::Offset(o), Content::Offset(offset))?;
    Ok(Answer::End)
}

// The offset of a file is set behind a line, which is the answer.
fn behind(work: &mut Work, o: u32, end: u64, line: Value) -> Result<Answer, Stop>
    requires named { IsNamed work.old.values line }
    ensures { WroteAll (λ table. write (offset_at o) (offset_is end) (done (contents table line))) work.old work.new result }
{
    work.set(Location::Offset(o), Content::Offset(end))?;
    Ok(Answer::Value(line))
}

// The next line behind an offset, which is counted. An offset that passes 64 bits is refused as out of memory.
fn take_line(work: &mut Work, alloc: Global, o: u32, path: u32, offset: u64) -> Result<Answer, Stop>
    requires fresh { work.old.made ≡ None }
    ensures { Ends (λ table. line_or_end o offset (first_line_of (drop offset (bytes_in (file_at work.old.store path))))) work.old work.new result }
{
    let length = line_at(work, path, offset).len() as u64;
    if length == 0 {
        return at_end(work, o, offset);
    }
    let Some(count) = line_size(work, path, offset) else {
        return Err(work.fault(alloc, Exception::ValueError, "not UTF-8"));
    };
    work.count(count)?;
    let words = line_text(work, alloc, path, offset)?;
    let line = work.text(alloc, words.as_str())?;
    let Some(end) = offset.checked_add(length) else {
        return Err(Stop::Memory);
    };
    behind(work, o, end, line)
}

/// Whether a mode is that of reading.
pub fn is_read(mode: Mode) -> bool
    ensures { result ≡ is_reading mode }
{
    match mode {
        Mode::Read => true,
        Mode::Write => false,
        Mode::Append => false,
    }
}

// The next line of an open file, which is not closed and was opened for reading.
fn file_line(work: &mut Work, alloc: Global, o: u32, path: u32, mode: Mode) -> Result<Answer, Stop>
    requires named { path < length work.old.values.texts }
    requires kind { slice_get (kinds work.old.store) o ≡ Some (File path mode) }
    requires fresh { work.old.made ≡ None }
    ensures { Ends (λ table. read_closed o (line_unless o (bytes_of table path) mode)) work.old work.new result }
{
    let closed = work.read_closed(o)?;
    if closed {
        return Err(work.fault(alloc, Exception::ValueError, "file is closed"));
    }
    if !is_read(mode) {
        return Err(work.fault(alloc, Exception::OSError, "wrong mode"));
    }
    let offset = work.read_offset(o)?;
    read_opened(work, o, path, mode)?;
    take_line(work, alloc, o, path, offset)
}

/// The next line of an open file in a `for`, or the end.
pub fn next_line(work: &mut Work, alloc: Global, o: u32) -> Result<Answer, Stop>
    requires fresh { work.old.made ≡ None }
    ensures { Ends (λ table. next_plan o) work.old work.new result }
{
    match work.kind_there(o) {
        Some(Kind::File(path, mode)) => file_line(work, alloc, o, path, mode),
        Some(Kind::List) => Err(work.fault(alloc, Exception::TypeError, "wrong kind of value")),
        Some(Kind::Dict) => Err(work.fault(alloc, Exception::TypeError, "wrong kind of value")),
        Some(Kind::Instance(_)) => Err(work.fault(
            alloc,
            Exception::TypeError,
            "wrong kind of value",
        )),
        None => Err(work.fault(alloc, Exception::TypeError, "wrong kind of value")),
    }
}
