// Files are opened.
ghost use Rattle.std.specs.Prelude.{◌≡◌, ◌<◌, None, Some, map, length, option_copied, slice_get, IfOk, List, Option, ℕ, [], if◌then◌else◌};
ghost use Rattle.object_store.specs.Store.{file_at as held_file};
ghost use Rattle.op_devices.specs.Asking.{Known, answered_by};
ghost use Rattle.op_devices.specs.Opening.{if_fetched as path_if_fetched, is_readable, made_new, mode_named, of_texts, is_fetched, opening_in, path_in, rest_of, with_mode, EndsAt, IsOpened};
ghost use Rattle.op_files.specs.Operands.{text_in as text_in_value};
ghost use Rattle.op_work.specs.Work.{Comes, Ends, WroteAll, is_any};
ghost use Rattle.py_model.specs.Files.{begun, open_plan, open_to_write as write_plan};
ghost use Rattle.py_model.specs.Plan.{Plan, makes, opens, read_file};
ghost use Rattle.py_value.specs.Contents.{contents};
ghost use Rattle.py_value.specs.Seen.{a_file, bytes_of};
ghost use Rattle.py_value.specs.Values.{AreNamed};
ghost use Rattle.py_value.specs.declared.access.Mode.{Mode as OneMode};
ghost use Rattle.py_value.specs.declared.access.Mode.TheVariants.{Read as ReadMode, Append as AppendMode};

use crate::lines::text_in;
use op_work::{Exception, Stop, Work};
use prov_base::is_path;
use prov_outside::Found;
use py_model::Answer;
use py_value::{Content, Kind, Location, Mode, Value};
use std::alloc::Global;

// The mode that a text names.
fn mode_of(text: &str) -> Option<Mode>
    ensures { result ≡ mode_named text.now }
{
    let text = text.as_bytes();
    if text == b"r".as_slice() {
        Some(Mode::Read)
    } else if text == b"w".as_slice() {
        Some(Mode::Write)
    } else if text == b"a".as_slice() {
        Some(Mode::Append)
    } else {
        None
    }
}

// The path, where it is one that is fetched in a mode.
fn if_fetched(path: u32, text: &str, mode: Option<Mode>) -> Option<u32>
    ensures { result ≡ path_if_fetched path text.now mode }
{
    match mode {
        Some(Mode::Read) => { if is_path(text) { Some(path) } else { None } }
        Some(Mode::Append) => { if is_path(text) { Some(path) } else { None } }
        Some(Mode::Write) => None,
        None => None,
    }
}

/// The path that `open` (62) asks of, by the number of its text: where its operands are fit, and the file is not opened for writing anew.
pub fn path_asked(work: &Work, operands: &[Value]) -> Option<u32>
    requires { AreNamed work.now.values operands.now }
    ensures { result ≡ path_in work.now.values operands.now }
{
    match operands {
        [Value::Text(path)] => if_fetched(*path, work.text_of(*path), Some(Mode::Read)),
        [Value::Text(path), Value::Text(mode)] => if_fetched(
            *path,
            work.text_of(*path),
            mode_of(work.text_of(*mode)),
        ),
        _ => None,
    }
}

// Whether the file at a path can be read.
fn readable(opened: bool, found: Option<&Found>) -> bool
    ensures { result ≡ is_readable opened (option_copied found.entry) }
{
    if opened {
        return true;
    }
    match found {
        Some(Found::Bytes(_)) => true,
        Some(Found::Absent) => true,
        Some(Found::TooLarge) => false,
        Some(Found::Failed) => false,
        None => false,
    }
}

// An open file begins at offset 0, and is not closed.
fn begin(work: &mut Work, o: u32) -> Result<Answer, Stop>
    ensures { WroteAll (λ table. begun o) work.old work.new result }
{
    work.set(Location::Offset(o), Content::Offset(0))?;
    work.set(Location::Closed(o), Content::Closed(false))?;
    Ok(Answer::Value(Value::Object(o)))
}

// It is opened for writing, and begins.
fn begin_open(work: &mut Work, path: u32, o: u32) -> Result<Answer, Stop>
    requires { path < length work.old.values.texts }
    ensures { WroteAll (λ table. opens (bytes_of table path) (begun o)) work.old work.new result }
{
    work.open(path)?;
    begin(work, o)
}

// The file is set to an empty text, opened for writing, and begins.
fn begin_new(work: &mut Work, path: u32, empty: u32, o: u32) -> Result<Answer, Stop>
    requires path { path < length work.old.values.texts }
    requires empty { slice_get work.old.values.texts empty ≡ Some [] }
    ensures { WroteAll (λ table. made_new (bytes_of table path) o) work.old work.new result }
{
    work.set(Location::File(path), Content::File(empty))?;
    begin_open(work, path, o)
}

// A file is opened whose content begins empty.
fn open_new(work: &mut Work, alloc: Global, path: u32, mode: Mode) -> Result<Answer, Stop>
    requires path { path < length work.old.values.texts }
    requires fresh { work.old.made ≡ None }
    ensures { Ends (λ table. makes (a_file (bytes_of table path) mode) (made_new (bytes_of table path))) work.old work.new result }
{
    let empty = work.number(alloc, "")?;
    let o = work.make(Kind::File(path, mode));
    begin_new(work, path, empty, o)
}

// A file that is there is opened for reading.
fn open_there(work: &mut Work, path: u32) -> Result<Answer, Stop>
    requires path { path < length work.old.values.texts }
    requires fresh { work.old.made ≡ None }
    ensures { Ends (λ table. makes (a_file (bytes_of table path) ReadMode) begun) work.old work.new result }
{
    let o = work.make(Kind::File(path, Mode::Read));
    begin(work, o)
}

// A file that is there is opened for appending.
fn append_there(work: &mut Work, path: u32) -> Result<Answer, Stop>
    requires path { path < length work.old.values.texts }
    requires fresh { work.old.made ≡ None }
    ensures { Ends (λ table. makes (a_file (bytes_of table path) AppendMode) (λ o. opens (bytes_of table path) (begun o))) work.old work.new result }
{
    let o = work.make(Kind::File(path, Mode::Append));
    begin_open(work, path, o)
}

// The rest of an opening for reading, once the file was read.
fn read_rest(work: &mut Work, alloc: Global, path: u32, readable: bool) -> Result<Answer, Stop>
    requires path { path < length work.old.values.texts }
    requires fresh { work.old.made ≡ None }
    ensures { Ends (λ table. rest_of readable ReadMode (bytes_of table path) (held_file work.old.store path)) work.old work.new result }
{
    if !readable {
        return Err(work.fault(alloc, Exception::OSError, "file cannot be read"));
    }
    if work.file(path).is_none() {
        return Err(work.fault(alloc, Exception::FileNotFoundError, "no such file"));
    }
    open_there(work, path)
}

// The rest of an opening for appending, once the file was read.
fn append_rest(work: &mut Work, alloc: Global, path: u32, readable: bool) -> Result<Answer, Stop>
    requires path { path < length work.old.values.texts }
    requires fresh { work.old.made ≡ None }
    ensures { Ends (λ table. rest_of readable AppendMode (bytes_of table path) (held_file work.old.store path)) work.old work.new result }
{
    if !readable {
        return Err(work.fault(alloc, Exception::OSError, "file cannot be read"));
    }
    if work.file(path).is_none() {
        return open_new(work, alloc, path, Mode::Append);
    }
    append_there(work, path)
}

// A file is opened for reading.
fn open_to_read(work: &mut Work, alloc: Global, path: u32, readable: bool) -> Result<Answer, Stop>
    requires path { path < length work.old.values.texts }
    requires fresh { work.old.made ≡ None }
    ensures { EndsAt (Some path) (λ table. read_file (bytes_of table path) (rest_of readable ReadMode (bytes_of table path))) work.old work.new result }
{
    work.read_file(path)?;
    read_rest(work, alloc, path, readable)
}

// A file is opened for appending.
fn open_to_append(work: &mut Work, alloc: Global, path: u32, readable: bool) -> Result<Answer, Stop>
    requires path { path < length work.old.values.texts }
    requires fresh { work.old.made ≡ None }
    ensures { EndsAt (Some path) (λ table. read_file (bytes_of table path) (rest_of readable AppendMode (bytes_of table path))) work.old work.new result }
{
    work.read_file(path)?;
    append_rest(work, alloc, path, readable)
}

// A file is opened in a mode.
fn open_in(
    work: &mut Work,
    alloc: Global,
    path: u32,
    mode: Mode,
    readable: bool,
) -> Result<Answer, Stop>
    requires path { path < length work.old.values.texts }
    requires fresh { work.old.made ≡ None }
    ensures { EndsAt (if is_fetched mode then Some path else None) (λ table. opening_in readable (bytes_of table path, mode)) work.old work.new result }
{
    match mode {
        Mode::Read => open_to_read(work, alloc, path, readable),
        Mode::Write => open_new(work, alloc, path, Mode::Write),
        Mode::Append => open_to_append(work, alloc, path, readable),
    }
}

// The mode and the path are tested, and the file is opened.
fn open_tested(
    work: &mut Work,
    alloc: Global,
    path: u32,
    mode: Option<Mode>,
    readable: bool,
) -> Result<Answer, Stop>
    requires path { path < length work.old.values.texts }
    requires fresh { work.old.made ≡ None }
    ensures { EndsAt (path_if_fetched path (bytes_of work.old.values path) mode) (λ table. with_mode (bytes_of table path) mode (opening_in readable)) work.old work.new result }
{
    let Some(mode) = mode else {
        return Err(work.fault(alloc, Exception::ValueError, "bad mode"));
    };
    if !is_path(work.text_of(path)) {
        return Err(work.fault(alloc, Exception::OSError, "bad path"));
    }
    open_in(work, alloc, path, mode, readable)
}

// The path, by the number of its text, and the mode that the operands name.
fn texts(work: &mut Work, alloc: Global, operands: &[Value]) -> Result<(u32, Option<Mode>), Stop>
    requires { AreNamed work.old.values operands.now }
    ensures comes { Comes is_any (λ table (found : ℕ × Option OneMode). (bytes_of table found.0, found.1)) (λ table (go : List ℕ × Option OneMode → Plan). of_texts (map (contents table) operands.now) go) work.old work.new result }
    ensures named { IfOk result (λ found. found.0 < length work.old.values.texts) }
    ensures path { IfOk result (λ found. path_in work.old.values operands.now ≡ path_if_fetched found.0 (bytes_of work.old.values found.0) found.1) }
{
    if operands.is_empty() {
        return Err(work.fault(alloc, Exception::TypeError, "wrong number of arguments"));
    }
    if operands.len() > 2 {
        return Err(work.fault(alloc, Exception::TypeError, "wrong number of arguments"));
    }
    let Some(path) = text_in(operands[0]) else {
        return Err(work.fault(alloc, Exception::TypeError, "wrong kind of value"));
    };
    if operands.len() == 1 {
        return Ok((path, Some(Mode::Read)));
    }
    let Some(mode) = text_in(operands[1]) else {
        return Err(work.fault(alloc, Exception::TypeError, "wrong kind of value"));
    };
    Ok((path, mode_of(work.text_of(mode))))
}

/// `open` (62): the file at a path is opened, by whether the run opened it for writing before, and by what was found there if not.
pub fn open(
    work: &mut Work,
    alloc: Global,
    operands: &[Value],
    opened: bool,
    found: Option<&Found>,
) -> Result<Answer, Stop>
    requires named { AreNamed work.old.values operands.now }
    requires fresh { work.old.made ≡ None }
    ensures { (k : Known) → IsOpened k work.old.values (path_in work.old.values operands.now) opened (option_copied found.entry)
        → EndsAt (path_in work.old.values operands.now) (λ table. answered_by k (open_plan (map (contents table) operands.now))) work.old work.new result }
{
    let readable = readable(opened, found);
    let (path, mode) = texts(work, alloc, operands)?;
    open_tested(work, alloc, path, mode, readable)
}
