// The operands of methods of files.
ghost use Rattle.std.specs.Prelude.{◌≡◌, ◌<◌, length, map, slice_get, IfOk, List, ℕ};
ghost use Rattle.object_store.specs.Named.{IsNamedStore};
ghost use Rattle.object_store.specs.Store.{kinds};
ghost use Rattle.op_files.specs.Operands.{file_in as file_in_kind, object_in as object_in_value, text_in as text_in_value, of_object, of_object_text};
ghost use Rattle.op_work.specs.Work.{Comes, is_any, as_is};
ghost use Rattle.py_model.specs.Plan.{Plan};
ghost use Rattle.py_value.specs.Contents.{contents};
ghost use Rattle.py_value.specs.Seen.{bytes_of};
ghost use Rattle.py_value.specs.Values.{AreNamed};

use op_work::{Exception, Stop, Work};
use py_value::{Kind, Mode, Value};
use std::alloc::Global;

// The object that a value is.
fn object_in(v: Value) -> Option<u32>
    ensures { result ≡ object_in_value v }
{
    match v {
        Value::Object(o) => Some(o),
        _ => None,
    }
}

// The number of the text that a value is.
fn text_in(v: Value) -> Option<u32>
    ensures { result ≡ text_in_value v }
{
    match v {
        Value::Text(id) => Some(id),
        _ => None,
    }
}

// The path, by its number, and the mode of an open file.
fn file_in(kind: Option<Kind>) -> Option<(u32, Mode)>
    ensures { result ≡ file_in_kind kind }
{
    match kind {
        Some(Kind::File(path, mode)) => Some((path, mode)),
        _ => None,
    }
}

/// The path and the mode of an object that is an open file.
pub(crate) fn open_file(work: &Work, o: u32) -> Option<(u32, Mode)>
    ensures file { result ≡ file_in_kind (slice_get (kinds work.now.store) o) }
    ensures named { IsNamedStore work.now.values work.now.store }
{
    file_in(work.kind_there(o))
}

/// The one operand, which is an object.
pub(crate) fn one_object(work: &mut Work, alloc: Global, operands: &[Value]) -> Result<u32, Stop>
    ensures { Comes is_any as_is (λ table. of_object (map (contents table) operands.now)) work.old work.new result }
{
    if operands.len() != 1 {
        return Err(work.fault(alloc, Exception::TypeError, "wrong number of arguments"));
    }
    match object_in(operands[0]) {
        Some(o) => Ok(o),
        None => Err(work.fault(alloc, Exception::TypeError, "wrong kind of value")),
    }
}

/// The two operands, an object and a text, by its number.
pub(crate) fn object_and_text(
    work: &mut Work,
    alloc: Global,
    operands: &[Value],
) -> Result<(u32, u32), Stop>
    requires { AreNamed work.old.values operands.now }
    ensures comes { Comes is_any (λ table (found : ℕ × ℕ). (found.0, bytes_of table found.1)) (λ table (go : ℕ × List ℕ → Plan). of_object_text (map (contents table) operands.now) (λ o bytes. go (o, bytes))) work.old work.new result }
    ensures named { IfOk result (λ found. found.1 < length work.old.values.texts) }
{
    if operands.len() != 2 {
        return Err(work.fault(alloc, Exception::TypeError, "wrong number of arguments"));
    }
    let Some(o) = object_in(operands[0]) else {
        return Err(work.fault(alloc, Exception::TypeError, "wrong kind of value"));
    };
    let Some(id) = text_in(operands[1]) else {
        return Err(work.fault(alloc, Exception::TypeError, "wrong kind of value"));
    };
    Ok((o, id))
}
