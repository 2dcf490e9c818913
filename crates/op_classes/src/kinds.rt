// What values are.
ghost use Rattle.std.specs.Prelude.{◌≡◌};
ghost use Rattle.op_classes.specs.Kinds.{object_in, class_in, failed_call, is_file_kind, instance_of, tuple_in};

use prov_base::Pos;
use py_value::{Kind, Value};

/// The object that a value is, by its number.
pub fn object_of(v: Value) -> Option<u32>
    ensures { result ≡ object_in v }
{
    match v {
        Value::Object(o) => Some(o),
        _ => None,
    }
}

/// The class of the script that a value is, by its place.
pub fn class_of(v: Value) -> Option<Pos>
    ensures { result ≡ class_in v }
{
    match v {
        Value::Class(place) => Some(place),
        _ => None,
    }
}

/// Why a call fails: 0, 1, or for any other reason 2.
pub fn reason_of(v: Value) -> u8
    ensures { result ≡ failed_call v }
{
    match v {
        Value::Int(0) => 0,
        Value::Int(1) => 1,
        _ => 2,
    }
}

/// Whether an object is a file.
pub fn is_file(kind: Option<Kind>) -> bool
    ensures { result ≡ is_file_kind kind }
{
    matches!(kind, Some(Kind::File(_, _)))
}

/// The class of an object that is an instance.
pub fn class_of_instance(kind: Option<Kind>) -> Option<Value>
    ensures { result ≡ instance_of kind }
{
    match kind {
        Some(Kind::Instance(of)) => Some(of),
        _ => None,
    }
}

/// The tuple that a value is, by its number.
pub fn tuple_number(v: Value) -> Option<u32>
    ensures { result ≡ tuple_in v }
{
    match v {
        Value::Tuple(id) => Some(id),
        _ => None,
    }
}
