// The numbers of what is read fit their types. Nothing is done here: each call tells a proof so.
ghost use Rattle.row_words.specs.AccessBytes.{IsLocation};
ghost use Rattle.row_words.specs.Fits.{IsPlace, IsText, IsValue};

use prov_base::Pos;
use py_value::{Location, Value};

/// The line and the column of a place have 32 bits.
pub(crate) fn place_fits(at: Pos)
    ensures { IsPlace at }
{
    let _ = at;
}

/// A text has fewer bytes than 64 bits count, and is UTF-8.
pub(crate) fn text_fits(s: &str)
    ensures { IsText s.now }
{
    let _ = s.as_bytes().len();
}

/// The numbers in a value are those of their types.
pub(crate) fn value_fits(v: Value)
    ensures { IsValue v }
{
    match v {
        Value::None => {}
        Value::Bool(_) => {}
        Value::Int(_i) => {}
        Value::Text(_n) => {}
        Value::Tuple(_n) => {}
        Value::Range(_start, _end, _step) => {}
        Value::Fn(at) => place_fits(at),
        Value::Class(at) => place_fits(at),
        Value::Exc(_n) => {}
        Value::Builtin(_n) => {}
        Value::Object(_n) => {}
    }
}

/// The numbers in a location are those of their types.
pub(crate) fn location_fits(l: Location)
    ensures { IsLocation l }
{
    match l {
        Location::Var(_scope, _name) => {}
        Location::Len(_object) => {}
        Location::Item(_object, _index) => {}
        Location::Entry(_object, key) => value_fits(key.value),
        Location::Order(_object) => {}
        Location::File(_path) => {}
        Location::Offset(_object) => {}
        Location::Closed(_object) => {}
        Location::Method(class, _name) => place_fits(class),
        Location::Base(class) => place_fits(class),
    }
}
