// What values and objects are.
ghost use Rattle.std.specs.Prelude.{◌≡◌};
ghost use Rattle.op_classes.specs.ObjectKinds.{function_in, builtin_in};

use prov_base::Pos;
use py_value::Value;

/// The function of the script that a value is, by its place.
pub(crate) fn function_of(v: Value) -> Option<Pos>
    ensures { result ≡ function_in v }
{
    match v {
        Value::Fn(place) => Some(place),
        _ => None,
    }
}

/// The function or module of the language that a value is, by its number.
pub(crate) fn builtin_of(v: Value) -> Option<u64>
    ensures { result ≡ builtin_in v }
{
    match v {
        Value::Builtin(number) => Some(number),
        _ => None,
    }
}
