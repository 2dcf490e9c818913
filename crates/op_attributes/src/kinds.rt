// What values and objects are to operations on attributes.
ghost use Rattle.std.specs.Prelude.{◌≡◌, ◌==◌, ◌&&◌, codes};
ghost use Rattle.std.specs.Str.{bytes_eq};
ghost use Rattle.op_attributes.specs.Holders.{holder_in};
ghost use Rattle.py_model.specs.Classes.{is_module as model_is_module, sys_module};

use py_value::Value;

/// What a value is to operations on attributes.
#[derive(Clone, Copy)]
pub(crate) enum Holder {
    /// An object, by its number.
    Object(u32),
    /// A class.
    Class,
    /// A text.
    Text,
    /// A tuple.
    Tuple,
    /// A function or module of the language, by its number.
    Builtin(u64),
    /// A value without attributes.
    Plain,
}

/// What a value is to operations on attributes.
pub(crate) fn holder_of(v: Value) -> Holder
    ensures { result ≡ holder_in v }
{
    match v {
        Value::Object(o) => Holder::Object(o),
        Value::Class(_) => Holder::Class,
        Value::Exc(_) => Holder::Class,
        Value::Text(_) => Holder::Text,
        Value::Tuple(_) => Holder::Tuple,
        Value::Builtin(number) => Holder::Builtin(number),
        _ => Holder::Plain,
    }
}

/// Whether a number is another.
pub(crate) fn is_number(number: u64, other: u64) -> bool
    ensures { result ≡ (number == other) }
{
    number == other
}

/// Whether a number is that of a module.
pub(crate) fn is_module(number: u64) -> bool
    ensures { result ≡ model_is_module number }
{
    21 < number && number < 25
}

/// Whether a name is `argv` of the module `sys`, by the number of a module.
pub(crate) fn is_argv(number: u64, name: &str) -> bool
    ensures { result ≡ ((number == sys_module) && bytes_eq name.now (codes "argv")) }
{
    number == 22 && name == "argv"
}
