// The names of the functions and exception classes of the language.
ghost use Rattle.std.specs.Prelude.{◌≡◌};
ghost use Rattle.std.specs.Str.{bytes_eq};
ghost use Rattle.op_classes.specs.Names.{known_value};
ghost use Rattle.py_model.specs.Names.{builtin_names, class_names};
ghost use Rattle.py_value.specs.Seen.{number_by};

use py_value::Value;

// The number of a function of the language, by its name.
fn builtin_number(name: &str) -> Option<u64>
    ensures { result ≡ number_by (bytes_eq name.now) builtin_names }
{
    match name {
        "abs" => Some(0),
        "bool" => Some(1),
        "chr" => Some(2),
        "dict" => Some(3),
        "enumerate" => Some(4),
        "input" => Some(5),
        "int" => Some(6),
        "isinstance" => Some(7),
        "len" => Some(8),
        "list" => Some(9),
        "max" => Some(10),
        "min" => Some(11),
        "open" => Some(12),
        "ord" => Some(13),
        "print" => Some(14),
        "range" => Some(15),
        "repr" => Some(16),
        "sorted" => Some(17),
        "str" => Some(18),
        "sum" => Some(19),
        "tuple" => Some(20),
        "zip" => Some(21),
        _ => None,
    }
}

// The number of an exception class of the language, by its name.
fn class_number(name: &str) -> Option<u64>
    ensures { result ≡ number_by (bytes_eq name.now) class_names }
{
    match name {
        "Exception" => Some(0),
        "ArithmeticError" => Some(1),
        "ZeroDivisionError" => Some(2),
        "OverflowError" => Some(3),
        "LookupError" => Some(4),
        "IndexError" => Some(5),
        "KeyError" => Some(6),
        "NameError" => Some(7),
        "UnboundLocalError" => Some(8),
        "TypeError" => Some(9),
        "ValueError" => Some(10),
        "AttributeError" => Some(11),
        "RuntimeError" => Some(12),
        "NotImplementedError" => Some(13),
        "RecursionError" => Some(14),
        "OSError" => Some(15),
        "FileNotFoundError" => Some(16),
        "EOFError" => Some(17),
        "AssertionError" => Some(18),
        _ => None,
    }
}

/// What a name is in the language, where it is a function or an exception class of it.
pub fn known(name: &str) -> Option<Value>
    ensures { result ≡ known_value name.now }
{
    match builtin_number(name) {
        Some(number) => Some(Value::Builtin(number)),
        None => class_number(name).map(|number| Value::Exc(number)),
    }
}
