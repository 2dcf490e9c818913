// The object that a method is called on.
ghost use Rattle.std.specs.Prelude.{◌≡◌};
ghost use Rattle.op_lists.specs.Operands.{object_first};

use py_value::Value;

/// The object that comes first.
pub fn first_object(operands: &[Value]) -> Option<u32>
    ensures { result ≡ object_first operands.now }
{
    match operands {
        [Value::Object(o), ..] => Some(*o),
        _ => None,
    }
}
