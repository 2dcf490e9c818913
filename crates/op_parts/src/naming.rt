// Whether what is given to an operation is named, and whether it asks.
ghost use Rattle.std.specs.Prelude.{◌≡◌, IsTrue};
ghost use Rattle.py_model.specs.Quiet.{may_ask};
ghost use Rattle.py_model.specs.Told.{IsNamedOp, names_text};
ghost use Rattle.py_value.specs.Values.{AreNamed};

use py_model::Op;
use py_value::{Value, Values};

// Whether the texts and tuples that the operation and its operands name have numbers.
pub(crate) fn has_names(values: &Values, op: Op, operands: &[Value]) -> bool
    ensures op { IsTrue result → IsNamedOp values.now op }
    ensures operands { IsTrue result → AreNamed values.now operands.now }
{
    if !values.has(op.value) {
        return false;
    }
    if names(op.no) && !values.has(Value::Text(op.name)) {
        return false;
    }
    are_named(values, operands)
}

// Whether the operation with this number names a text.
fn names(no: u8) -> bool
    ensures { result ≡ names_text no }
{
    no == 1 || (30 <= no && no <= 34) || (42 <= no && no <= 44)
}

// Whether the texts and tuples that the values name have numbers.
fn are_named(values: &Values, operands: &[Value]) -> bool
    ensures { IsTrue result → AreNamed values.now operands.now }
{
    for v in operands.iter() {
        if !values.has(*v) {
            return false;
        }
    }
    true
}

// Whether the operation with this number may ask a device or fetch a file.
pub(crate) fn asks(no: u8) -> bool
    ensures { result ≡ may_ask no }
{
    no == 55 || no == 62 || no == 109 || no == 110 || no == 111
}
