// Which device an operation asks first.
ghost use Rattle.std.specs.Prelude.{◌≡◌};
ghost use Rattle.op_devices.specs.Draws.{word_for as word_for_many, randint_asked as randint_asked_by, randrange_asked as randrange_asked_by};
ghost use Rattle.op_devices.specs.Given.{asks, line_asked as line_asked_by, time_asked as time_asked_by};

use crate::numbers::{below, between};
use capture::Ask;
use py_value::{Value, number_of};

/// Which device the operation with a number asks first, by its operands.
pub fn asking(no: u8, operands: &[Value]) -> Option<Ask>
    ensures { result ≡ asks no operands.now }
{
    if no == 55 {
        line_asked(operands)
    } else if no == 109 {
        time_asked(operands)
    } else if no == 110 {
        randint_asked(operands)
    } else if no == 111 {
        randrange_asked(operands)
    } else {
        None
    }
}

fn line_asked(operands: &[Value]) -> Option<Ask>
    ensures { result ≡ line_asked_by operands.now }
{
    match operands {
        [] => Some(Ask::Line),
        [Value::Text(_)] => Some(Ask::Line),
        _ => None,
    }
}

fn time_asked(operands: &[Value]) -> Option<Ask>
    ensures { result ≡ time_asked_by operands.now }
{
    match operands {
        [_] => Some(Ask::Time),
        _ => None,
    }
}

// A word is asked for where there is something to draw from.
fn word_for(many: Option<u128>) -> Option<Ask>
    ensures { result ≡ word_for_many many }
{
    match many {
        Some(_) => Some(Ask::Word),
        None => None,
    }
}

fn randint_asked(operands: &[Value]) -> Option<Ask>
    ensures { result ≡ randint_asked_by operands.now }
{
    match operands {
        [_, low, high] => word_for(between(number_of(*low)?, number_of(*high)?)),
        _ => None,
    }
}

fn randrange_asked(operands: &[Value]) -> Option<Ask>
    ensures { result ≡ randrange_asked_by operands.now }
{
    match operands {
        [_, bound] => word_for(below(number_of(*bound)?)),
        _ => None,
    }
}
