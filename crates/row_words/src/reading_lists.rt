// Lists of values, read.
ghost use Rattle.std.specs.Prelude.{◌≡◌};
ghost use Rattle.row_words.specs.Reading.{Gives, each_at, list_at, value_at};

use crate::fault::ReadFault;
use crate::reading_numbers::read_number;
use crate::reading_values::read_value;
use py_value::Value;
use std::alloc::Global;

// So many values at the front. No room is reserved by the count, which may be any number.
fn read_each(alloc: Global, count: u64, bytes: &[u8]) -> Result<(Vec<Value>, &[u8]), ReadFault>
    ensures { Gives (λ x. (x.0.items, x.1.now)) result (each_at value_at count bytes.now) }
{
    let mut values = Vec::new(alloc);
    let mut rest = bytes;
    for _ in 0..count {
        let (value, after) = read_value(rest)?;
        values.push(value)?;
        rest = after;
    }
    Ok((values, rest))
}

/// The list of values at the front.
#[tactic(auto, unfolding(crate::specs::Reading::list_at))]
pub fn read_values(alloc: Global, bytes: &[u8]) -> Result<(Vec<Value>, &[u8]), ReadFault>
    ensures { Gives (λ x. (x.0.items, x.1.now)) result (list_at value_at bytes.now) }
{
    let (count, rest) = read_number(bytes)?;
    read_each(alloc, count, rest)
}
