// The text of some characters of a text.
ghost use Rattle.std.specs.Prelude.{◌≡◌, IfOk, chars, string_bytes, encode_utf8_all};
ghost use Rattle.py_model.specs.Places.{part_from};

use prov_base::Memory;
use std::alloc::Global;

/// The text of so many characters of a text, from a place on.
pub(crate) fn letters_from(
    alloc: Global,
    text: &str,
    first: u64,
    count: u64,
) -> Result<String, Memory>
    ensures { IfOk result (λ made. string_bytes made ≡ encode_utf8_all (part_from first count (chars text.now))) }
{
    let mut made = String::new(alloc);
    let mut before = first;
    let mut left = count;
    for c in text.chars() {
        if before > 0 {
            before -= 1;
        } else if left > 0 {
            made.push(c)?;
            left -= 1;
        }
    }
    Ok(made)
}
