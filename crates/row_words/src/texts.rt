// Texts, both ways.
ghost use Rattle.std.specs.Prelude.{◌≡◌, ◌++◌, OnOk, if◌then◌else◌, Some, None};
ghost use Rattle.std.specs.Str.{is_utf8};
ghost use Rattle.row_words.specs.Bytes.{text_bytes};
ghost use Rattle.row_words.specs.Reading.{Gives, front_at, text_at};

use crate::fault::ReadFault;
use crate::reading_numbers::read_number;
use crate::writing::write_number;
use prov_base::{Memory, Name};
use std::alloc::Global;
use std::str;

/// A length and that many bytes at the front.
#[tactic(auto, unfolding(crate::specs::Reading::front_at))]
pub fn read_front(bytes: &[u8]) -> Result<(&[u8], &[u8]), ReadFault>
    ensures { Gives (λ x. (x.0.now, x.1.now)) result (front_at bytes.now) }
{
    let (count, rest) = read_number(bytes)?;
    let count = count as usize;
    if rest.len() < count {
        return Err(ReadFault::Bad);
    }
    Ok(rest.split_at(count))
}

// The text that the bytes are.
fn text_of(alloc: Global, bytes: &[u8]) -> Result<Name, ReadFault>
    ensures { Gives (λ x. x) result (if is_utf8 bytes.now then Some bytes.now else None) }
{
    match str::from_utf8(bytes) {
        Ok(text) => {
            let made = String::from_str(alloc, text)?;
            Ok(Name::of(made))
        }
        Err(_) => Err(ReadFault::Bad),
    }
}

/// The text at the front.
#[tactic(auto, unfolding(crate::specs::Reading::text_at))]
pub fn read_text(alloc: Global, bytes: &[u8]) -> Result<(Name, &[u8]), ReadFault>
    ensures { Gives (λ x. (x.0, x.1.now)) result (text_at bytes.now) }
{
    let (text, rest) = read_front(bytes)?;
    let made = text_of(alloc, text)?;
    Ok((made, rest))
}

/// Writes a text.
#[tactic(auto, using(std::proofs::Common::append_assoc))]
pub fn write_text(out: &mut Vec<u8>, text: &str) -> Result<(), Memory>
    ensures { OnOk result (out.new.items ≡ out.old.items ++ text_bytes text.now) }
{
    write_number(out, text.len() as u64)?;
    out.extend_from_slice(text.as_bytes())?;
    Ok(())
}
