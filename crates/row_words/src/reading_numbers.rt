// Numbers, places and texts, read.
ghost use Rattle.std.specs.Prelude.{◌≡◌};
ghost use Rattle.row_words.specs.Reading.{Gives, number_in, number_at, short_at, signed_at, place_at, byte_at, unzigzag as unzigzag_of};

use crate::fault::ReadFault;
use prov_base::Pos;

// A number of `more` bytes at most, and one more.
#[tactic(auto, unfolding(crate::specs::Reading::number_in))]
fn number_within(more: u8, bytes: &[u8]) -> Result<(u64, &[u8]), ReadFault>
    ensures { Gives (λ x. (x.0, x.1.now)) result (number_in more bytes.now) }
{
    let [b, rest @ ..] = bytes else {
        return Err(ReadFault::Bad);
    };
    let b = u64::from(*b);
    if b < 128 {
        return Ok((b, rest));
    }
    if more == 0 {
        return Err(ReadFault::Bad);
    }
    let (high, rest) = number_within(more - 1, rest)?;
    if high == 0 {
        return Err(ReadFault::Bad);
    }
    if high >= 1 << 57 {
        return Err(ReadFault::Bad);
    }
    Ok((high * 128 + (b - 128), rest))
}

/// The number at the front.
#[tactic(auto, unfolding(crate::specs::Reading::number_at))]
pub fn read_number(bytes: &[u8]) -> Result<(u64, &[u8]), ReadFault>
    ensures { Gives (λ x. (x.0, x.1.now)) result (number_at bytes.now) }
{
    number_within(9, bytes)
}

/// The number below 2 to the 32nd at the front.
#[tactic(auto, unfolding(crate::specs::Reading::short_at))]
pub fn read_short(bytes: &[u8]) -> Result<(u32, &[u8]), ReadFault>
    ensures { Gives (λ x. (x.0, x.1.now)) result (short_at bytes.now) }
{
    let (n, rest) = read_number(bytes)?;
    if n >= 1 << 32 {
        return Err(ReadFault::Bad);
    }
    Ok((n as u32, rest))
}

// The signed number that a zigzag number is.
fn unzigzag(n: u64) -> i64
    ensures { result ≡ unzigzag_of n }
{
    let half = (n / 2) as i64;
    if n % 2 == 0 { half } else { -1 - half }
}

/// The signed number at the front.
#[tactic(auto, unfolding(crate::specs::Reading::signed_at))]
pub fn read_signed(bytes: &[u8]) -> Result<(i64, &[u8]), ReadFault>
    ensures { Gives (λ x. (x.0, x.1.now)) result (signed_at bytes.now) }
{
    let (n, rest) = read_number(bytes)?;
    Ok((unzigzag(n), rest))
}

/// The place at the front.
#[tactic(auto, unfolding(crate::specs::Reading::place_at))]
pub fn read_place(bytes: &[u8]) -> Result<(Pos, &[u8]), ReadFault>
    ensures { Gives (λ x. (x.0, x.1.now)) result (place_at bytes.now) }
{
    let (line, rest) = read_short(bytes)?;
    let (col, rest) = read_short(rest)?;
    Ok((Pos { line, col }, rest))
}

/// The byte at the front.
#[tactic(auto, unfolding(crate::specs::Reading::byte_at))]
pub fn read_byte(bytes: &[u8]) -> Result<(u8, &[u8]), ReadFault>
    ensures { Gives (λ x. (x.0, x.1.now)) result (byte_at bytes.now) }
{
    let [b, rest @ ..] = bytes else {
        return Err(ReadFault::Bad);
    };
    Ok((*b, rest))
}
