// A line: a word, a blank, what it says, and LF.
ghost use Rattle.std.specs.Prelude.{◌≡◌, ◌++◌, ◌∷◌, OnOk, IfOk};
ghost use Rattle.std.specs.Fmt.{decimal};
ghost use Rattle.std.specs.String.{string_bytes};
ghost use Rattle.trial_show.specs.Shown.{digits, line};

use prov_base::{Digest, Memory};
use std::alloc::{AllocError, Global};

/// Writes a line of a text.
pub(crate) fn push_line(out: &mut Vec<u8>, word: &str, text: &str) -> Result<(), Memory>
    ensures { OnOk result (out.new.items ≡ out.old.items ++ line word.now text.now) }
{
    out.extend_from_slice(word.as_bytes())?;
    out.push(b' ')?;
    out.extend_from_slice(text.as_bytes())?;
    out.push(b'\n')?;
    Ok(())
}

/// A number in decimal digits.
fn number_text(alloc: Global, number: u64) -> Result<String, AllocError>
    ensures { IfOk result (λ made. string_bytes made ≡ decimal number) }
{
    format!(in alloc; "{number}")
}

/// Writes a line of a number.
pub(crate) fn push_number(
    out: &mut Vec<u8>,
    alloc: Global,
    word: &str,
    number: u64,
) -> Result<(), Memory>
    ensures { OnOk result (out.new.items ≡ out.old.items ++ line word.now (decimal number)) }
{
    let text = number_text(alloc, number)?;
    push_line(out, word, text.as_str())
}

/// The digits of a digest.
pub(crate) fn digits_of(alloc: Global, digest: &Digest) -> Result<String, AllocError>
    ensures { IfOk result (λ made. string_bytes made ≡ digits digest.now) }
{
    hex::encode(alloc, digest.bytes)
}

/// Writes a line of a digest.
pub(crate) fn push_digest(
    out: &mut Vec<u8>,
    alloc: Global,
    word: &str,
    digest: &Digest,
) -> Result<(), Memory>
    ensures { OnOk result (out.new.items ≡ out.old.items ++ line word.now (digits digest.now)) }
{
    let text = digits_of(alloc, digest)?;
    push_line(out, word, text.as_str())
}

/// Two texts with a blank between them.
fn joined(alloc: Global, first: &str, second: &str) -> Result<String, AllocError>
    ensures { IfOk result (λ made. string_bytes made ≡ first.now ++ 32 ∷ second.now) }
{
    format!(in alloc; "{first} {second}")
}

/// Writes a line of a text and a digest.
pub(crate) fn push_with_digest(
    out: &mut Vec<u8>,
    alloc: Global,
    word: &str,
    text: &str,
    digest: &Digest,
) -> Result<(), Memory>
    ensures { OnOk result (out.new.items ≡ out.old.items ++ line word.now (text.now ++ 32 ∷ digits digest.now)) }
{
    let shown = digits_of(alloc, digest)?;
    let both = joined(alloc, text, shown.as_str())?;
    push_line(out, word, both.as_str())
}

/// Writes a line of a number and a digest.
pub(crate) fn push_number_with_digest(
    out: &mut Vec<u8>,
    alloc: Global,
    word: &str,
    number: u64,
    digest: &Digest,
) -> Result<(), Memory>
    ensures { OnOk result (out.new.items ≡ out.old.items ++ line word.now (decimal number ++ 32 ∷ digits digest.now)) }
{
    let text = number_text(alloc, number)?;
    push_with_digest(out, alloc, word, text.as_str(), digest)
}
