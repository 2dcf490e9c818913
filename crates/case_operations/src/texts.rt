// Texts as rows have them, with escapes.
use std::alloc::{AllocError, Global};

/// What stands ahead of the first `mark`, and what stands behind it. Without one, all of it and nothing.
pub fn halves(text: &str, mark: char) -> (&str, &str) {
    text.split_once(mark).unwrap_or((text, ""))
}

/// The value of a hexadecimal digit, or 0.
fn digit(byte: u8) -> u8 {
    match byte {
        b'0'..=b'9' => byte.saturating_sub(b'0'),
        b'a'..=b'f' => byte.saturating_sub(b'a').saturating_add(10),
        _ => 0,
    }
}

/// The bytes that a piece behind a backslash begins with, and where the rest of it begins.
fn escaped(piece: &[u8]) -> (u8, usize) {
    match piece {
        [b'n', ..] => (b'\n', 1),
        [b't', ..] => (b'\t', 1),
        [b's', ..] => (b' ', 1),
        [b'x', high, low, ..] => (
            digit(*high).saturating_mul(16).saturating_add(digit(*low)),
            3,
        ),
        _ => (b'\\', 1),
    }
}

/// Adds the bytes that a text with escapes spells.
pub fn add_spelled(text: &str, out: &mut Vec<u8>) -> Result<(), AllocError> {
    let bytes = text.as_bytes();
    let mut skipped = 0;
    for (i, byte) in bytes.iter().enumerate() {
        if skipped > 0 {
            skipped -= 1;
        } else if *byte == b'\\' {
            let (spelled, length) = escaped(bytes.get(i.saturating_add(1)..).unwrap_or(&[]));
            out.push(spelled)?;
            skipped = length;
        } else {
            out.push(*byte)?;
        }
    }
    Ok(())
}

/// The bytes that a text with escapes spells.
pub fn spelled(alloc: Global, text: &str) -> Result<Vec<u8>, AllocError> {
    let mut bytes = Vec::new(alloc);
    add_spelled(text, &mut bytes)?;
    Ok(bytes)
}

/// Writes a text with escapes.
fn spell(text: &str, out: &mut Vec<u8>) -> Result<(), AllocError> {
    for byte in text.as_bytes() {
        match *byte {
            b'\n' => out.extend_from_slice(b"\\n")?,
            b'\t' => out.extend_from_slice(b"\\t")?,
            b' ' => out.extend_from_slice(b"\\s")?,
            b'\\' => out.extend_from_slice(b"\\\\")?,
            other => out.push(other)?,
        }
    }
    Ok(())
}

/// Writes a text between quotes, with escapes, behind a blank.
pub fn write_text(text: &str, out: &mut Vec<u8>) -> Result<(), AllocError> {
    out.extend_from_slice(b" '")?;
    spell(text, out)?;
    out.extend_from_slice(b"'")
}
