// Words of a row as numbers, bytes and halves.
use std::alloc::{AllocError, Global};

/// What stands ahead of the first `mark`, and what stands behind it. Without one, all of it and nothing.
pub fn halves(text: &str, mark: char) -> (&str, &str) {
    text.split_once(mark).unwrap_or((text, ""))
}

/// The value of a hexadecimal digit, or 0.
fn digit(byte: u8) -> u8 {
    match byte {
        b'0'..=b'9' => byte.saturating_sub(b'0'),
        b'a'..=b'f' => byte.saturating_sub(b'a').saturating_add(10),
        _ => 0,
    }
}

/// Adds the bytes that hexadecimal digits spell, two a byte.
pub fn add_bytes(digits: &str, out: &mut Vec<u8>) -> Result<(), AllocError> {
    for pair in digits.as_bytes().chunks_exact(2) {
        if let [high, low] = pair {
            out.push(digit(*high).saturating_mul(16).saturating_add(digit(*low)))?;
        }
    }
    Ok(())
}

/// The bytes that hexadecimal digits spell.
pub fn bytes_of(alloc: Global, digits: &str) -> Result<Vec<u8>, AllocError> {
    let mut bytes = Vec::new(alloc);
    add_bytes(digits, &mut bytes)?;
    Ok(bytes)
}
