// Texts as rows show them: `\n`, `\r`, `\t`, `\0`, `\s` (a blank) and `\xHH` stand for one byte each.
use std::alloc::{AllocError, Global};

/// A number of decimal digits, or 0.
pub fn number(word: &str) -> u32 {
    word.parse::<u32>().unwrap_or(0)
}

fn digit(byte: u8) -> u8 {
    match byte {
        b'0'..=b'9' => byte - b'0',
        b'a'..=b'f' => byte - b'a' + 10,
        _ => 0,
    }
}

fn named(byte: u8) -> u8 {
    match byte {
        b'n' => b'\n',
        b'r' => b'\r',
        b't' => b'\t',
        b's' => b' ',
        b'0' => 0,
        other => other,
    }
}

/// The bytes that a shown text stands for.
pub fn bytes_of(alloc: Global, text: &str) -> Result<Vec<u8>, AllocError> {
    let mut bytes = Vec::new(alloc);
    let mut rest = text.as_bytes();
    for _ in 0..text.len() {
        match rest {
            [b'\\', b'x', high, low, tail @ ..] => {
                bytes.push((digit(*high) & 15) << 4 | digit(*low) & 15)?;
                rest = tail;
            }
            [b'\\', name, tail @ ..] => {
                bytes.push(named(*name))?;
                rest = tail;
            }
            [byte, tail @ ..] => {
                bytes.push(*byte)?;
                rest = tail;
            }
            [] => return Ok(bytes),
        }
    }
    Ok(bytes)
}

/// Writes a text as rows show it.
pub fn show_text(out: &mut String, text: &str) -> Result<(), AllocError> {
    for c in text.chars() {
        match c {
            '\n' => out.push_str("\\n")?,
            '\r' => out.push_str("\\r")?,
            '\t' => out.push_str("\\t")?,
            '\\' => out.push_str("\\\\")?,
            other => out.push(other)?,
        }
    }
    Ok(())
}
