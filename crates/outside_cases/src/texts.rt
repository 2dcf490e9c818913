// Bytes as readable text: `\n`, `\r`, `\t`, `\0`, `\s` (a space) and `\xHH` stand for one byte each.
use std::alloc::{AllocError, Global};

/// A number of decimal digits, or 0.
pub fn number(word: &str) -> u64 {
    word.parse::<u64>().unwrap_or(0)
}

/// What stands ahead of the first `mark`, and what stands behind it. Without one, all of it and nothing.
pub fn halves<'a>(text: &'a str, mark: char) -> (&'a str, &'a str) {
    text.split_once(mark).unwrap_or((text, ""))
}

fn digit(byte: u8) -> u8 {
    match byte {
        b'0'..=b'9' => byte - b'0',
        b'a'..=b'f' => byte - b'a' + 10,
        _ => 0,
    }
}

fn named(byte: u8) -> u8 {
    match byte {
        b'n' => b'\n',
        b'r' => b'\r',
        b't' => b'\t',
        b's' => b' ',
        b'0' => 0,
        other => other,
    }
}

/// The bytes that a readable text stands for.
pub fn bytes_of(alloc: Global, text: &str) -> Result<Vec<u8>, AllocError> {
    let mut bytes = Vec::new(alloc);
    let mut rest = text.as_bytes();
    for _ in 0..text.len() {
        match rest {
            [b'\\', b'x', high, low, tail @ ..] => {
                bytes.push((digit(*high) & 15) << 4 | digit(*low) & 15)?;
                rest = tail;
            }
            [b'\\', name, tail @ ..] => {
                bytes.push(named(*name))?;
                rest = tail;
            }
            [byte, tail @ ..] => {
                bytes.push(*byte)?;
                rest = tail;
            }
            [] => return Ok(bytes),
        }
    }
    Ok(bytes)
}

const DIGITS: &[u8; 16] = b"0123456789abcdef";

fn write_byte(out: &mut Vec<u8>, byte: u8) -> Result<(), AllocError> {
    match byte {
        b'\n' => out.extend_from_slice(b"\\n")?,
        b'\r' => out.extend_from_slice(b"\\r")?,
        b'\t' => out.extend_from_slice(b"\\t")?,
        0 => out.extend_from_slice(b"\\0")?,
        b'\\' => out.extend_from_slice(b"\\\\")?,
        b' '..=b'~' => out.push(byte)?,
        _ => {
            out.extend_from_slice(b"\\x")?;
            out.push(DIGITS[(byte >> 4) as usize])?;
            out.push(DIGITS[(byte & 15) as usize])?;
        }
    }
    Ok(())
}

/// Writes bytes as readable text.
pub fn write_bytes(out: &mut Vec<u8>, bytes: &[u8]) -> Result<(), AllocError> {
    for byte in bytes {
        write_byte(out, *byte)?;
    }
    Ok(())
}

/// Writes bytes as readable text, each row that repeats once, with how often it stands in turn.
pub fn write_rows(alloc: Global, out: &mut Vec<u8>, bytes: &[u8]) -> Result<(), AllocError> {
    let mut last: &[u8] = &[];
    let mut times: u64 = 0;
    for row in bytes.split_inclusive(|byte| *byte == b'\n') {
        if row != last {
            write_times(alloc, out, last, times)?;
            last = row;
            times = 0;
        }
        times = times.saturating_add(1);
    }
    write_times(alloc, out, last, times)
}

fn write_times(alloc: Global, out: &mut Vec<u8>, row: &[u8], times: u64) -> Result<(), AllocError> {
    write_bytes(out, row)?;
    if times > 1 {
        out.extend_from_slice(format!(in alloc; "*{times} ")?.as_bytes())?;
    }
    Ok(())
}
