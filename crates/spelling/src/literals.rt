// Texts as literals.
ghost use Rattle.std.specs.Prelude.{◌≡◌, ◌<◌, ◌++◌, ◌/◌, ◌%◌, ◌∷◌, [], codes, OnOk, IfOk, string_bytes, encode_utf8};
ghost use Rattle.spelling.specs.Spelling.{quote_of, or_itself, letter_or_itself};
ghost use Rattle.py_model.specs.Printing.{hex_digit, spelled, spelled_all, holds as text_holds, literal as literal_text};

use std::alloc::{AllocError, Global};

// A control character by its number.
fn control(byte: u8) -> &'static str
    requires { byte < 32 }
    ensures { result.now ≡ codes "\\x" ++ hex_digit (byte / 16) ∷ hex_digit (byte % 16) ∷ [] }
{
    match byte {
        0 => "\\x00",
        1 => "\\x01",
        2 => "\\x02",
        3 => "\\x03",
        4 => "\\x04",
        5 => "\\x05",
        6 => "\\x06",
        7 => "\\x07",
        8 => "\\x08",
        9 => "\\x09",
        10 => "\\x0a",
        11 => "\\x0b",
        12 => "\\x0c",
        13 => "\\x0d",
        14 => "\\x0e",
        15 => "\\x0f",
        16 => "\\x10",
        17 => "\\x11",
        18 => "\\x12",
        19 => "\\x13",
        20 => "\\x14",
        21 => "\\x15",
        22 => "\\x16",
        23 => "\\x17",
        24 => "\\x18",
        25 => "\\x19",
        26 => "\\x1a",
        27 => "\\x1b",
        28 => "\\x1c",
        29 => "\\x1d",
        30 => "\\x1e",
        31 => "\\x1f",
        _ => "?",
    }
}

// How a byte is spelled in a quote, where not by itself.
fn escape(double: bool, byte: u8) -> Option<&'static str>
    ensures { or_itself result byte ≡ spelled (quote_of double) byte }
{
    if byte == 92 {
        Some("\\\\")
    } else if double && byte == 34 {
        Some("\\\"")
    } else if !double && byte == 39 {
        Some("\\'")
    } else if byte == 10 {
        Some("\\n")
    } else if byte == 13 {
        Some("\\r")
    } else if byte == 9 {
        Some("\\t")
    } else if byte < 32 {
        Some(control(byte))
    } else if byte == 127 {
        Some("\\x7f")
    } else {
        None
    }
}

// How a character is spelled in a quote, where not by itself.
fn letter_escape(double: bool, c: char) -> Option<&'static str>
    ensures { letter_or_itself result c ≡ spelled_all (quote_of double) (encode_utf8 c) }
{
    let code = c as u32;
    if code < 128 {
        escape(double, code as u8)
    } else {
        None
    }
}

// A character of a literal, behind the text.
fn push_letter(out: &mut String, double: bool, c: char) -> Result<(), AllocError>
    ensures { OnOk result (string_bytes out.new ≡ string_bytes out.old ++ spelled_all (quote_of double) (encode_utf8 c)) }
{
    match letter_escape(double, c) {
        Some(spelling) => out.push_str(spelling),
        None => out.push(c),
    }
}

// The characters of a literal, behind the text.
fn push_letters(out: &mut String, double: bool, text: &str) -> Result<(), AllocError>
    ensures { OnOk result (string_bytes out.new ≡ string_bytes out.old ++ spelled_all (quote_of double) text.now) }
{
    for c in text.chars() {
        push_letter(out, double, c)?;
    }
    Ok(())
}

// Whether a byte is among others.
fn holds(byte: u8, bytes: &[u8]) -> bool
    ensures { result ≡ text_holds byte bytes.now }
{
    for one in bytes {
        if byte == *one {
            return true;
        }
    }
    false
}

// Whether a literal stands in `"`.
fn is_double(bytes: &[u8]) -> bool
    ensures { literal_text bytes.now ≡ quote_of result ∷ (spelled_all (quote_of result) bytes.now ++ quote_of result ∷ []) }
{
    holds(39, bytes) && !holds(34, bytes)
}

// A quote.
fn quote(double: bool) -> &'static str
    ensures { result.now ≡ quote_of double ∷ [] }
{
    if double { "\"" } else { "'" }
}

/// A text as a literal: in `"` where it holds `'` and no `"`, else in `'`.
pub fn literal(alloc: Global, text: &str) -> Result<String, AllocError>
    ensures { IfOk result (λ made. string_bytes made ≡ literal_text text.now) }
{
    let double = is_double(text.as_bytes());
    let mut made = String::from_str(alloc, quote(double))?;
    push_letters(&mut made, double, text)?;
    made.push_str(quote(double))?;
    Ok(made)
}
