// The value of a text literal.
ghost use Rattle.std.specs.Prelude.{◌≡◌, ◌++◌, false, IfOk, IfErr};
ghost use Rattle.py_lines.specs.declared.fault.LineFault.TheVariants.{Memory};
ghost use Rattle.std.specs.Str.{IsUtf8};
ghost use Rattle.py_lines.specs.Literal as spec;

use crate::bytes::escape_value;
use crate::fault::LineFault;
use crate::mode::Quote;
use prov_base::Name;
use std::alloc::{AllocError, Global};

/// What stands between the quotes of a literal.
fn inside_of(quote: Quote, piece: &[u8]) -> &[u8]
    ensures { result.now ≡ spec.inside_of quote piece.now }
{
    let width = if quote.triple { 3 } else { 1 };
    if piece.len() < 2 * width {
        return piece;
    }
    &piece[width..piece.len() - width]
}

/// Adds what one more byte of a literal stands for, and answers whether the next byte stands behind a backslash. The
/// CR of a line end stands for nothing.
fn put_byte(value: &mut Vec<u8>, escaping: bool, byte: u8) -> Result<bool, AllocError>
    ensures { IfOk result (λ then. (then ≡ spec.escapes_next escaping byte) × (value.new.items ≡ value.old.items ++ spec.byte_value escaping byte)) }
{
    if escaping {
        value.push(escape_value(byte))?;
        return Ok(false);
    }
    if byte == b'\\' {
        return Ok(true);
    }
    if byte != b'\r' {
        value.push(byte)?;
    }
    Ok(false)
}

/// The bytes that a literal stands for.
fn value_of(alloc: Global, inside: &[u8]) -> Result<Vec<u8>, AllocError>
    ensures { IfOk result (λ value. value.items ≡ spec.value_of false inside.now) }
{
    let mut value = Vec::new(alloc);
    let mut escaping = false;
    for byte in inside {
        escaping = put_byte(&mut value, escaping, *byte)?;
    }
    Ok(value)
}

/// The bytes as a text.
pub fn text_of(bytes: Vec<u8>) -> Name
    requires { IsUtf8 bytes.items }
    ensures { result ≡ bytes.items }
{
    match String::from_utf8(bytes) {
        Ok(text) => Name::of(text),
        Err(_) => unreachable!(),
    }
}

/// The value of a literal that is written with these quotes.
pub fn literal_value(alloc: Global, quote: Quote, piece: &[u8]) -> Result<Name, LineFault>
    requires { IsUtf8 (spec.value_of false (spec.inside_of quote piece.now)) }
    ensures value { IfOk result (λ name. name ≡ spec.value_of false (spec.inside_of quote piece.now)) }
    ensures memory { IfErr result (λ fault. fault ≡ Memory) }
{
    let value = value_of(alloc, inside_of(quote, piece))?;
    Ok(text_of(value))
}
