// Rows: an operation and its operands, and what it answers.
use crate::operator::{Came, Operator};
use crate::plain::plain_value;
use crate::spelling::write_value;
use crate::texts::{halves, spelled, write_text};
use prov_base::Memory;
use py_value::{Value, Values};
use std::alloc::{AllocError, Global};

/// The value of a word.
fn value<O: Operator>(alloc: Global, operator: &mut O, word: &str) -> Result<Value, Memory> {
    let Some(rest) = word.strip_prefix('\'') else {
        return Ok(plain_value(word, Value::None));
    };
    let bytes = spelled(alloc, rest.strip_suffix('\'').unwrap_or(rest))?;
    let number = operator.word(alloc, str::from_utf8(&bytes).unwrap_or("?"))?;
    Ok(Value::Text(number))
}

/// The operands behind the last bracket that is open become a tuple.
fn close<O: Operator>(
    alloc: Global,
    operator: &mut O,
    opened: &mut Vec<usize>,
    operands: &mut Vec<Value>,
) -> Result<(), Memory> {
    let from = opened.pop().unwrap_or(0);
    let v = operator.tuple(alloc, operands.get(from..).unwrap_or(&[]))?;
    operands.truncate(from);
    Ok(operands.push(v)?)
}

/// Takes what one word says of the operands.
fn take<O: Operator>(
    alloc: Global,
    operator: &mut O,
    word: &str,
    opened: &mut Vec<usize>,
    operands: &mut Vec<Value>,
) -> Result<(), Memory> {
    match word.as_bytes().first() {
        None => Ok(()),
        Some(b'(') => Ok(opened.push(operands.len())?),
        Some(b')') => close(alloc, operator, opened, operands),
        _ => {
            let v = value(alloc, operator, word)?;
            Ok(operands.push(v)?)
        }
    }
}

/// The operands of a row.
fn operands_of<O: Operator>(
    alloc: Global,
    operator: &mut O,
    words: &str,
) -> Result<Vec<Value>, Memory> {
    let mut operands = Vec::new(alloc);
    let mut opened = Vec::new(alloc);
    for word in words.split(' ') {
        take(alloc, operator, word, &mut opened, &mut operands)?;
    }
    Ok(operands)
}

/// Writes the text with this number.
fn write_words(values: &Values, text: u32, out: &mut Vec<u8>) -> Result<(), AllocError> {
    if values.has(Value::Text(text)) {
        return write_text(values.text_of(text), out);
    }
    Ok(())
}

/// Writes what came of an operation.
fn write_came(
    alloc: Global,
    values: &Values,
    came: Came,
    out: &mut Vec<u8>,
) -> Result<(), AllocError> {
    match came {
        Came::Gives(v) => write_value(alloc, " -> gives", values, v, out),
        Came::Raises(class, text) => {
            write_value(alloc, " -> raises", values, Value::Exc(class), out)?;
            write_words(values, text, out)
        }
        Came::NotAtomic => out.extend_from_slice(b" -> not atomic"),
    }
}

/// Writes a row, and what it answers.
pub(crate) fn answer<O: Operator>(
    alloc: Global,
    operator: &mut O,
    row: &[u8],
    out: &mut Vec<u8>,
) -> Result<(), Memory> {
    let row = str::from_utf8(row).unwrap_or("");
    if row.is_empty() || row.starts_with('#') {
        return Ok(());
    }
    let (no, words) = halves(row, ' ');
    let operands = operands_of(alloc, operator, words)?;
    let came = operator.perform(alloc, no.parse::<u8>().unwrap_or(255), &operands)?;
    out.extend_from_slice(row.as_bytes())?;
    write_came(alloc, operator.values(), came, out)?;
    Ok(out.push(b'\n')?)
}
