// A row: an operation, its operands, and the steps that are left.
use crate::plain::{number, plain_value};
use crate::texts::{halves, spelled};
use prov_base::{Memory, Pos};
use py_model::{Answer, Doer, Done, Op};
use py_value::Value;
use std::alloc::Global;

/// The place of every operation.
pub(crate) const PLACE: Pos = Pos { line: 1, col: 1 };

/// The operation that displays a tuple.
const TUPLE: Op = Op {
    no: 25,
    scope: 0,
    name: 0,
    value: Value::None,
};

/// What stands behind the mark that a word of a row begins with.
fn marked<'a>(words: &'a str, mark: char) -> Option<&'a str> {
    for word in words.split(' ') {
        if let Some(rest) = word.strip_prefix(mark) {
            return Some(rest);
        }
    }
    None
}

/// The number of the text that a word spells.
fn text<D: Doer>(alloc: Global, doing: &mut D, word: &str) -> Result<u32, Memory> {
    let bytes = spelled(alloc, word)?;
    doing.word(alloc, str::from_utf8(&bytes).unwrap_or("?"))
}

/// The value of a word.
fn value<D: Doer>(alloc: Global, doing: &mut D, word: &str, last: Value) -> Result<Value, Memory> {
    let Some(rest) = word.strip_prefix('\'') else {
        return Ok(plain_value(word, last));
    };
    let inner = rest.strip_suffix('\'').unwrap_or(rest);
    Ok(Value::Text(text(alloc, doing, inner)?))
}

/// The steps that are left.
pub(crate) fn left_of(words: &str) -> u32 {
    match marked(words, '@') {
        Some(word) => number(word),
        None => u32::MAX,
    }
}

/// The operation of a row. The first word is its number.
pub(crate) fn op_of<D: Doer>(
    alloc: Global,
    doing: &mut D,
    words: &str,
    last: Value,
) -> Result<Op, Memory> {
    let (no, _) = halves(words, ' ');
    let name = match marked(words, '.') {
        Some(word) => text(alloc, doing, word)?,
        None => 0,
    };
    let value = match marked(words, '=') {
        Some(word) => value(alloc, doing, word, last)?,
        None => Value::None,
    };
    Ok(Op {
        no: no.parse::<u8>().unwrap_or(255),
        scope: number(marked(words, '/').unwrap_or("")),
        name,
        value,
    })
}

/// The value that an operation answered.
fn answered(done: &Done) -> Option<Value> {
    match done {
        Done::Did(deed) => match deed.answer {
            Answer::Value(v) => Some(v),
            _ => None,
        },
        _ => None,
    }
}

/// The tuple of values, made by the operation that displays it.
fn tuple<D: Doer>(alloc: Global, doing: &mut D, items: &[Value]) -> Result<Value, Memory> {
    let done = doing.perform(alloc, PLACE, TUPLE, items, u32::MAX)?;
    answered(&done).ok_or(Memory)
}

/// The operands behind the last bracket that is open become a tuple.
fn close<D: Doer>(
    alloc: Global,
    doing: &mut D,
    opened: &mut Vec<usize>,
    operands: &mut Vec<Value>,
) -> Result<(), Memory> {
    let from = opened.pop().unwrap_or(0);
    let v = tuple(alloc, doing, operands.get(from..).unwrap_or(&[]))?;
    operands.truncate(from);
    Ok(operands.push(v)?)
}

/// Takes what one word says of the operands.
fn take<D: Doer>(
    alloc: Global,
    doing: &mut D,
    word: &str,
    last: Value,
    opened: &mut Vec<usize>,
    operands: &mut Vec<Value>,
) -> Result<(), Memory> {
    match word.as_bytes().first() {
        None | Some(b'@' | b'/' | b'.' | b'=') => Ok(()),
        Some(b'(') => Ok(opened.push(operands.len())?),
        Some(b')') => close(alloc, doing, opened, operands),
        _ => {
            let v = value(alloc, doing, word, last)?;
            Ok(operands.push(v)?)
        }
    }
}

/// The operands of a row.
pub(crate) fn operands_of<D: Doer>(
    alloc: Global,
    doing: &mut D,
    words: &str,
    last: Value,
) -> Result<Vec<Value>, Memory> {
    let mut operands = Vec::new(alloc);
    let mut opened = Vec::new(alloc);
    let (_, rest) = halves(words, ' ');
    for word in rest.split(' ') {
        take(alloc, doing, word, last, &mut opened, &mut operands)?;
    }
    Ok(operands)
}
