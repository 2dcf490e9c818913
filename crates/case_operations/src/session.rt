// Rows that are answered, one after the other.
use crate::rows::{PLACE, left_of, op_of, operands_of};
use crate::spelling::write_done;
use crate::texts::halves;
use prov_base::{Bytes, Memory};
use prov_outside::{Console, Trouble};
use py_model::{Answer, Doer, Done, Op};
use py_value::Value;
use std::alloc::Global;

/// Keeps the value that was answered.
fn note(done: &Done, last: &mut Value) {
    if let Done::Did(deed) = done {
        *last = match deed.answer {
            Answer::Value(v) => v,
            Answer::Raised(o) => Value::Object(o),
            Answer::End => Value::None,
        };
    }
}

/// Performs an operation so many times.
fn again<D: Doer>(
    alloc: Global,
    doing: &mut D,
    op: Op,
    operands: &[Value],
    left: u32,
    times: u32,
) -> Result<(), Memory> {
    for _ in 0..times {
        let _ = doing.perform(alloc, PLACE, op, operands, left)?;
    }
    Ok(())
}

/// Performs an operation, and writes how it came out.
fn once<D: Doer>(
    alloc: Global,
    doing: &mut D,
    op: Op,
    operands: &[Value],
    left: u32,
    whole: bool,
    last: &mut Value,
    out: &mut Vec<u8>,
) -> Result<(), Memory> {
    let done = doing.perform(alloc, PLACE, op, operands, left)?;
    note(&done, last);
    Ok(write_done(alloc, doing.values(), &done, whole, out)?)
}

/// Performs the operation of a row once more than so many times, and writes how the last one came out.
fn operate<D: Doer>(
    alloc: Global,
    doing: &mut D,
    words: &str,
    times: u32,
    last: &mut Value,
    out: &mut Vec<u8>,
) -> Result<(), Memory> {
    let op = op_of(alloc, doing, words, *last)?;
    let operands = operands_of(alloc, doing, words, *last)?;
    let left = left_of(words);
    again(alloc, doing, op, &operands, left, times)?;
    once(alloc, doing, op, &operands, left, times == 0, last, out)
}

/// Writes a row, and what it answers.
fn answer<D: Doer>(
    alloc: Global,
    doing: &mut D,
    row: &[u8],
    last: &mut Value,
    out: &mut Vec<u8>,
) -> Result<(), Memory> {
    let row = str::from_utf8(row).unwrap_or("");
    if row.is_empty() || row.starts_with('#') {
        return Ok(());
    }
    out.extend_from_slice(row.as_bytes())?;
    let (command, words) = halves(row, ' ');
    if command == "repeat" {
        let (times, words) = halves(words, ' ');
        let more = times.parse::<u32>().unwrap_or(0).saturating_sub(1);
        operate(alloc, doing, words, more, last, out)?;
    } else {
        operate(alloc, doing, row, 0, last, out)?;
    }
    Ok(out.push(b'\n')?)
}

/// Answers rows until one that begins anew, which it gives back; none at the end of the input.
fn answer_rows<C: Console, D: Doer>(
    alloc: Global,
    console: &mut C,
    doing: &mut D,
) -> Result<Option<Bytes>, Trouble> {
    let mut last = Value::None;
    for _ in 0..u64::MAX {
        let Some(row) = console.read_line(alloc)? else {
            return Ok(None);
        };
        if row.as_slice().starts_with(b"start") || row.as_slice().starts_with(b"end") {
            return Ok(Some(row));
        }
        let mut out = Vec::new(alloc);
        if answer(alloc, doing, row.as_slice(), &mut last, &mut out).is_err() {
            return Err(Trouble::Memory);
        }
        console.write(alloc, &out)?;
    }
    Ok(None)
}

/// Answers rows with a doer that is handed on, and gives it back with the row that begins anew.
pub fn answer_rows_with<C: Console, D: Doer>(
    alloc: Global,
    console: &mut C,
    mut doing: D,
) -> (D, Result<Option<Bytes>, Trouble>) {
    let next = answer_rows(alloc, console, &mut doing);
    (doing, next)
}
