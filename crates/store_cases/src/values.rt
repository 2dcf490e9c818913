// Cases of `py_value`: texts, tuples and keys by their numbers.
use crate::Stop;
use crate::names::Names;
use crate::rows::{parse_value, write_value};
use prov_base::Memory;
use py_value::{KeyFault, Value};
use std::alloc::{AllocError, Global};

fn write_number(alloc: Global, number: u32, out: &mut Vec<u8>) -> Result<(), AllocError> {
    out.extend_from_slice(format!(in alloc; "{number}")?.as_bytes())
}

fn write_fault(alloc: Global, fault: KeyFault, out: &mut Vec<u8>) -> Result<(), AllocError> {
    if let KeyFault::NoKey(object) = fault {
        out.extend_from_slice(format!(in alloc; "o{object}: ")?.as_bytes())?;
    }
    out.extend_from_slice(format!(in alloc; "{fault}")?.as_bytes())
}

/// The values that a row names, with commas between them.
fn values_of(alloc: Global, words: &str) -> Result<Vec<Value>, AllocError> {
    let mut values = Vec::new(alloc);
    for word in words.split(',') {
        if let Some(value) = parse_value(word) {
            values.push(value)?;
        }
    }
    Ok(values)
}

fn write_values(alloc: Global, items: &[Value], out: &mut Vec<u8>) -> Result<(), AllocError> {
    for item in items {
        write_value(alloc, *item, out)?;
        out.push(b',')?;
    }
    Ok(())
}

fn write_tuple(
    alloc: Global,
    names: &mut Names,
    words: &str,
    out: &mut Vec<u8>,
) -> Result<(), Stop> {
    let items = values_of(alloc, words)?;
    match names.tuple(alloc, &items)? {
        Some(number) => write_number(alloc, number, out)?,
        None => out.extend_from_slice(b"a number that was not given")?,
    }
    Ok(())
}

fn write_key(
    alloc: Global,
    names: &mut Names,
    value: Value,
    out: &mut Vec<u8>,
) -> Result<(), AllocError> {
    match names.key(alloc, value) {
        Some(Ok(key)) => write_value(alloc, key, out),
        Some(Err(fault)) => write_fault(alloc, fault, out),
        None => out.extend_from_slice(b"a number that was not given"),
    }
}

fn write_nest(
    alloc: Global,
    names: &mut Names,
    words: &str,
    out: &mut Vec<u8>,
) -> Result<(), Stop> {
    let (word, levels) = words.split_once(' ').unwrap_or((words, ""));
    let inner = parse_value(word).unwrap_or(Value::None);
    let Some(value) = names.nest(alloc, inner, levels.parse::<u32>().unwrap_or(0))? else {
        return Ok(());
    };
    write_value(alloc, value, out)?;
    out.extend_from_slice(b" key ")?;
    write_key(alloc, names, value, out)?;
    Ok(())
}

/// Whether so many texts are numbered in their order, behind so many others.
fn are_numbered(alloc: Global, names: &mut Names, count: u32) -> Result<bool, Memory> {
    for number in 0..count {
        let word = format!(in alloc; "word {number}")?;
        if names.text(alloc, word.as_str())? != number {
            return Ok(false);
        }
    }
    Ok(true)
}

fn write_number_of_text(
    alloc: Global,
    names: &mut Names,
    words: &str,
    out: &mut Vec<u8>,
) -> Result<(), Stop> {
    let number = names.text(alloc, words)?;
    write_number(alloc, number, out)?;
    Ok(())
}

/// Writes what is known of a number that was given.
fn write_known(
    alloc: Global,
    names: &mut Names,
    command: &str,
    words: &str,
    out: &mut Vec<u8>,
) -> Result<(), AllocError> {
    let number = words.parse::<u32>().unwrap_or(0);
    match command {
        "text_of" => out.extend_from_slice(names.text_of(number).unwrap_or("not given").as_bytes()),
        "tuple_of" => write_values(alloc, names.tuple_of(number).unwrap_or(&[]), out),
        _ => write_key(alloc, names, parse_value(words).unwrap_or(Value::None), out),
    }
}

fn write_order(
    alloc: Global,
    names: &mut Names,
    words: &str,
    out: &mut Vec<u8>,
) -> Result<(), Stop> {
    let are_in_order = are_numbered(alloc, names, words.parse::<u32>().unwrap_or(0))?;
    out.extend_from_slice(if are_in_order {
        b"in order"
    } else {
        b"another"
    })?;
    Ok(())
}

fn begin_anew(alloc: Global, names: &mut Names) -> Result<(), Stop> {
    *names = Names::new(alloc)?;
    Ok(())
}

fn write_row(
    alloc: Global,
    names: &mut Names,
    command: &str,
    words: &str,
    out: &mut Vec<u8>,
) -> Result<(), Stop> {
    match command {
        "text" => write_number_of_text(alloc, names, words, out),
        "tuple" => write_tuple(alloc, names, words, out),
        "nest" => write_nest(alloc, names, words, out),
        "words" => write_order(alloc, names, words, out),
        "text_of" | "tuple_of" | "key" => Ok(write_known(alloc, names, command, words, out)?),
        _ => begin_anew(alloc, names),
    }
}

fn answer_row(alloc: Global, names: &mut Names, row: &str, out: &mut Vec<u8>) -> Result<(), Stop> {
    out.extend_from_slice(row.as_bytes())?;
    out.extend_from_slice(b" -> ")?;
    let (command, words) = row.split_once(' ').unwrap_or((row, ""));
    write_row(alloc, names, command, words, out)?;
    out.push(b'\n')?;
    Ok(())
}

/// The answers to the rows of a section.
pub fn answer(alloc: Global, rows: &str, out: &mut Vec<u8>) -> Result<(), Stop> {
    let mut names = Names::new(alloc)?;
    for row in rows.lines() {
        answer_row(alloc, &mut names, row, out)?;
    }
    Ok(())
}
