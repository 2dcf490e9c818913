// Cases of `prov_base`.
use crate::texts::{bytes_of, halves, number, write_bytes};
use prov_base::{Bytes, Name, Names, Pos, decimal};
use std::alloc::{AllocError, Global};

/// How many digits a number has, and a buffer of 20 dots that they were written into.
pub fn digits(alloc: Global, words: &str, out: &mut Vec<u8>) -> Result<(), AllocError> {
    let mut buffer = [b'.'; 20];
    let count = decimal(number(words), &mut buffer);
    out.extend_from_slice(format!(in alloc; "{count} ")?.as_bytes())?;
    out.extend_from_slice(&buffer)
}

/// The bytes that a `Bytes` gives back.
pub fn kept_bytes(alloc: Global, words: &str, out: &mut Vec<u8>) -> Result<(), AllocError> {
    let bytes = Bytes::of(bytes_of(alloc, words)?);
    write_bytes(out, bytes.as_slice())
}

/// The names that a `Names` gives back, each with a comma behind it.
pub fn kept_names(alloc: Global, words: &str, out: &mut Vec<u8>) -> Result<(), AllocError> {
    let mut list = Vec::new(alloc);
    for word in words.split('|') {
        list.push(Name::of(String::from_str(alloc, word)?))?;
    }
    for name in Names::of(list).as_slice() {
        out.extend_from_slice(name.as_str().as_bytes())?;
        out.push(b',')?;
    }
    Ok(())
}

fn place(word: &str) -> Pos {
    let (line, col) = halves(word, ':');
    Pos {
        line: line.parse::<u32>().unwrap_or(0),
        col: col.parse::<u32>().unwrap_or(0),
    }
}

/// The order of two places.
pub fn order(words: &str) -> &'static str {
    let (one, other) = halves(words, ' ');
    let (one, other) = (place(one), place(other));
    if one < other {
        "before"
    } else if one == other {
        "same"
    } else {
        "behind"
    }
}
