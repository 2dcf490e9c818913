// Words of a row as numbers, places, lists and devices.
use prov_base::{Bytes, Name, Pos};
use std::alloc::{AllocError, Global};

/// What stands ahead of the first `mark`, and what stands behind it. Without one, all of it and nothing.
pub fn halves(text: &str, mark: char) -> (&str, &str) {
    text.split_once(mark).unwrap_or((text, ""))
}

/// A number of decimal digits, or 0.
pub fn number(word: &str) -> u32 {
    word.parse::<u32>().unwrap_or(0)
}

/// A place as `LINE:COL`.
pub fn place(word: &str) -> Pos {
    let (line, col) = halves(word, ':');
    Pos {
        line: number(line),
        col: number(col),
    }
}

/// The numbers of a list.
pub fn numbers(alloc: Global, words: &str) -> Result<Vec<u64>, AllocError> {
    let mut list = Vec::new(alloc);
    if !words.is_empty() {
        for word in words.split('/') {
            list.push(word.parse::<u64>().unwrap_or(0))?;
        }
    }
    Ok(list)
}

/// The signed numbers of a list.
pub fn times(alloc: Global, words: &str) -> Result<Vec<i64>, AllocError> {
    let mut list = Vec::new(alloc);
    if !words.is_empty() {
        for word in words.split('/') {
            list.push(word.parse::<i64>().unwrap_or(0))?;
        }
    }
    Ok(list)
}

/// The lines of a list, each with its LF.
pub fn lines(alloc: Global, words: &str) -> Result<Bytes, AllocError> {
    let mut bytes = Vec::new(alloc);
    if !words.is_empty() {
        for word in words.split('/') {
            bytes.extend_from_slice(word.as_bytes())?;
            bytes.push(b'\n')?;
        }
    }
    Ok(Bytes::of(bytes))
}

/// The files of a list, each as `PATH=TEXT`.
pub fn files(alloc: Global, words: &str) -> Result<Vec<(Name, Bytes)>, AllocError> {
    let mut list = Vec::new(alloc);
    if !words.is_empty() {
        for word in words.split('/') {
            list.push(file(alloc, word)?)?;
        }
    }
    Ok(list)
}

fn file(alloc: Global, word: &str) -> Result<(Name, Bytes), AllocError> {
    let (path, text) = halves(word, '=');
    let name = Name::of(String::from_str(alloc, path)?);
    Ok((name, Bytes::of(Vec::from_slice(alloc, text.as_bytes())?)))
}
