// Devices in memory, and the arguments of the script, as the words of a row have them.
use crate::texts::{add_spelled, halves, spelled};
use answer_source::Devices;
use prov_base::{Bytes, Name};
use prov_outside::{MemoryClockAndRandom, MemoryConsole, MemoryFolder};
use std::alloc::{AllocError, Global};

/// The bytes of a file that is too large.
const TOO_MANY_BYTES: usize = 16_777_217;

/// The devices of a row.
pub(crate) type RowDevices = Devices<MemoryConsole, MemoryFolder, MemoryClockAndRandom>;

fn name_of(alloc: Global, word: &str) -> Result<Name, AllocError> {
    Ok(Name::of(String::from_str(alloc, word)?))
}

/// The numbers behind a word that the row has any number of times.
fn numbers(alloc: Global, words: &str, what: &str) -> Result<Vec<u64>, AllocError> {
    let mut found = Vec::new(alloc);
    for word in words.split(' ') {
        let (name, rest) = halves(word, '=');
        if name == what {
            found.push(rest.parse::<u64>().unwrap_or(0))?;
        }
    }
    Ok(found)
}

/// The times that are given.
fn times(alloc: Global, words: &str) -> Result<Vec<i64>, AllocError> {
    let mut found = Vec::new(alloc);
    for word in words.split(' ') {
        if let Some(rest) = word.strip_prefix("time=") {
            found.push(rest.parse::<i64>().unwrap_or(0))?;
        }
    }
    Ok(found)
}

/// The bytes to read.
fn input(alloc: Global, words: &str) -> Result<Vec<u8>, AllocError> {
    let mut bytes = Vec::new(alloc);
    for word in words.split(' ') {
        if let Some(rest) = word.strip_prefix("line=") {
            add_spelled(rest, &mut bytes)?;
            bytes.push(b'\n')?;
        }
    }
    Ok(bytes)
}

/// The bytes of a file that a word has; none where it has no file.
fn content(alloc: Global, what: &str, text: &str) -> Result<Option<Vec<u8>>, AllocError> {
    match what {
        "file" => Ok(Some(spelled(alloc, text)?)),
        "large" => Ok(Some(vec![in alloc; 0; TOO_MANY_BYTES]?)),
        _ => Ok(None),
    }
}

/// Puts the file that a word has into the folder.
fn add_file(alloc: Global, word: &str, files: &mut Vec<(Name, Bytes)>) -> Result<(), AllocError> {
    let (what, rest) = halves(word, '=');
    let (path, text) = halves(rest, ':');
    if let Some(bytes) = content(alloc, what, text)? {
        let bytes = Bytes::of(bytes);
        files.push((name_of(alloc, path)?, bytes))?;
    }
    Ok(())
}

fn files(alloc: Global, words: &str) -> Result<Vec<(Name, Bytes)>, AllocError> {
    let mut files = Vec::new(alloc);
    for word in words.split(' ') {
        add_file(alloc, word, &mut files)?;
    }
    Ok(files)
}

/// The arguments of the script that the words of a row have.
pub(crate) fn arguments_of(alloc: Global, words: &str) -> Result<Vec<Name>, AllocError> {
    let mut names = Vec::new(alloc);
    for word in words.split(' ') {
        if let Some(rest) = word.strip_prefix("argument=") {
            names.push(name_of(alloc, rest)?)?;
        }
    }
    Ok(names)
}

fn console(alloc: Global, words: &str) -> Result<MemoryConsole, AllocError> {
    let refused = numbers(alloc, words, "console")?;
    Ok(MemoryConsole::of(Bytes::of(input(alloc, words)?), refused))
}

fn folder(alloc: Global, words: &str) -> Result<MemoryFolder, AllocError> {
    let refused = numbers(alloc, words, "folder")?;
    Ok(MemoryFolder::of(files(alloc, words)?, refused))
}

fn moments(alloc: Global, words: &str) -> Result<MemoryClockAndRandom, AllocError> {
    let given = numbers(alloc, words, "word")?;
    let refused = numbers(alloc, words, "moments")?;
    Ok(MemoryClockAndRandom::of(times(alloc, words)?, given, refused))
}

/// The devices that the words of a row have, with these moments.
fn devices_with(
    alloc: Global,
    words: &str,
    moments: MemoryClockAndRandom,
) -> Result<RowDevices, AllocError> {
    let folder = folder(alloc, words)?;
    let console = console(alloc, words)?;
    Ok(Devices {
        console,
        folder,
        moments,
    })
}

/// The devices that the words of a row have.
pub(crate) fn devices_of(alloc: Global, words: &str) -> Result<RowDevices, AllocError> {
    let moments = moments(alloc, words)?;
    devices_with(alloc, words, moments)
}
