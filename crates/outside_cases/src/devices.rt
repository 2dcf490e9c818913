// Cases of the console and the folder in memory.
use crate::texts::{bytes_of, halves, number, write_bytes};
use prov_base::{Bytes, Name};
use prov_outside::{Console, Folder, Found, MemoryConsole, MemoryFolder, Trouble};
use std::alloc::{AllocError, Global};

/// The numbers in a text, with a space between them.
pub fn numbers(alloc: Global, words: &str) -> Result<Vec<u64>, AllocError> {
    let mut list = Vec::new(alloc);
    for word in words.split(' ') {
        list.push(number(word))?;
    }
    Ok(list)
}

/// Writes the answer of a call that answers nothing else.
fn write_done(out: &mut Vec<u8>, done: Result<(), Trouble>) -> Result<(), AllocError> {
    out.extend_from_slice(match done {
        Ok(()) => b"ok",
        Err(Trouble::Failed) => b"failed",
        Err(Trouble::Memory) => b"memory",
    })
}

/// Writes the answer of a call that reads a line.
pub fn write_line(
    out: &mut Vec<u8>,
    line: Result<Option<Bytes>, Trouble>,
) -> Result<(), AllocError> {
    match line {
        Ok(Some(line)) => {
            out.push(b'[')?;
            write_bytes(out, line.as_slice())?;
            out.push(b']')?;
            Ok(())
        }
        Ok(None) => out.extend_from_slice(b"none"),
        Err(trouble) => write_done(out, Err(trouble)),
    }
}

/// Writes what was found.
pub fn write_found(out: &mut Vec<u8>, found: Result<Found, Trouble>) -> Result<(), AllocError> {
    match found {
        Ok(Found::Bytes(bytes)) => {
            out.push(b'[')?;
            write_bytes(out, bytes.as_slice())?;
            out.push(b']')?;
            Ok(())
        }
        Ok(Found::Absent) => out.extend_from_slice(b"absent"),
        Ok(Found::TooLarge) => out.extend_from_slice(b"too large"),
        Ok(Found::Failed) => out.extend_from_slice(b"found a fault"),
        Err(trouble) => write_done(out, Err(trouble)),
    }
}

/// Reads a line and writes it, through the trait.
fn echo<C: Console>(alloc: Global, console: &mut C) -> Result<(), Trouble> {
    match console.read_line(alloc)? {
        Some(line) => console.write(alloc, line.as_slice()),
        None => Ok(()),
    }
}

fn console_step(
    alloc: Global,
    console: &mut MemoryConsole,
    step: &str,
    out: &mut Vec<u8>,
) -> Result<(), AllocError> {
    match halves(step, ' ') {
        ("read", _) => write_line(out, console.read_line(alloc)),
        ("echo", _) => write_done(out, echo(alloc, console)),
        (_, text) => {
            let done = console.write(alloc, text.as_bytes());
            write_done(out, done)
        }
    }
}

fn console_of(alloc: Global, input: &str, failing: &str) -> Result<MemoryConsole, AllocError> {
    let failing = numbers(alloc, failing)?;
    Ok(MemoryConsole::of(Bytes::of(bytes_of(alloc, input)?), failing))
}

/// The answers of a console in memory, and then what was written: `INPUT|FAILING|CALL, CALL..`.
pub fn console(alloc: Global, words: &str, out: &mut Vec<u8>) -> Result<(), AllocError> {
    let (input, rest) = halves(words, '|');
    let (failing, calls) = halves(rest, '|');
    let mut console = console_of(alloc, input, failing)?;
    for step in calls.split(',') {
        console_step(alloc, &mut console, step, out)?;
        out.push(b' ')?;
    }
    write_bytes(out, console.written())
}

/// A folder with files, given as `PATH=TEXT PATH=TEXT..`.
fn folder_of(alloc: Global, files: &str, failing: &str) -> Result<MemoryFolder, AllocError> {
    let mut pairs = Vec::new(alloc);
    for file in files.split(' ') {
        let (path, text) = halves(file, '=');
        let name = Name::of(String::from_str(alloc, path)?);
        pairs.push((name, Bytes::of(bytes_of(alloc, text)?)))?;
    }
    Ok(MemoryFolder::of(pairs, numbers(alloc, failing)?))
}

/// Puts what stands at one path at another one, through the trait.
fn copy<F: Folder>(alloc: Global, folder: &mut F, from: &str, to: &str) -> Result<(), Trouble> {
    match folder.get(alloc, from)? {
        Found::Bytes(bytes) => folder.put(alloc, to, bytes.as_slice()),
        _ => Ok(()),
    }
}

fn folder_step(
    alloc: Global,
    folder: &mut MemoryFolder,
    step: &str,
    out: &mut Vec<u8>,
) -> Result<(), AllocError> {
    let (call, words) = halves(step, ' ');
    let (path, text) = halves(words, ' ');
    match call {
        "get" => write_found(out, folder.get(alloc, path)),
        "source" => write_found(out, folder.get_source(alloc, path)),
        "put" => write_done(out, folder.put(alloc, path, text.as_bytes())),
        "copy" => write_done(out, copy(alloc, folder, path, text)),
        _ => match folder.bytes(path) {
            Some(bytes) => write_bytes(out, bytes),
            None => out.extend_from_slice(b"nothing"),
        },
    }
}

/// The answers of a folder in memory: `FILES|FAILING|CALL, CALL..`.
pub fn folder(alloc: Global, words: &str, out: &mut Vec<u8>) -> Result<(), AllocError> {
    let (files, rest) = halves(words, '|');
    let (failing, calls) = halves(rest, '|');
    let mut folder = folder_of(alloc, files, failing)?;
    for step in calls.split(',') {
        folder_step(alloc, &mut folder, step, out)?;
        out.push(b' ')?;
    }
    Ok(())
}

/// What a folder in memory answers of a file of so many bytes, with `get` and with `get_source`.
pub fn size(alloc: Global, words: &str, out: &mut Vec<u8>) -> Result<(), AllocError> {
    let length = words.parse::<u32>().unwrap_or(0) as usize;
    let mut folder = folder_of(alloc, "a=", "0")?;
    write_done(out, put_large(alloc, &mut folder, length))?;
    out.push(b' ')?;
    write_size(alloc, out, folder.get(alloc, "large"))?;
    out.push(b' ')?;
    write_size(alloc, out, folder.get_source(alloc, "large"))
}

fn put_large(alloc: Global, folder: &mut MemoryFolder, length: usize) -> Result<(), Trouble> {
    let bytes = vec![in alloc; b'x'; length]?;
    folder.put(alloc, "large", &bytes)
}

/// Writes how many bytes were found.
pub fn write_size(
    alloc: Global,
    out: &mut Vec<u8>,
    found: Result<Found, Trouble>,
) -> Result<(), AllocError> {
    match found {
        Ok(Found::Bytes(bytes)) => {
            let length = bytes.as_slice().len();
            out.extend_from_slice(format!(in alloc; "{length}")?.as_bytes())
        }
        other => write_found(out, other),
    }
}
