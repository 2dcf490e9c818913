// Cases of the loops over sources and sinks, and of the real folder.
use crate::devices::{write_found, write_line, write_size};
use crate::texts::{bytes_of, halves};
use prov_outside::{Folder, Trouble};
use prov_real::{RealFolder, Unread, read_whole, write_whole};
use std::alloc::{AllocError, Global};
use std::fs;
use std::io::{self, Read, Write};

/// A source and a sink that fails at each call.
#[derive(Drop)]
struct Broken;

impl Read for Broken {
    fn read(&mut self, _buf: &mut [u8]) -> io::Result<usize> {
        Err(io::Error::from(io::ErrorKind::Other))
    }
}

impl Write for Broken {
    fn write(&mut self, _buf: &[u8]) -> io::Result<usize> {
        Err(io::Error::from(io::ErrorKind::Other))
    }

    fn flush(&mut self) -> io::Result<()> {
        Err(io::Error::from(io::ErrorKind::Other))
    }
}

/// A sink that takes all, and fails where what it keeps back is to be passed on.
#[derive(Drop)]
struct Kept;

impl Write for Kept {
    fn write(&mut self, buf: &[u8]) -> io::Result<usize> {
        Ok(buf.len())
    }

    fn flush(&mut self) -> io::Result<()> {
        Err(io::Error::from(io::ErrorKind::Other))
    }
}

/// The first three lines of a source that fails behind its bytes, and then three more of a source that does not: `BYTES|BYTES`.
pub fn lines(alloc: Global, words: &str, out: &mut Vec<u8>) -> Result<(), AllocError> {
    let (first, second) = halves(words, '|');
    let first = bytes_of(alloc, first)?;
    let second = bytes_of(alloc, second)?;
    let mut unread = Unread::new(alloc);
    let mut source = first.as_slice().chain(Broken);
    for _ in 0..3 {
        write_line(out, unread.next_line(alloc, &mut source))?;
        out.push(b' ')?;
    }
    let mut rest = second.as_slice();
    for _ in 0..3 {
        write_line(out, unread.next_line(alloc, &mut rest))?;
        out.push(b' ')?;
    }
    Ok(())
}

fn length(words: &str) -> u64 {
    words.parse::<u64>().unwrap_or(0)
}

/// Whether a line of so many bytes is read, where these bytes stand behind it: `LENGTH|BYTES`.
pub fn longest(alloc: Global, words: &str, out: &mut Vec<u8>) -> Result<(), AllocError> {
    let (count, end) = halves(words, '|');
    let end = bytes_of(alloc, end)?;
    let mut source = io::repeat(b'a').take(length(count)).chain(end.as_slice());
    let line = Unread::new(alloc).next_line(alloc, &mut source);
    match line {
        Ok(Some(line)) => {
            let length = line.as_slice().len();
            out.extend_from_slice(format!(in alloc; "{length}")?.as_bytes())
        }
        other => write_line(out, other),
    }
}

/// How many bytes are read whole of so many.
pub fn largest(alloc: Global, words: &str, out: &mut Vec<u8>) -> Result<(), AllocError> {
    let mut source = io::repeat(b'a').take(length(words));
    write_size(alloc, out, read_whole(alloc, &mut source))
}

/// What is read whole of a source that fails behind these bytes, and of one that ends there.
pub fn whole(alloc: Global, words: &str, out: &mut Vec<u8>) -> Result<(), AllocError> {
    let bytes = bytes_of(alloc, words)?;
    let mut source = bytes.as_slice().chain(Broken);
    write_found(out, read_whole(alloc, &mut source))?;
    out.push(b' ')?;
    let mut rest = bytes.as_slice();
    write_found(out, read_whole(alloc, &mut rest))
}

fn word_of(done: Result<(), Trouble>) -> &'static [u8] {
    match done {
        Ok(()) => b"ok ",
        Err(Trouble::Failed) => b"failed ",
        Err(Trouble::Memory) => b"memory ",
    }
}

/// What becomes of bytes at a sink with room for two, at one that fails at each call, at one that fails at its flush, and at one with room.
pub fn sinks(alloc: Global, words: &str, out: &mut Vec<u8>) -> Result<(), AllocError> {
    let bytes = bytes_of(alloc, words)?;
    let mut room = [b'.'; 2];
    out.extend_from_slice(word_of(write_whole(&mut room.as_mut_slice(), &bytes)))?;
    out.extend_from_slice(&room)?;
    out.push(b' ')?;
    out.extend_from_slice(word_of(write_whole(&mut Broken, &bytes)))?;
    out.extend_from_slice(word_of(write_whole(&mut Kept, &bytes)))?;
    let mut sink = Vec::new(alloc);
    out.extend_from_slice(word_of(write_whole(&mut sink, &bytes)))?;
    out.extend_from_slice(&sink)
}

fn folder_step(
    rt: &HostRuntime,
    folder: &mut RealFolder<'_>,
    step: &str,
    out: &mut Vec<u8>,
) -> Result<(), AllocError> {
    let alloc = rt.alloc();
    let (call, words) = halves(step, ' ');
    let (path, text) = halves(words, ' ');
    match call {
        "get" => write_found(out, folder.get(alloc, path)),
        "source" => write_found(out, folder.get_source(alloc, path)),
        "put" => out.extend_from_slice(word_of(folder.put(alloc, path, text.as_bytes()))),
        _ => match fs::remove_file(rt, path) {
            Ok(()) => out.extend_from_slice(b"removed"),
            Err(_) => out.extend_from_slice(b"not removed"),
        },
    }
}

/// The answers of the real folder: `CALL, CALL..`.
pub fn folder(rt: &HostRuntime, words: &str, out: &mut Vec<u8>) -> Result<(), AllocError> {
    let mut folder = RealFolder::new(rt);
    for step in words.split(',') {
        folder_step(rt, &mut folder, step, out)?;
        out.push(b' ')?;
    }
    Ok(())
}
