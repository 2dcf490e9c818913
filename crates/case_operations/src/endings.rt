// What is written of a run as a row ends it.
use crate::texts::write_text;
use capture::FileOut;
use prov_base::{Bytes, Memory};
use prov_outside::{Console, Trouble};
use std::alloc::{AllocError, Global};

fn write_file(file: &FileOut, out: &mut Vec<u8>) -> Result<(), AllocError> {
    out.extend_from_slice(b"; file")?;
    write_text(file.path.as_str(), out)?;
    write_text(str::from_utf8(file.bytes.as_slice()).unwrap_or("?"), out)
}

fn write_files(files: &[FileOut], out: &mut Vec<u8>) -> Result<(), AllocError> {
    for file in files {
        write_file(file, out)?;
    }
    Ok(())
}

/// Writes what was printed and each file that was opened for writing.
fn write_end(printed: &[u8], files: &[FileOut], out: &mut Vec<u8>) -> Result<(), AllocError> {
    out.extend_from_slice(b" printed")?;
    write_text(str::from_utf8(printed).unwrap_or("?"), out)?;
    write_files(files, out)
}

/// What a run left.
pub trait Left {
    /// What was printed.
    fn output(&self) -> &[u8];

    /// Each file that was opened for writing.
    fn finals(&self, alloc: Global) -> Result<Vec<FileOut>, Memory>;

    /// Lets it go.
    fn let_go(self);
}

/// Writes what a run left.
fn write_left<L: Left>(alloc: Global, left: &L, out: &mut Vec<u8>) -> Result<(), Memory> {
    let files = left.finals(alloc)?;
    Ok(write_end(left.output(), &files, out)?)
}

/// Writes the row that begins anew and, where it is an `end`, what a run left.
fn close<C: Console, L: Left>(
    alloc: Global,
    console: &mut C,
    left: &L,
    row: &[u8],
) -> Result<(), Trouble> {
    let mut out = Vec::from_slice(alloc, row)?;
    if row.starts_with(b"end") && write_left(alloc, left, &mut out).is_err() {
        return Err(Trouble::Memory);
    }
    out.push(b'\n')?;
    console.write(alloc, &out)
}

/// Writes the row that begins anew, if there is one.
fn close_next<C: Console, L: Left>(
    alloc: Global,
    console: &mut C,
    left: &L,
    next: &Result<Option<Bytes>, Trouble>,
) -> Result<(), Trouble> {
    match next {
        Ok(Some(row)) => close(alloc, console, left, row.as_slice()),
        _ => Ok(()),
    }
}

/// Writes the row that begins anew, if there is one, and gives it back. What a run left is let go.
pub fn closed<C: Console, L: Left>(
    alloc: Global,
    console: &mut C,
    left: L,
    next: Result<Option<Bytes>, Trouble>,
) -> Result<Option<Bytes>, Trouble> {
    let written = close_next(alloc, console, &left, &next);
    left.let_go();
    written?;
    next
}
