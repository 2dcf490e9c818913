//! The cases of `trace_rows` and `row_checks`. A line of the input is a page as digits of base 16. Below it the output has the kinds of its rows and the
//! page that these rows make again, or the byte at which the bytes stop being rows. Where a number and a blank stand before the page, they are how many
//! statements a script has: the output then says whether the page's rows are kept, or which row is the first that is not. The gate compares the output
//! with the file `stdout`.
#![tactic(auto)]

mod keeping;

use keeping::write_words;
use prov_outside::{Console, Trouble};
use prov_real::RealConsole;
use std::alloc::{AllocError, Global};
use std::process::ExitCode;
use trace_rows::{PageFault, Row, Rows, decode_page, encode_page};

/// The kind of a row.
fn kind(row: &Row) -> &str {
    match row {
        Row::Text(_) => "text ",
        Row::Tuple(_) => "tuple ",
        Row::Begin(_) => "begin ",
        Row::Do(_, _, _, _, _, _, _) => "do ",
        Row::Enter(_, _, _, _) => "enter ",
        Row::Leave(_) => "leave ",
        Row::End(_) => "end ",
    }
}

/// Writes the kinds of the rows, and the page that they make.
fn write_rows(alloc: Global, rows: &Rows, out: &mut Vec<u8>) -> Result<(), AllocError> {
    for row in rows.as_slice() {
        out.extend_from_slice(kind(row).as_bytes())?;
    }
    match encode_page(alloc, rows.as_slice()) {
        Ok(page) => {
            let digits = hex::encode(alloc, page.as_slice())?;
            out.extend_from_slice(digits.as_bytes())
        }
        Err(_) => out.extend_from_slice(b"no memory to encode"),
    }
}

/// Writes what a page is decoded as.
fn write_decoded(
    alloc: Global,
    decoded: Result<Rows, PageFault>,
    out: &mut Vec<u8>,
) -> Result<(), AllocError> {
    match decoded {
        Ok(rows) => write_rows(alloc, &rows, out),
        Err(PageFault::BadRow(place)) => {
            let words = format!(in alloc; "bad row at {place}")?;
            out.extend_from_slice(words.as_bytes())
        }
        Err(PageFault::Memory) => out.extend_from_slice(b"no memory to decode"),
    }
}

/// Writes what the page with these digits is decoded as.
fn write_page(alloc: Global, digits: &str, out: &mut Vec<u8>) -> Result<(), AllocError> {
    match hex::decode(alloc, digits) {
        Ok(page) => write_decoded(alloc, decode_page(alloc, &page), out),
        Err(_) => out.extend_from_slice(b"no digits of base 16"),
    }
}

/// Answers a line of the input: the line, and the answer below it. A line that begins with `#` answers nothing.
fn answer_line(alloc: Global, line: &str, out: &mut Vec<u8>) -> Result<(), AllocError> {
    if line.starts_with('#') {
        return Ok(());
    }
    out.extend_from_slice(line.as_bytes())?;
    out.extend_from_slice(b"\n    ")?;
    match line.split_once(' ') {
        Some((count, digits)) => write_words(alloc, count, digits, out)?,
        None => write_page(alloc, line, out)?,
    }
    out.push(b'\n')?;
    Ok(())
}

/// Answers every line of the input.
fn answer_all(alloc: Global, console: &mut RealConsole<'_>) -> Result<(), Trouble> {
    for _ in 0..u64::MAX {
        let Some(line) = console.read_line(alloc)? else {
            return Ok(());
        };
        let mut out = Vec::new(alloc);
        match std::str::from_utf8(line.as_slice()) {
            Ok(text) => answer_line(alloc, text, &mut out)?,
            Err(_) => out.extend_from_slice(b"no text\n")?,
        }
        console.write(alloc, &out)?;
    }
    Ok(())
}

fn main(rt: HostRuntime) -> ExitCode {
    let mut console = RealConsole::new(&rt);
    match answer_all(rt.alloc(), &mut console) {
        Ok(()) => ExitCode::from(0),
        Err(Trouble::Failed) => ExitCode::from(1),
        Err(Trouble::Memory) => ExitCode::from(2),
    }
}
