//! The cases of `py_value`, `object_store` and `region_pool`. The input has sections, each begun by a row `== NAME`; each row of
//! a section is a command, and what it answers is a row of the output, which the gate compares with the file `stdout`.
#![tactic(auto)]

mod map;
mod names;
mod pools;
mod rows;
mod table;
mod values;

use prov_base::Memory;
use prov_outside::{Console, Found, Trouble};
use prov_real::{RealConsole, read_whole};
use std::alloc::{AllocError, AllocFailed, Global};
use std::process::ExitCode;

/// Why the program ends before its input does.
#[derive(Clone, Copy, Debug, PartialEq, Eq)]
pub enum Stop {
    /// Memory ran out, or numbers did.
    Memory,
    /// The input or the output failed, or the input is no text.
    Failed,
}

impl From<AllocError> for Stop {
    fn from(_: AllocError) -> Self {
        Stop::Memory
    }
}

impl<T: Drop> From<AllocFailed<T>> for Stop {
    fn from(_: AllocFailed<T>) -> Self {
        Stop::Memory
    }
}

impl From<Memory> for Stop {
    fn from(_: Memory) -> Self {
        Stop::Memory
    }
}

impl From<Trouble> for Stop {
    fn from(trouble: Trouble) -> Self {
        match trouble {
            Trouble::Failed => Stop::Failed,
            Trouble::Memory => Stop::Memory,
        }
    }
}

/// The whole input.
fn input(rt: &HostRuntime) -> Result<String, Stop> {
    let Found::Bytes(bytes) = read_whole(rt.alloc(), &mut rt.stdin())? else {
        return Err(Stop::Failed);
    };
    let text = Vec::from_slice(rt.alloc(), bytes.as_slice())?;
    match String::from_utf8(text) {
        Ok(text) => Ok(text),
        Err(_) => Err(Stop::Failed),
    }
}

/// The answers to the rows of a section.
fn answer(alloc: Global, name: &str, rows: &str, out: &mut Vec<u8>) -> Result<(), Stop> {
    out.extend_from_slice(b"== ")?;
    out.extend_from_slice(name.as_bytes())?;
    out.push(b'\n')?;
    match name {
        "pool" => pools::answer(alloc, rows, out),
        "values" => values::answer(alloc, rows, out),
        _ => table::play_rows(alloc, rows, out),
    }
}

fn answer_all(rt: &HostRuntime) -> Result<(), Stop> {
    let text = input(rt)?;
    let mut out = Vec::new(rt.alloc());
    for section in text.split("== ") {
        if let Some((name, rows)) = section.split_once('\n') {
            answer(rt.alloc(), name, rows, &mut out)?;
        }
    }
    RealConsole::new(rt).write(rt.alloc(), &out)?;
    Ok(())
}

fn main(rt: HostRuntime) -> ExitCode {
    match answer_all(&rt) {
        Ok(()) => ExitCode::from(0),
        Err(Stop::Failed) => ExitCode::from(1),
        Err(Stop::Memory) => ExitCode::from(2),
    }
}
