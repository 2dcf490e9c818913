//! The cases of `keeper`, `content_store`, `trial_keeping`, `trial_loading`, `trial_loading` and `trial_loading`. Each line of the input is a row
//! `TABLES|FAILING|CALL, CALL..`: the entries of the tables that a keeper in memory is made of, the numbers of its calls that fail, and calls.
//! The answers are a line of the output, which the gate compares with the file `stdout`.
//!
//! The real console reads the rows and writes the answers.
#![tactic(auto)]

mod loads;
mod reads;
mod runs;
mod tables;
mod texts;
mod trials;
mod writes;

use keeper::Keeper;
use loads::load;
use memory_keeper::{MemoryKeeper, Tables};
use prov_outside::{Console, Trouble};
use prov_real::RealConsole;
use reads::read;
use runs::{keep_run, write_whole};
use std::alloc::{AllocError, Global};
use std::process::ExitCode;
use tables::{tables_of, write_digits, write_tables};
use texts::{halves, numbers, small, write, write_done};
use trials::{list_heads, load_head, load_whole};
use writes::write_into;

/// Makes a call, and writes what it answers.
fn step(
    alloc: Global,
    keeper: &mut MemoryKeeper,
    step: &str,
    out: &mut Vec<u8>,
) -> Result<(), AllocError> {
    let (call, words) = halves(step, ' ');
    match call {
        "begin" => write_done(out, keeper.begin(alloc)),
        "undo" => write_done(out, keeper.undo(alloc)),
        "open" => write(out, if keeper.is_open() { "open" } else { "closed" }),
        "tables" => write_tables(alloc, out, keeper.committed()),
        "digits" => write_digits(alloc, out, keeper.committed()),
        "run" => keep_run(alloc, keeper, words, out),
        "load" => load(alloc, keeper, words, out),
        "trial_whole" => load_whole(alloc, keeper, small(words), out),
        "trial_head" => load_head(alloc, keeper, small(words), out),
        "heads" => list_heads(alloc, keeper, out),
        "whole" => write_whole(alloc, out, keeper.head(alloc, small(words))),
        "trial" | "again" | "add" | "keep" | "set" | "put" | "commit" => write_into(
            alloc, keeper, call, words, out,
        ),
        _ => read(alloc, keeper, call, words, out),
    }
}

/// Makes the calls of a row, and writes each one's answer and a comma.
fn make_calls(
    alloc: Global,
    keeper: &mut MemoryKeeper,
    calls: &str,
    out: &mut Vec<u8>,
) -> Result<(), AllocError> {
    for call in calls.split(',') {
        step(alloc, keeper, call, out)?;
        out.push(b',')?;
    }
    Ok(())
}

/// Answers the calls of a row, by a keeper of these tables.
fn answer_over(
    alloc: Global,
    tables: Tables,
    failing: Vec<u64>,
    calls: &str,
    out: &mut Vec<u8>,
) -> Result<(), AllocError> {
    if !tables.are_whole() {
        return write(out, "not whole");
    }
    let mut keeper = MemoryKeeper::of(tables, failing);
    make_calls(alloc, &mut keeper, calls, out)
}

/// Answers a row.
fn answer(alloc: Global, row: &str, out: &mut Vec<u8>) -> Result<(), AllocError> {
    let (entries, rest) = halves(row, '|');
    let (failing, calls) = halves(rest, '|');
    let failing = numbers(alloc, failing)?;
    let tables = tables_of(alloc, entries)?;
    answer_over(alloc, tables, failing, calls, out)
}

/// Answers a line of the input: writes the line, and the row's answers below it. An empty line and one that begins with `#`
/// answer nothing.
fn answer_line(alloc: Global, line: &[u8], out: &mut Vec<u8>) -> Result<(), AllocError> {
    let Ok(row) = str::from_utf8(line) else {
        return Ok(());
    };
    if row.is_empty() || row.starts_with('#') {
        return Ok(());
    }
    write(out, row)?;
    out.extend_from_slice(b"\n    ")?;
    answer(alloc, row, out)?;
    out.push(b'\n')?;
    Ok(())
}

/// Answers every line of the input.
fn answer_all(alloc: Global, console: &mut RealConsole<'_>) -> Result<(), Trouble> {
    for _ in 0..u64::MAX {
        let Some(line) = console.read_line(alloc)? else {
            return Ok(());
        };
        let mut out = Vec::new(alloc);
        answer_line(alloc, line.as_slice(), &mut out)?;
        console.write(alloc, &out)?;
    }
    Ok(())
}

fn main(rt: HostRuntime) -> ExitCode {
    let mut console = RealConsole::new(&rt);
    match answer_all(rt.alloc(), &mut console) {
        Ok(()) => ExitCode::from(0),
        Err(Trouble::Failed) => ExitCode::from(1),
        Err(Trouble::Memory) => ExitCode::from(2),
    }
}
