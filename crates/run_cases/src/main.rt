//! The cases of `py_parser` and `run_engine`: scripts that are read and run over devices in memory. Each line of the input is a command, and
//! `run` answers, which the gate compares with the file `stdout`. Lines that begin with `#` answer nothing.
//!
//! `case NAME` makes an empty script at `s.py`, with 1,000,000 steps, no argument, and devices that hold nothing. `|TEXT` is a line of the script,
//! `path PATH`, `steps N` and `argument TEXT` say how it is run. `input HEX` is a line to read, `time N` and `word N` are given by the moments,
//! `file PATH HEX` is a file of the folder and `large PATH` one that is too large. `refuse console N`, `refuse moments N` and `refuse folder N` are calls that
//! fail. `run` writes the case's name, its end and its steps, each line that was printed behind `|` (a last one without a line end behind `/`), each file that it opened for writing,
//! each answer that it was given and each file that it fetched. `show` writes the same without the steps, the text of an exception and what was given.
#![tactic(auto)]

mod case;
mod outcome;
mod words;

use case::Case;
use prov_outside::{Console, Trouble};
use prov_real::RealConsole;
use std::process::ExitCode;

/// Answers every line of the input.
fn answer_all(
    rt: &HostRuntime,
    console: &mut RealConsole<'_>,
    case: &mut Case,
) -> Result<(), Trouble> {
    let alloc = rt.alloc();
    for _ in 0..u64::MAX {
        let Some(line) = console.read_line(alloc)? else {
            return Ok(());
        };
        let mut answer = Vec::new(alloc);
        case.answer(alloc, line.as_slice(), &mut answer)?;
        console.write(alloc, &answer)?;
    }
    Ok(())
}

fn main(rt: HostRuntime) -> ExitCode {
    let mut console = RealConsole::new(&rt);
    let Ok(mut case) = Case::new(rt.alloc(), "") else {
        return ExitCode::from(2);
    };
    match answer_all(&rt, &mut console, &mut case) {
        Ok(()) => ExitCode::from(0),
        Err(Trouble::Failed) => ExitCode::from(1),
        Err(Trouble::Memory) => ExitCode::from(2),
    }
}
