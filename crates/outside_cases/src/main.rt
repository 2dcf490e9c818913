//! The cases of `prov_base`, `prov_outside`, `prov_real` and `now_top`. Each line of the input is a command; what it
//! answers is a line of the output, which the gate compares with the file `stdout`.
//!
//! The real console reads the commands and writes the answers, and the real folder is the one where the program runs.
#![tactic(auto)]

mod base;
mod bench;
mod damage;
mod devices;
mod streams;
mod texts;

use bench::Bench;
use prov_outside::{Console, Trouble};
use prov_real::RealConsole;
use std::process::ExitCode;

/// Answers every line of the input.
fn answer_all(rt: &HostRuntime, console: &mut RealConsole<'_>) -> Result<(), Trouble> {
    let alloc = rt.alloc();
    let mut bench = Bench::new(alloc)?;
    for _ in 0..u64::MAX {
        let Some(line) = console.read_line(alloc)? else {
            return Ok(());
        };
        let mut answer = Vec::new(alloc);
        bench.answer(rt, line.as_slice(), &mut answer)?;
        console.write(alloc, &answer)?;
    }
    Ok(())
}

fn main(rt: HostRuntime) -> ExitCode {
    let mut console = RealConsole::new(&rt);
    match answer_all(&rt, &mut console) {
        Ok(()) => ExitCode::from(0),
        Err(Trouble::Failed) => ExitCode::from(1),
        Err(Trouble::Memory) => ExitCode::from(2),
    }
}
