//! The cases of `capture` and of `ClockAndRandom`, in memory and real. Each line of the input is a command; what it answers is a
//! line of the output, which the gate compares with the file `stdout`. Lines that begin with `#` answer nothing.
//!
//! `start LINES|TIMES|WORDS|FILES|NUMBERS|NUMBERS|NUMBERS` makes devices in memory and a new capture: the lines to read, the
//! times and words to give, the files as `PATH=TEXT`, and the numbers of the calls of the console, of the moments and of the
//! folder that fail. What stands in a list has `/` between. The other commands are calls on these.
#![tactic(auto)]

mod rows;
mod session;
mod texts;

use prov_outside::{Console, Trouble};
use prov_real::RealConsole;
use session::Session;
use std::process::ExitCode;

/// Answers every line of the input.
fn answer_all(
    rt: &HostRuntime,
    console: &mut RealConsole<'_>,
    session: &mut Session,
) -> Result<(), Trouble> {
    let alloc = rt.alloc();
    for _ in 0..u64::MAX {
        let Some(line) = console.read_line(alloc)? else {
            return Ok(());
        };
        let mut answer = Vec::new(alloc);
        session.answer(rt, line.as_slice(), &mut answer)?;
        console.write(alloc, &answer)?;
    }
    Ok(())
}

fn main(rt: HostRuntime) -> ExitCode {
    let mut console = RealConsole::new(&rt);
    let Ok(mut session) = Session::start(rt.alloc(), "") else {
        return ExitCode::from(2);
    };
    match answer_all(&rt, &mut console, &mut session) {
        Ok(()) => ExitCode::from(0),
        Err(Trouble::Failed) => ExitCode::from(1),
        Err(Trouble::Memory) => ExitCode::from(2),
    }
}
