//! The cases of `op_atoms`: single operations on values without objects. Each line of the input is a row, and what `atom` answers is a line of the output,
//! which the gate compares with the file `stdout`. Lines that begin with `#` answer nothing.
//!
//! A row is an operation, by its number, with its operands behind it, written as in `op_cases`. The answer: `gives` with the value, `raises` with the
//! number of the exception's class and its text, or `not atomic`.
//!
//! Of atoms as many as they take, operations 0, 2, 3, 4, 25 and 51 (constant, `give`, truth, `not`, tuple and `bool`) raise nothing.
#![tactic(auto)]

mod operations;

use case_operations::answer_input;
use operations::Atoms;
use prov_outside::Trouble;
use prov_real::RealConsole;
use std::process::ExitCode;

fn main(rt: HostRuntime) -> ExitCode {
    let mut console = RealConsole::new(&rt);
    match answer_input(rt.alloc(), &mut console, Atoms) {
        Ok(()) => ExitCode::from(0),
        Err(Trouble::Failed) => ExitCode::from(1),
        Err(Trouble::Memory) => ExitCode::from(2),
    }
}
