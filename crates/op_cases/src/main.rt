//! The cases of the doer, `op_parts`: single operations over devices in memory. Each line of the input is a command, and what it answers is a line of
//! the output, which the gate compares with the file `stdout`. Lines that begin with `#` answer nothing.
//!
//! `start WORD..` begins anew, with nothing made: `line=TEXT` is a line to read, `time=N` and `word=N` are given by the moments, `file=PATH:TEXT` is a
//! file of the folder and `large=PATH` one that is too large, `argument=TEXT` is an argument of the script. `console=N`, `folder=N` and `moments=N`
//! are the numbers of calls that fail. `end` writes what was printed, and each file that was opened for writing.
//!
//! Any other row is an operation, by its number, with its operands behind it. `@N` are the steps that are left, `.NAME` is what it names, `/N` its
//! activation, `=VALUE` its value. A value is `None`, `True`, `False`, an integer, `'TEXT'`, `( VALUE.. )`, `rSTART:END:STEP`, a function or a class
//! as `fLINE:COLUMN` or `cLINE:COLUMN`, an exception class `eN`, a built-in `bN`, an object `#N`, or `$`, which was answered last. In a text `\s` is a
//! blank, `\n` a line end, `\t` a tab, `\\` a backslash, and `\xHH` any byte.
//!
//! The answer: the value, `raised` with the object, or `end`; what was made; each Read, Set and Update (R, S, U) in order; behind `:` the weight. Or it is
//! `too dear`, or `unanswered`. `repeat N` before an operation does it so many times, and writes how the last one came out, without its accesses.
#![tactic(auto)]

mod ending;

use case_operations::answer_all;
use ending::Sitting;
use prov_outside::Trouble;
use prov_real::RealConsole;
use std::process::ExitCode;

fn main(rt: HostRuntime) -> ExitCode {
    let mut console = RealConsole::new(&rt);
    match answer_all(rt.alloc(), &mut console, &Sitting) {
        Ok(()) => ExitCode::from(0),
        Err(Trouble::Failed) => ExitCode::from(1),
        Err(Trouble::Memory) => ExitCode::from(2),
    }
}
