//! The words behind the program's name, and the command that they are. Nothing here opens a file or looks at what is in one.
//!
//! - `run [--bare] [--steps N] FILE [ARG]..`: a run that is kept as a trial, with `--bare` one that is not. The first `--` behind `run` is dropped, and every word behind it is a positional.
//!   - Before it the options may stand anywhere behind `run`, each at most once. `--steps` has the next word before the `--` as
//!     its value; `--steps=N` is one word. N is decimal digits, leading zeros allowed, from 1 to 1000000, and 1000000 where
//!     it is not said.
//!   - Any other word before it that begins with `-` and is not `-` alone makes the words no command.
//!   - The other words are positionals, the empty word too. The first is FILE, the others are ARG in order.
//! - `list` and `history`: no positional. `show T` and `dataflow T`: one. `slice T LINE COL K`, and `value`, `replay`, `sources` and `effects` likewise: four. Each is decimal digits from 1 to 4294967295, leading zeros allowed. They have no options, and the
//!   first `--` is dropped likewise. They read the store of trials alone, and are each a [`Query`].
//! - `restore T`: one positional, which is such a number.
//!
//! [`read`] gives the command exactly where the words are one ([`Command`], `command_of` in `specs/Command.antt`). That FILE is
//! a path is not asked here.
#![tactic(auto)]

mod command;
mod number;
mod query;
mod reading;
mod words;

pub use command::{Command, Evaluation, Query};
pub use words::read;
