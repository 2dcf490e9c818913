//! The cases of the language: of `py_lines`, `py_tree`, `py_grammar`, `refused_forms`, `py_parser` and `slice_text`, by their
//! public calls alone. The rows of the input stand in the output again, each question with its answer behind ` => `, and the
//! gate compares that with the file `stdout`. The answers there come from the rules and from Python's `ast`, not from here.
//!
//! A row `== WORDS` begins a section, which says what is asked. The rows below it give texts, in which `\n`, `\r`, `\t`, `\0`,
//! `\s` (a blank) and `\xHH` stand for one byte each:
//!     +TEXT       adds the text and a line end
//!     *9 TEXT     adds the text nine times
//!     >9 TEXT     adds the text nine times, each behind one blank more, and nine blanks
//!     |TEXT       adds the text, and asks about the whole
//!     =WORDS      asks more about the last whole text
//! Other rows are comments.
#![tactic(auto)]

mod bench;
mod heads;
mod logical;
mod printing;
mod scripts;
mod tables;
mod texts;

use bench::Bench;
use std::io::{self, BufRead, BufReader};

fn main(rt: HostRuntime) -> io::Result<()> {
    let alloc = rt.alloc();
    let mut bench = Bench::new(alloc);
    for row in BufReader::new(alloc, rt.reader())?.lines(alloc) {
        let row = row?;
        match bench.answer(alloc, row.as_str())? {
            None => println!(rt; "{row}")?,
            Some(answer) => println!(rt; "{row} => {answer}")?,
        }
    }
    Ok(())
}
