//! The real devices of the program: its console, which is standard input and standard output, its folder, which is the one
//! where the user stands, and the system's clock and source of random bits. Each is a thin adapter over the system's own calls.
//!
//! What a terminal, a disk or a clock gives and keeps is beyond any proof, so these devices tell nothing of content: their
//! clauses carry safety and causes alone. A call answers `Trouble::Failed` only where its own count of faults rose in
//! that call or stands at its end, and leaves the other counts as they were. Out of memory is never counted.
//!
//! The work is done by loops over any source and any sink. Their clauses do speak of content wherever the source or
//! the sink tells its bytes: a line, a file and a written text come whole and in order, and a refusal loses nothing
//! that was read. What no clause can refuse, and what has to be read off the few lines of the adapters instead, is
//! - that they ask the system at all. A body that answers `Memory`, `None`, `Absent` or `Ok` at once, that invents a time or
//!   a word, or that counts a fault where the system named none, tells as little as the real one;
//! - which stream, which path and which bytes an adapter hands to the loops.
//!
//! The loops are public, so that sources and sinks which fail in mid-stream can be put to them from outside.
//! `outside_cases` does so, and runs each real call.
#![tactic(auto)]

mod clock_and_random;
mod console;
mod faults;
mod folder;
mod lines;
mod stream;

pub use clock_and_random::RealClockAndRandom;
pub use console::RealConsole;
pub use folder::RealFolder;
pub use lines::Unread;
pub use stream::{read_whole, write_whole};
