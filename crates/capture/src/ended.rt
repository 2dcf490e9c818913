// How a run ended, and what it leaves.
use crate::Capture;
use prov_base::{Bytes, Name};

/// A file as a run leaves it.
#[derive(Drop, Debug)]
pub struct FileOut {
    /// Its path.
    pub path: Name,
    /// Its bytes.
    pub bytes: Bytes,
}

/// How a run ended.
#[derive(Drop, Debug)]
pub enum RunEnd {
    /// At the end of the script.
    Finished,
    /// By an exception that nothing caught.
    Raised {
        /// The name of its class.
        class: Name,
        /// The line of the innermost statement in which it was raised last.
        line: u32,
        /// Its argument, where it has one alone that is a text.
        text: Option<Name>,
    },
    /// Its steps did not suffice.
    Spent,
}

/// A run that is over: how it ended, the steps that it took, what it printed, the files that it opened for writing in order of first opening,
/// and what the devices gave it.
#[derive(Drop)]
pub struct Ended {
    /// How it ended.
    pub end: RunEnd,
    /// The steps that it took.
    pub steps: u32,
    /// What it printed.
    pub output: Bytes,
    /// The files that it opened for writing, in order of first opening.
    pub finals: Vec<FileOut>,
    /// What the devices gave.
    pub capture: Capture,
}
