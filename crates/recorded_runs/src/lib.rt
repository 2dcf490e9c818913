//! A script that is run over devices, recorded, and kept as a trial.
//!
//! - [`record_run`] runs a script over devices with a recorder (`RecordsRun` of `specs/RecordedRun.antt`). The run is that of `run_bare`, and the pages are those of the
//!   rows of its moments. The answers of its capture are put in ascending order of place and number (`PutsInOrder`), as a trial keeps them.
//!   Path and arguments are texts, and what is kept fits the types in which it is held (`specs/Typed.antt`).
//! - [`keep_run`] asks the clock for the start time, records the run, asks for the end time, and keeps the trial (`TimesRun` of `specs/KeptRun.antt`, and the
//!   clauses of `keep_trial`). A time is none where the clock failed and counted that. A fault in keeping loses nothing of the run.
//!
//! The laws: what is said of a recorded run is what is said of a bare one ([`recorded_runs_are_bare`]). Where both were given the same they come out alike
//! ([`recording_changes_nothing`]). In the capture that is kept the script comes out as it did, and asks what is kept and nothing else
//! ([`kept_captures_have_the_run`]).
//!
//! Out of memory before the keeping is the one free answer; the keeper is as before then. What devices gave is said in the order of asking: `asked` is the capture
//! before its answers were put in order.
#![tactic(auto)]

mod fitting;
mod keeping;
mod laws;
mod recording;

pub use keeping::{KeptRun, keep_run};
pub use laws::{kept_captures_have_the_run, recorded_runs_are_bare, recording_changes_nothing};
pub use recording::{Recorded, record_run};
