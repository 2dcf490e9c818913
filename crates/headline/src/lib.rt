//! What the program promises of its slices, from the call that kept a run to the call that wrote a slice or ran it again.
//!
//! [`written_slices_run_again`]: every slice that `slice` writes of a trial that `run` kept is the script cut to the least closed set of statements, whose run in what
//! the devices gave has an equal value at the same occurrence, in no more steps (`specs/Headline.antt`). It is said over stores that expose their tables.
//!
//! [`replays_give_the_value`]: `replay` of such a trial writes the graph text that the evaluation has in it, as `value` does, in no more steps, and never ends with status 12.
//!
//! [`kept_trials_are_never_damaged`]: a command that reads the store and asks for such a trial, or for none, never ends with status 11, whatever calls came in between.
#![tactic(auto)]

mod laws;

pub use laws::{kept_trials_are_never_damaged, replays_give_the_value, written_slices_run_again};
