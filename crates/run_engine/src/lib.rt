//! A script run to its end.
//!
//! [`run`] runs it over any doer of operations and any watch. It answers how the run came out, in each state of a run for which the doer stood as it began, whatever capture fits the doer afterwards
//! (`Runs` in `specs/Run.antt`): the outcome of the script's meaning with so many steps, the state that the doer stands for then, the steps that
//! are left, and that the watch was told each moment and no other.
//!
//! [`run_bare`] runs a script over devices (`RunsBare` in `specs/Bare.antt`): what it answers is the run of the script in the capture that it answers, and
//! that capture is what the devices gave. Nothing is written and no file is put. [`run_recorded`] does the same with a watch, which is told exactly the
//! moments of that run (`RunsRecorded`).
//!
//! Several targets that one of several is, as in `a, (b, c) = e`, are in no script of the grammar (`targets_are_flat` of `py_grammar`). A run that came
//! to store in some would answer out of memory.
#![tactic(auto)]

mod bare;
mod ending;
mod engine;

pub use bare::{run_bare, run_recorded};
pub use engine::run;
