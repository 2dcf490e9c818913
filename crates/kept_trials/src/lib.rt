//! A run that was kept as a trial is never told as damaged.
//!
//! - [`kept_runs_are_never_damaged`]: its pages hold the rows of its events, which are well kept (`rows_of_runs_are_kept` of `kept_runs`). Its script
//!   and its records are read back (`kept_trials_are_read_back` of `trial_loading`). So nothing is amiss of it, nor of a trial in other tables under which all of it stands.
//!
//! For the crates above it gives on [`runs_open_paths_alone`] of `kept_runs`: which paths stand in the records of a run.
#![tactic(auto)]

mod laws;

pub use kept_runs::runs_open_paths_alone;
pub use laws::kept_runs_are_never_damaged;
