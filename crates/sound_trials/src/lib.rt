//! Sound trials, and what the slices of such trials promise.
//!
//! `specs/Sound.antt`: a trial is sound where its rows, steps, output and final files are those of the run of its script in what it keeps of the devices' answers.
//!
//! - [`slices_of_sound_trials_run_again`]: what `slice` writes of a sound trial is the script cut to a set of statements, and the script without the others runs
//!   again to an equal value at the same occurrence, in no more steps.
//! - [`kept_trials_are_sound`]: where a recorded run was kept as a trial, the trial that is loaded then, or after more runs were kept, is sound.
//! - [`slices_of_kept_trials_run_again`]: so every slice of such a trial runs again.
//! - [`recorded_runs_can_be_read`]: a recorded run whose path is one that a script may open can be read back once it is kept (`CanBeRead` of `trial_loading`).
//! - [`recorded_runs_are_never_damaged`]: so the trial of such a run is never told as damaged, then and after more runs were kept.
#![tactic(auto)]

mod kept_laws;
mod laws;

pub use kept_laws::{
    kept_trials_are_sound, recorded_runs_are_never_damaged, recorded_runs_can_be_read,
    slices_of_kept_trials_run_again,
};
pub use laws::slices_of_sound_trials_run_again;
