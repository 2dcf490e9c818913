//! What the moments of every run name, so that the rows of a run are well kept.
//!
//! - [`runs_name_what_is_there`]: statements of the script, objects that were made, and activations that were entered (`specs/Below.antt`).
//! - [`runs_have_keys`]: what stands as a key is a key (`specs/Keys.antt`).
//! - [`runs_open_paths_alone`]: what is fetched, and what is opened for writing, has a path that a script may open.
//!
//! For the objects no operation is taken apart. Its plan is alike to itself under a renaming that moves all objects which are not there yet
//! (`corresponding_operands_have_alike_plans` of `py_model`), so it names none of them. That keys are keys, and that an object which is made is in
//! none of its own values, is shown operation by operation (`proofs/Flow.antt`), as `model_laws` shows where functions and classes come from.
#![tactic(auto)]

mod laws;

pub use laws::{
    rows_of_runs_are_kept, runs_have_keys, runs_name_what_is_there, runs_open_paths_alone,
};
