//! The run of a script beside the run of its slice (Korel and Laski, *Dynamic program slicing*, 1988).
//!
//! `specs/Renaming.antt` says which object of the one run stands for which of the other: those that kept statements made, in their order.
//! `specs/Related.antt` says when a state of the one run stands for a state of the other, and which moments stand for which.
//! `specs/Owned.antt` says which statement has which nodes, and when statements of two scripts stand at one place. `specs/Under.antt` says that
//! a kept statement stands in a kept one. `specs/Simulation.antt` states the simulation, and of which runs it speaks.
//!
//! `specs/BoundNames.antt` says whose the names are that a moment reads and sets, and what binds them.
//!
//! [`slices_simulate`], [`slices_reach_the_evaluation`] and [`values_are_reproduced`] are the laws of the simulation, of every run.
//! [`slices_reproduce`] is what they are for: the slice of an evaluation runs again to the same value. They ask that classes stand outside functions
//! (`Classes.antt` of `slice_law`). A script of the language is so: [`slices_of_scripts_simulate`] and [`slices_of_scripts_reproduce`] ask
//! nothing but that a text is a script.
#![tactic(auto)]

mod laws;

pub use laws::{
    accesses_keep_correspondence, deleted_moments_keep_the_relation, kept_moments_are_done_again,
    local_names_are_of_their_activation, objects_of_both_runs_correspond, renaming_keeps_equality,
    slices_have_functions_of_the_script, slices_of_scripts_reproduce, slices_of_scripts_simulate,
    slices_reach_the_evaluation, slices_reproduce, slices_simulate, values_are_reproduced,
};
