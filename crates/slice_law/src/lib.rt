//! Dynamic slices (Korel and Laski, *Dynamic program slicing*, 1988) over the moments of a run: which statements a value needs, by data,
//! control, jumps, calls and names.
//!
//! `specs/Edges.antt` says which statement asks for which, each at one moment, and which are asked for by the value itself.
//! `specs/Closed.antt` says what a closed set is, and the least one. Sets are tests into `Bool`. `specs/Reached.antt` says as a relation what is
//! reached from a value. A list ends at its first missing item; the place of that one is reached still, and [`missing_items_have_no_reach`] says
//! that nothing is asked for by it (`specs/SetItems.antt`). `specs/Slices.antt` states what a slice promises, which `slice_simulation` proves of
//! scripts whose classes stand outside functions (`specs/Classes.antt`), as those of the language do.
#![tactic(auto)]

mod laws;

pub use laws::{
    closed_sets_have_parents, closed_sets_meet, least_is_asked, missing_items_have_no_reach,
    needed_is_least, reachable_is_reached,
};
