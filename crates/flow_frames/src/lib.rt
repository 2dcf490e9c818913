//! The frames of a running script: what is done now, what follows a value, and what waits for an end. Read as actions they always mean the rest of the
//! script. It stands on the meaning of `py_model` and on the evaluation of expressions of `interp_eval`.
//!
//! A *part* of a statement is the statement with a stage. `specs/Machine.antt` says in the words of the meaning what parts and frames still mean
//! (`remaining`), `specs/Seen.antt` which machine the frames are, and `specs/Held.antt` what is held of the values in them.
#![tactic(auto)]

mod codes;
mod control;
mod frames;
mod telling;

pub use codes::Code;
pub use control::{
    Callee, Caller, End, Giving, Goal, Now, Part, Stage, Work, branch_at, is_true, on_none, on_one,
    on_three, on_two, start, target_in,
};
pub use frames::{FlowFrames, Frame, Spot, Waits};
pub use telling::{begin, close};
