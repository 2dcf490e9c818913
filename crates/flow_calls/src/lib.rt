//! Calls of functions and classes of a script. It stands on the frames of `flow_frames`, on `script_names`, and on the operations of `interp_eval`.
//!
//! - Which function is called, or why the call fails; the making of an object, with what its walks came to.
//! - The entry and the end of an activation: each is done by the doer, its cost is paid, and the watch is told.
#![tactic(auto)]

mod calling;
mod choosing;
mod walking;

pub use calling::{enter, leave};
pub use choosing::{Called, called_by, in_front};
pub use walking::{Walk, perform_walk};
