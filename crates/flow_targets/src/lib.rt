//! How values are stored in the targets of statements, by an assignment or a turn of a `for`; augmented assignments; and how an item is deleted. It
//! stands on the frames of `flow_frames`. Each function says that the frames mean what the stage means.
//!
//! `specs/Changing.antt` says how augmented assignments begin.
#![tactic(auto)]

mod changing;
mod spreading;
mod storing;

pub use changing::{augmented, based, changed, loaded, sided, slotted};
pub use spreading::{item_at, several_in};
pub use storing::{goal_target, held, indexed, keyed, owned, reached, stored, target_at};
