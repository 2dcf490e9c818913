//! What a statement does next at each of its stages, with the value that it waits for. It stands on the frames of `flow_frames`, on how
//! statements begin and are tested (`flow_openings`), and on their targets (`flow_targets`); what follows the end of a suite is in
//! `flow_suites`.
//!
//! Each function says that the frames mean what the stage means.
#![tactic(auto)]

mod following;
mod handling;
mod moving;

pub use following::after;
pub use handling::handled;
pub use moving::rest_after;
