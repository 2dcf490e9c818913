//! How a part of a statement begins, its suite, next turn, next target or next handler; and what follows the end of a suite: the next turn of a loop,
//! the first handler, what a `with` and a class do at their end. It stands on how statements begin (`flow_openings`), on their stages (`flow_stages`)
//! and on the targets of `flow_targets`.
//!
//! `specs/Running.antt` says what a part begins as.
#![tactic(auto)]

mod ending;
mod running;

pub use ending::part_ended;
pub use running::{Opened, Way, part_opened};
