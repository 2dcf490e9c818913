//! Which evaluations of a run feed which: chains of values that pass from operation to operation (this project's profile).
//!
//! - `specs/Feeding.antt` says which event of a run feeds which: the operations whose answers it takes along the links of the script (`value_links`); for the value
//!   of a call that which gave the value of the `return`; and those that set or changed what it reads.
//! - [`feeding_sites`] gives the sources of the k-th evaluation at a place, from which chains of feedings lead to it, or its effects, to which they lead from it, in the
//!   order of their events (`AreFed` of `specs/Sites.antt`). `None` comes exactly where the rows have no such evaluation.
//!
//! One pass over the rows finds what passes to each event. A pass forward then marks what is fed, and a pass backward what feeds, each with a flag for every location, so
//! the cost grows with rows, accesses and passed values alone, times the look-up in a map.
//!
//! A call that is always out of memory meets these clauses: that calls succeed is not said here.
#![tactic(auto)]

mod answers;
mod backward;
mod dones;
mod fed;
mod finding;
mod flags;
mod forward;
mod frames;
mod kinds;
mod marks;
mod noting;
mod site;
mod sites;
mod stack;

pub use answers::feeding_sites;
pub use site::{Site, Sites, Way};
