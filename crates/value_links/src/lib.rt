//! Which operation takes the answer of which, by the forms of a script (this project's profile).
//!
//! - `specs/Links.antt` has a link for each operand, argument, target and test of a script. [`links_of`] gives them.
//! - `specs/Taken.antt` says which answers an operation takes along links, from those that were done in its occurrence of the statement: at each link the last one, unless
//!   that of a rival is later. [`Taking`] finds them by the point that takes.
//! - [`places_of`] gives the places of the statements of a script.
#![tactic(auto)]

mod expr_links;
mod link;
mod links;
mod making;
mod places;
mod taking;
mod target_links;

pub use link::{Link, Point};
pub use links::links_of;
pub use making::{A_RETURN, AN_ENTER};
pub use places::places_of;
pub use taking::Taking;
