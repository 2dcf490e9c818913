//! Which statement asks for which, and why, in the rows of a trial: one pass over the rows, in order (dynamic slices, Korel and Laski 1988, in this
//! project's profile).
//!
//! `specs/HasAsked.antt` says what is known after rows: what is open, the statements of the reach of each location, and which pairs of
//! statements the edges of the moments so far have, with their reasons. Edges from a statement to the one that has it in its suite are not among these: they
//! are the same for each trial of a script.
//!
//! - [`Asking::pass`]: what is known before a row becomes what is known after it, wherever the row's texts and tuples are found in a table
//!   in which each stands once (`rows_in_order_are_interned` of `row_moments`).
//! - [`Asking::owner`], [`Asking::is_open`], [`Asking::locations`], [`Asking::writers`], [`Asking::edges`]: what is known.
//! - [`known_pairs_are_edges`]: what the tests in these clauses mean.
//!
//! The first read of a location by a statement after a Set costs as many steps as the location has statements in its reach, and each further one as many as came
//! since, or at most eight. The first two Updates of a location by a statement after a Set cost as many as it has, each further one a look-up. The first read of an unset local name in a function costs two
//! searches by halves for each statement of the script, and each further one a look-up. A call that always answers out of memory meets these clauses: that it succeeds is tested.
#![tactic(auto)]

mod ask;
mod asking;
mod binder;
mod counts;
mod frames;
mod known;
mod laws;
mod memo;
mod reads;
mod stmts;
mod writers;

pub use ask::{Ask, Why};
pub use asking::Asking;
pub use laws::known_pairs_are_edges;
