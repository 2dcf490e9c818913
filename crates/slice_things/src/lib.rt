//! What the rows of a trial leave of its objects, as far as it matters for what is reachable: kinds, lengths, what stands in items and entries,
//! and which keys stand in orders. One pass over the rows, in order.
//!
//! Equal keys have one form ([`Forms`]): a truth value is the integer 0 or 1, inside tuples too. Forms have numbers of a table of their own, in
//! which the trial's tuples come first, so the trial's numbers stay as they are. `specs/Things.antt` says what is known after rows, of the
//! store just after them.
//!
//! - [`Forms::of`]: the forms of all texts and tuples of a trial. Its success shows that numbers of 32 bits are enough for them.
//! - [`Things::new`]: what is known before all rows.
//! - [`Things::pass`]: what is known before a row becomes what is known after it.
//! - [`Things::list_ends`]: where each list ends, by its first missing item or its length.
//! - [`Things::shape`], [`Things::has_item`], [`Things::has_entry`]: what an object is, and whether a place is its own. The place of the first missing
//!   item is; that of a key without an entry is not.
//! - [`Things::children`]: the values that objects hold, and the law [`children_are_held`]: they are those of the store.
//!
//! A call that always answers out of memory meets these clauses: that it succeeds is tested.
#![tactic(auto)]

mod children;
mod counts;
mod forms;
mod held;
mod orders;
mod things;

pub use children::children_are_held;
pub use counts::Counts;
pub use forms::Forms;
pub use held::Held;
pub use things::{Shape, Things};
