//! The store that the rows of a trial hold at an evaluation, and the graph text of its value.
//!
//! - [`value_text`]: from the rows of a well kept trial, the graph text of the value of an evaluation in the store just after it, and the steps up to
//!   it, or that there is no such evaluation (`specs/ValueTexts.antt`). It stands on all that follows. Each row is looked at five times at most: for the
//!   evaluation, for texts, for tuples, in the pass up to the evaluation, and for the steps.
//! - [`RowStore`]: one pass over rows, in order. It keeps what graph texts read: kinds, lengths, items, entries with their first keys, offsets, and what
//!   was closed. Of an order it keeps what was done to it since it was set, so a row costs the same however long the order is. `specs/Leaves.antt` says
//!   what holds after rows, of the store just after them.
//! - [`Held`]: the same with the keys of each order and with the texts and tuples, read by `graph_texts`. Each order is settled once: of each form of a
//!   key so many were taken out, and these are the first. `specs/HeldStore.antt` says that it is read as the store of the rows is.
//!
//! Equal keys have one form (`Forms` of `slice_things`). The path and the arguments are texts of the opening store, and rows need not have them: they
//! go behind the texts of the rows, each where it is not there.
//!
//! Rows need not be those of a run: a well kept trial may set an order with keys that are equal, or delete one that is not there. What is asked of a
//! store is what its definition says then. A call that is always out of memory meets these clauses: that they succeed is to be tested.
#![tactic(auto)]

mod costs;
mod finding;
mod front;
mod held;
mod kept;
mod orders;
mod pass;
mod printing;
mod reading;
mod settling;
mod steps;
mod tally;
mod words;

pub use held::Held;
pub use kept::Kept;
pub use pass::RowStore;
pub use printing::{ValueFault, value_text, words_of};
pub use steps::{Step, Steps};
