//! The rows of a trace read back as the events of a run, and an index of them.
//!
//! `specs/Moments.antt` reads rows as events. Texts and tuples are found in a table of all of them, which may have more than the rows that are read. A
//! row does not say which statement ends: it is the innermost that is open.
//!
//! - [`one_row_tells_one_moment`]: what one row more tells.
//! - [`rows_in_order_are_interned`]: the texts and tuples of a kept trial are such a table, and each row names what is in it.
//! - [`texts_of`], [`tuples_of`]: the texts and the tuples of rows, each at its number, not copied.
//! - [`rows_name_what_stands`]: in the rows of a run no two Text rows and no two Tuple rows are equal, and what a row names stands before it.
//! - [`rows_nest_as_moments`]: where events nest, as those of a run do (`moments_nest` of `py_model`), their rows nest.
//! - [`rows_tell_their_moments`]: writing such events as rows and reading them back gives the same events. The rows are at most 2^32, so that numbers
//!   of texts and tuples have 32 bits. [`interned_rows_tell_their_moments`]: so do rows whose texts and tuples are interned, of any number.
//!
//! `specs/RowOccurrences.antt` says which rows begin a statement, which occurrences are children of which, and whose own event a row tells, by the
//! definitions of occurrences in `py_model`. Rows are counted from 0, and a row number has 32 bits.
//!
//! - [`Index::new`]: the index of rows, in one pass. It may be made of any rows, also of those that are not well kept.
//! - [`Index::row`], [`Index::occurrences`], [`Index::children`], [`Index::call_site`], [`Index::owner`]: what it has. They take no memory, and
//!   each is one look-up.
//!
//! More than 2^32 rows are answered as out of memory, since their numbers would not fit. No trial of 1,000,000 steps has so many. A call that always answers
//! out of memory meets these clauses: that it succeeds is not tested yet of the index.
//!
//! That the numbers of statements, objects and activations in a run's rows are kept, and that the keys are keys, is not shown here.
#![tactic(auto)]

mod index;
mod laws;
mod nesting_laws;
mod numbers;
mod places;
mod telling_laws;
mod texts;
mod tuples;

pub use index::Index;
pub use laws::{one_row_tells_one_moment, rows_in_order_are_interned};
pub use nesting_laws::{rows_name_what_stands, rows_nest_as_moments};
pub use telling_laws::{interned_rows_tell_their_moments, rows_tell_their_moments};
pub use texts::texts_of;
pub use tuples::tuples_of;
