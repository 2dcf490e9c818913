//! Which rows a well kept trial may have.
//!
//! `specs/KeptRows.antt` says it of each row by the rows before it. No two Text rows are equal, and no two Tuple rows. A number names what is
//! earlier, the object that its own row makes, or the activation that its own row enters. Keys are keys, and in a location they are normal
//! (`specs/Keys.antt`). An End closes the innermost statement and a Leave the innermost activation; what is open at the end may stay open
//! (`specs/Nesting.antt`). That a content is of its location's own kind is known of rows that were read from a page (`trace_rows`), and is
//! not asked here.
//!
//! - [`first_unkept`]: None exactly where rows are kept, else the number of the first row with which they no longer are.
//!   [`one_row_is_first_unkept`]: never both, and never two.
//! - [`keys_of_rows_are_keys`]: the keys here are those of a run, of which nothing is refused.
//! - [`kept_rows_name_in_order`]: no text and no tuple of kept rows stands twice, and what a row names stands before it.
//!
//! Equal texts and tuples are found by their numbers in a `Values`, and how deep a tuple is as a key is noted once for each. A call that
//! always answers out of memory meets these clauses: that it succeeds is tested by `row_cases`.
#![tactic(auto)]

mod counts;
mod heights;
mod keys;
mod laws;
mod nesting;
mod numbers;
mod row_tests;
mod seen;
mod tables;
mod unkept;

pub use counts::Counts;
pub use laws::{kept_rows_name_in_order, keys_of_rows_are_keys, one_row_is_first_unkept};
pub use nesting::Open;
pub use unkept::first_unkept;
