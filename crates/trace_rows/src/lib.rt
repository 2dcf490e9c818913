//! The rows of a trace, and pages of them as bytes, both ways.
//!
//! `specs/RowBytes.antt` says which bytes a row is and which rows have them: numbers are in range, an operation has one of the numbers of
//! operations, and a content or a change is of its location's own kind. `specs/PartBytes.antt` says it of texts, answers and endings, of where an
//! operation is done, and of what it answers, makes, touches and weighs. `specs/Page.antt` says what a page is, and where bytes stop being one.
//!
//! - [`encode_page`]: the bytes of the rows, whatever rows they are.
//! - [`decode_page`]: the rows that have exactly these bytes; else where the longest front that is rows ends.
//! - [`pages_are_read_one_way`]: a page has one list of rows, and bytes that are no page have one place where they stop being rows.
//!
//! A call that is always out of memory meets these clauses: that they succeed is tested.
#![tactic(auto)]

mod fault;
mod laws;
mod outcome_tags;
mod page;
mod reading;
mod reading_rows;
mod row;
mod tags;
mod writing;
mod writing_outcomes;

pub use fault::PageFault;
pub use laws::parts_are_read_exactly;
pub use page::{decode_page, encode_page, pages_are_read_one_way};
pub use row::{Pages, Row, Rows};
