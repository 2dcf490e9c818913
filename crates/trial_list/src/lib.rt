//! The text of the command `list`, over any keeper.
//!
//! - [`list_text`] answers a line for each trial, by number: number, status, steps, start and path in their columns, and LF. `lists` pins each byte
//!   (`list_bytes` of `specs/Lines.antt`), and says that the keeper's tables stay as they were, whatever is answered. `of_heads` holds over any keeper, also one that
//!   exposes nothing: the text is the lines of some heads.
//! - A start ([`moment_text`]) is written as `YYYY-MM-DDTHH:MM:SSZ` in UTC, rounded down to the second also before 1970, and as `-` where the clock failed.
//!   `specs/Dates.antt` says it with the lengths of years and months alone. The code takes date and time from `jiff`, whose contract counts days
//!   from the year -10000; that both come to the same is proved for every instant of an `i64`.
//! - [`dates_are_written`] has worked rows: the epoch, one nanosecond before it, a leap day, the last day of February 1900, and the first and
//!   the last instant.
//!
//! `Keeper` is answered only where its count of faults rose. `NoTrial`, `Damaged`, `Collision` and `Full` are never answered. A call that is always out of
//! memory meets these clauses: that calls succeed is not said here.
#![tactic(auto)]

mod dates;
mod lines;
mod lists;

pub use dates::{dates_are_written, moment_text};
pub use lists::list_text;
