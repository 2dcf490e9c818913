//! A trial written into a keeper, over any keeper, whole or not at all; and its contents and pages, read back.
//!
//! [`keep`] is given what a trial consists of: its contents, of which equal ones are kept once under their SHA-1 digest, its head, and the pages
//! of its rows, numbered from 0. It opens a batch, puts the contents in their order, adds the head and the pages, makes the trial the current one
//! of its path, and commits.
//!
//! - `keeps` says what stands afterwards: the tables with exactly that more (`write_in` of `specs/Written.antt`), or, after any refusal, what stood
//!   before. No batch is open then, whatever is answered.
//! - A clash names the first content under whose digest other bytes stand, with both lengths.
//! - `stops` says what a stop of the program leaves: after `Ok` the new tables alone, after a refusal one of those that it might have left
//!   before, or the tables with the whole trial.
//! - [`content`], [`contents`] and [`page`] answer what stands there with its digest, or what is amiss ([`Damage`]), and change nothing.
//! - `Keeper` is answered only where the keeper's count of faults rose. Out of memory may be answered at any time.
//!
//! Laws of the tables when a trial is kept.
//!
//! - [`kept_pages_are_read_back`]: the pages of a trial that was kept stand under its number, from 0 on, each with its digest.
//! - [`earlier_trials_stay`]: what stood before stands afterwards: heads and pages of earlier trials, contents, and the current trials of other paths. The new
//!   trial is the current one of its path.
#![tactic(auto)]

mod damage;
mod keeping;
mod laws;
mod paging;
mod putting;
mod read_fault;
mod reading;
mod write_fault;
mod writing;

pub use damage::Damage;
pub use keeping::keep;
pub use laws::{earlier_trials_stay, kept_pages_are_read_back};
pub use read_fault::ReadFault;
pub use reading::{content, contents, page};
pub use write_fault::WriteFault;
