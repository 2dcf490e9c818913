//! The store of trials as a trait, `Keeper`: four tables, which are the heads of trials, their pages, contents by digest and the
//! current trial of each path, and a batch of changes that is open or not. Readers see the tables with the open batch over
//! them. `commit` makes the batch part of the tables, whole or not at all, and says which tables a stop may leave.
//!
//! `Batch` is how a keeper holds its open batch. `page_in`, `content_in` and `current_in` look entries up, a later one over an earlier one with
//! the same key, and `copied_bytes` and the `copied` of heads and pages copy what is kept.
//!
//! A call that always answers `Memory` meets its clauses, since no clause can say that memory is left: that calls succeed is
//! tested by `keeper_cases`.
#![tactic(auto)]

mod batch;
mod entries;
mod fault;
mod keeper;
mod records;

pub use crate::keeper::Keeper;
pub use batch::Batch;
pub use entries::{content_in, current_in, page_in};
pub use fault::KeepFault;
pub use records::{Head, Page, copied_bytes};
