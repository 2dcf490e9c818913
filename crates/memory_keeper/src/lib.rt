//! A keeper of trials in memory, which tells all that it holds and fails exactly at the calls that it is told to. It meets every clause of
//! `Keeper`.
//!
//! A call that always answers `Memory` meets its clauses, since no clause can say that memory is left: that calls succeed is
//! tested by `keeper_cases`.
#![tactic(auto)]

mod held;
mod memory_keeper;
mod tables;

pub use crate::memory_keeper::MemoryKeeper;
pub use tables::Tables;
