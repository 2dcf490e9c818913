//! The store of trials in a database file, by the crate `sqlite`: `SqliteKeeper`, over the tables `trial`, `page`, `content` and `current`.
//!
//! What a disk gives and keeps is beyond these proofs, so the keeper tells nothing of its tables: its clauses carry safety and causes alone. A call
//! answers `KeepFault::Failed` only where the count of faults rose in that call or stands at its end. Out of memory is never counted. A batch is open
//! exactly as `Keeper` says. What the open batch has comes before what the file has, by a clause of the function that each reader calls.
//!
//! `sqlite` opens a file for one program alone. While another has it open, the opening waits, up to 60 seconds, and only then fails. The file is opened by the first
//! call of the keeper, so a run waits when its script is over, and holds the file no longer than it takes to keep the trial.
//!
//! What no clause can refuse, and what has to be read off the few lines of the adapters instead, is
//! - that they ask the file at all, at which path, and that they make its folder. A body that always answers `Memory`, or that counts a fault where
//!   the database named none, tells as little as the real one;
//! - which of these functions a call makes, that a writer puts what it is given into the batch, and that the batch is empty while none is open;
//! - the texts of the statements, and which value goes to which column;
//! - that `commit` writes the whole batch in one transaction. The transaction of `sqlite` rolls back where it is dropped before its own `commit`.
#![tactic(auto)]

mod columns;
mod fault;
mod file;
mod keeper_sqlite;
mod readers;
mod tasks;
mod writers;

pub use crate::keeper_sqlite::SqliteKeeper;
