//! The text of the past, over any keeper, and a trial put back.
//!
//! - [`history`] answers a line for each trial, by number: number, parent (`-` where it has none), `*` where it is the current one of its path, and path. `tells` pins each
//!   byte (`history_bytes` of `specs/History.antt`), and says that the keeper's tables stay as they were, whatever is answered. `of_heads` holds over any keeper, also one
//!   that exposes nothing: the text is the lines of some heads. It reads heads and the current trials of their paths alone, and loads no trial.
//! - [`history_is_written`] has a worked history.
//! - [`restore`] loads a trial whole, puts its script at its path and then each file that its run found with bytes, by path, into a folder, and makes the trial the current
//!   one of its path, in one batch. `restores` says by cases how far it came (`Restores` of `specs/Restoring.antt`): which files were put, what stands in the folder,
//!   what was told of them, and the store's tables. It stops at the first refused put, and then the store is as before. Any bytes may stand at the path of a refused put. `stops` says
//!   which tables a stop of the program may leave.
//! - [`trials_are_restored_one_way`]: from one state of a store and a folder, a trial is restored in one way, or is not there, or has one first damage. [`restored_files_stand`] says
//!   what a restored trial leaves.
//!
//! `Keeper` is answered only where its count of faults rose, and `Folder` only where that of the folder did. Out of memory may be answered at any time, and calls that always answer it
//! meet these clauses: that calls succeed is not said here.
#![tactic(auto)]

mod current;
mod fault;
mod laws;
mod lines;
mod marks;
mod puts;
mod restoring;
mod text;

pub use fault::RestoreFault;
pub use laws::{restored_files_stand, trials_are_restored_one_way};
pub use restoring::restore;
pub use text::{history, history_is_written};
