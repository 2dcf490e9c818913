//! The three records of a kept trial as bytes, both ways: its arguments, its capture, and its final files.
//!
//! `specs/RecordBytes.antt` says which bytes a record is. A content stands in a record by its SHA-1 digest, which the caller gives.
//!
//! `specs/RecordFits.antt` says which values have a record: numbers are in range, an answer is of a kind that its question may have, a path is one that
//! a script may open, and lists by a key ascend. `specs/RecordFaults.antt` says where bytes stop being a record.
//!
//! - [`encode_arguments`], [`encode_capture`], [`encode_finals`]: the bytes of the values, whatever values they are.
//! - [`decode_arguments`], [`decode_capture`], [`decode_finals`]: the value whose record the bytes are; else the byte at which the first count or item
//!   begins that is not so, or the first byte behind the record.
//! - [`records_are_read_one_way`]: two values with the same bytes are the same, and bytes that are no record have one such place.
//! - [`lists_are_in_order`]: which answers and files ascend, as `capture` says it.
//!
//! A call that always answers out of memory meets these clauses: that they succeed is not said here.
//!
//! The trial of a run, kept over any keeper.
//!
//! [`keep_trial`] is given a run that is over: the script's text and path, its arguments, the budget, how it ended and what its devices gave, the pages of its
//! rows, and when it began and ended. It asks how many trials there are and which is current for the path, and then keeps the trial in one batch.
//!
//! - `keeps` says which tables stand afterwards: those before with the run's trial (`with_trial_of` of `specs/Trial.antt`), under the next number, or, after
//!   any fault, those before. `Full` comes exactly from 1,000,000 trials on. `Collision` comes only where other bytes stand under the digest of a
//!   content, and names the first such content; then no trial is kept.
//! - The contents are put in the order script, arguments, capture, files that were found by path, files as the run left them, output, record of these
//!   files. Equal contents are kept once. The head has their digests.
//! - `stops` says what a stop of the program leaves: the whole trial, or none of it.
//! - The count of faults of the keeper never falls, and it rose where `Keeper` is answered. Out of memory may be answered at any time.
//!
//! [`head`] answers one head, and [`list`] all of them in their order. Neither looks at what the heads name.
//!
//! The answers of the capture are kept in the order in which it has them: the caller puts them in order first, as a trial that is well kept has them.
#![tactic(auto)]

mod contents;
mod decoding;
mod encoding;
mod fault;
mod heads;
mod keeping;
mod laws;
mod reading_items;
mod reading_lists;
mod reading_words;
mod record;
mod record_fault;
mod records;
mod run_head;
mod tags;
mod writing;

pub use decoding::{decode_arguments, decode_capture, decode_finals};
pub use fault::TrialFault;
pub use heads::{head, list};
pub use keeping::keep_trial;
pub use laws::{lists_are_in_order, records_are_read_one_way};
pub use record::{CaptureRecord, FileRecord, FinalRecord, FinalRecords, FoundRecord};
pub use record_fault::RecordFault;
