//! How a command ends. A command first comes to a plan: an ending, a text for the console, and files for the folder. [`deliver`] puts the
//! files in their order, each whatever became of those before it, writes the text and then the closing line, and answers the status.
//!
//! - Its clause `delivered` (`specs/Delivered.antt`) names what each call of a device answered. All else is a function of that and of the
//!   plan: what stands in the folder and on the console, the counts of faults, the ending, and so the closing line and the status.
//! - Out of memory at a put or at the text stands over all else. A fault of the store of trials that was planned stands over what comes
//!   behind it, for it came first. A put that failed stands over any other plan, by the path of the first. A fault at the text makes status 5,
//!   but a fault of the store or of the folder and out of memory stay, also where they were planned. A fault at the closing line changes
//!   nothing.
//! - Where memory runs out for the text of a closing line, that of status 8 is tried in its place. Where it runs out at the write of a
//!   closing line, no further line is tried.
//! - With a status other than 5, 6 and 8, where no fault of the store was planned, all stands but perhaps the closing line (`as_planned`). With status 0, or where no count rose
//!   and the status is not 8, all stands (`all_done`, `went_well`). The laws [`puts_stand`] and [`nothing_failed`] say what the outcomes
//!   come to, [`ends_in_one_way`] which statuses there are, and [`prefixes_are_written`] what is on the console in any case. [`done_is_whole`], [`no_count_rose`] and
//!   [`no_fault_answered`] say the clauses of `deliver` as laws.
//!
//! Any call may be answered as out of memory, so no clause rules out a body that ends with status 8 wherever something is to be put or
//! written. Which of the two devices is called first is not said either: neither tells of the other.
#![tactic(auto)]

mod ending;
mod last_line;
mod laws;
mod lines;
mod puts;
mod whole;

pub use ending::Ending;
pub use laws::{
    done_is_whole, ends_in_one_way, no_count_rose, no_fault_answered, nothing_failed,
    prefixes_are_written, puts_stand,
};
pub use whole::deliver;
