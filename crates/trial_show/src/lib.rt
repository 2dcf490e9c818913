//! The text of the command `show`, over any keeper, and what is amiss of a trial, in words.
//!
//! - [`show_text`] answers the lines of one trial, which is loaded whole: `shows` pins each byte by the trial (`show_bytes` of `specs/Shows.antt`), and says where
//!   there is none and what is amiss of one first, in the form of `load_trial`. `of_trial` holds over any keeper, also one that exposes nothing: the text is the lines
//!   of some trial with this number, whose text is its script and whose rows are kept rows.
//! - [`detail_text`] answers the words of a damage (`detail` of `specs/Details.antt`).
//!
//! A line is a word, a blank, what it says, and LF (`specs/Shown.antt`). Digests are SHA-1, in 40 lower-case hexadecimal digits. Where memory runs out no text is answered.
//!
//! `Keeper` is answered only where its count of faults rose. `Collision` and `Full` are never answered. A call that is always out of memory meets these
//! clauses: that calls succeed is not said here.
#![tactic(auto)]

mod arguments;
mod contents;
mod details;
mod functions;
mod heads;
mod lines;
mod show;

pub use details::detail_text;
pub use show::show_text;
