//! The slice of an evaluation of a kept trial (Korel and Laski, *Dynamic program slicing*, 1988): the trial's script without the statements on which the value does not depend.
//!
//! - [`extract`] answers the slice of a loaded trial: the least closed set of statements over the stored rows, and the script cut to it (`IsSliceOf` of `specs/Sliced.antt`).
//!   `NoEvaluation` comes exactly where the rows have no such evaluation. The script is not run.
//! - [`slice_text`] answers the same of a trial in a keeper, which is loaded first: the text of the slice, or why there is none (`SlicesTrial` of `specs/Slices.antt`).
//!   `of_trial` holds over any keeper, also one that exposes nothing: the text is the slice in some trial with this number, whose text is its script and whose rows are
//!   kept rows (`SlicesSome`).
//! - [`one_slice_of_a_trial`]: an evaluation of a trial has one slice, or none.
//!
//! A slice is that of the rows as they are stored. Rows that were altered by hand have the slice of the altered rows, as long as the trial is well kept.
//!
//! The keeper's tables stay, whatever is answered. `Keeper` is answered only where its count of faults rose. A call that is always out of memory meets these clauses:
//! that calls succeed is not said here.
#![tactic(auto)]

mod extracting;
mod fault;
mod laws;
mod text;

pub use extracting::{Slice, extract};
pub use fault::EvaluationFault;
pub use laws::one_slice_of_a_trial;
pub use text::slice_text;
