//! The run of the slice of an evaluation of a kept trial: the value that it gives there, and its steps.
//!
//! - [`replay_slice`] answers for a loaded trial. It takes the slice of the evaluation, as `trial_slice` writes it, and runs it on the trial's path and arguments, with the
//!   answers that the trial keeps and the steps that it took. The two lines are the graph text of the value in the store just after the evaluation, and the steps up to it
//!   (`IsReplayAt` of `specs/Replays.antt`). `NotReached` comes exactly where that run does not have the evaluation. No device is asked.
//! - [`replayed_text`] answers the same of a trial in a keeper, which is loaded first. `of_trial` holds over any keeper, also one that exposes nothing: the answer is that of some
//!   trial with this number, whose text is its script and whose rows are kept rows.
//! - [`one_replay_of_a_trial`]: an evaluation of a trial has one replay, or is not there.
//!
//! Of a trial whose rows were altered by hand the slice is that of the altered rows. Its run may lack the evaluation: that is `NotReached`.
//!
//! The keeper's tables stay, whatever is answered. `Keeper` is answered only where its count of faults rose. A call that is always out of memory meets these clauses:
//! that calls succeed is not said here.
#![tactic(auto)]

mod laws;
mod replaying;
mod text;

pub use laws::one_replay_of_a_trial;
pub use replaying::{Replayed, replay_slice};
pub use text::replayed_text;
