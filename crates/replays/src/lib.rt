//! A script run again with the answers of a capture, up to one evaluation, and the graph text of the value there.
//!
//! [`replay_text`] runs a script with kept answers and stops behind the k-th evaluation at a place. It answers the graph text of the value in the store just
//! after it, and the steps up to it (`IsReplayText` of `specs/Replay.antt`). `NotReached` comes only where the whole run with these answers lacks it.
//!
//! The watch of the run is a recorder that refuses what comes behind the evaluation. So the run ends there, as one that is out of memory does, and what was
//! told begins what the whole run tells. The text is read off the rows of these events, as that of a kept trial is.
//!
//! - [`one_replay`]: a replay has one text and one number of steps, or lacks the evaluation.
//! - [`replayed_slices_give_the_value`]: where the run of a slice gives the value again, its replay does not lack the evaluation. The text is that of the
//!   script's run, in no more steps.
//!
//! How many evaluations are counted is in no clause: where the run is stopped too early, the answer is out of memory. A call that is always out of memory meets
//! these clauses.
#![tactic(auto)]

mod laws;
mod replaying;
mod running;
mod seeker;

pub use laws::{one_replay, replayed_slices_give_the_value};
pub use replaying::{ReplayFault, replay_text};
