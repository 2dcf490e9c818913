//! The value of an evaluation of a kept trial, and how many steps the run had spent by then.
//!
//! - [`recorded_value`] answers for a loaded trial: the graph text of the value in the store that the rows hold just after the evaluation, and the steps up to
//!   it, as two lines (`IsValueAt` of `specs/Values.antt`). `NoEvaluation` comes exactly where the rows have no such evaluation. The script is not run.
//! - [`recorded_value_text`] answers the same of a trial in a keeper, which is loaded first: the two lines, or why there are none. `of_trial` holds over any keeper, also one that
//!   exposes nothing: the lines are those of some trial with this number, whose text is its script and whose rows are kept rows.
//! - [`one_value_of_a_trial`]: an evaluation of a trial has one value, or none.
//! - [`value_lines`]: the two lines.
//!
//! A value is that of the rows as they are stored. Rows that were altered by hand have the value of the altered rows, as long as the trial is well kept.
//!
//! The keeper's tables stay, whatever is answered. `Keeper` is answered only where its count of faults rose. A call that is always out of memory meets these clauses:
//! that calls succeed is not said here.
#![tactic(auto)]

mod laws;
mod lines;
mod text;
mod valuing;

pub use laws::one_value_of_a_trial;
pub use lines::value_lines;
pub use text::recorded_value_text;
pub use valuing::recorded_value;
