//! Which statement of a kept trial depends on which, and why (dynamic dependences, Korel and Laski, *Dynamic program slicing*, 1988, in this project's profile).
//!
//! - [`dependences`] answers for rows: all dependences of the run that they tell, by data, control, jump and name, each once and in order (`AreDependences` of
//!   `specs/Dependences.antt`). They are the edges of `slice_law` over the whole run, with the places of the statements.
//! - [`dataflow`] answers for a loaded trial: a line for each, and behind the first 100,000 `more` if there are more (`IsDataflow` of `specs/Dataflows.antt`).
//! - [`dataflow_text`] answers the same of a trial in a keeper, which is loaded first: the lines, or why there are none. `of_trial` holds over any keeper, also one that
//!   exposes nothing: the lines are those of some trial with this number, whose text is its script and whose rows are kept rows.
//! - [`feeding`] and [`feeding_text`] answer in the same two ways which evaluations feed one, or which ones it feeds: a line for each (`IsFedText` of
//!   `specs/SiteTexts.antt`).
//! - [`one_dataflow_of_a_trial`]: a trial has one dataflow, and by [`one_feeding_of_a_trial`] one text of each feeding. [`order_of_dependences`]: dependences are ordered as their lines are.
//!
//! For a dataflow the rows are passed once, by `slice_edges`. Each dependence is then put into a tree, so the cost grows with rows and dependences, times a logarithm.
//!
//! The keeper's tables stay, whatever is answered. `Keeper` is answered only where its count of faults rose. A call that is always out of memory meets these clauses:
//! that calls succeed is not said here.
#![tactic(auto)]

mod answering;
mod dependence;
mod fed;
mod fed_text;
mod gathering;
mod laws;
mod lines;
mod noting;
mod site_lines;
mod text;

pub use answering::dataflow;
pub use dependence::{Dependence, Kind, order_of_dependences};
pub use fed::feeding;
pub use fed_text::feeding_text;
pub use gathering::dependences;
pub use laws::{one_dataflow_of_a_trial, one_feeding_of_a_trial};
pub use text::dataflow_text;
