//! The end of an operation, done to what is held of a run: where an operation has come to the end of its plan, [`complete`] takes memory for all
//! its writes, does them, and answers what is told of it.
//!
//! - What is held is a store over numbers of texts and tuples; `Holds` (`specs/Holding.antt`) says for which stores of a run it stands. Files
//!   that a device has and that were not fetched yet may stand in the run's store besides.
//! - [`complete`]: whatever plan of `py_model` the operation followed, its effect in the run's store is what is told of it: answer, object made,
//!   accesses, weight and method. It is paid for, and what is held afterwards is the run's store then (`IsHappened` in `specs/Happening.antt`).
//!   The plan's writes have to suit that store, which `op_parts` says of every operation.
//! - [`operations_happen`]: so one that asks nothing happened in a run as it is told; and one that came to more than can be paid for did not happen.
//! - [`holding_is_seen`]: what is held is seen by the work of an operation (`IsSeen` of `op_work`).
//!
//! What is held of a run between its operations, and how an operation comes to its end in it.
//!
//! - [`Held`]: the work of operations, the paths that were opened for writing, and all that was printed. `StandsHeld` (`specs/Held.antt`) says for
//!   which stores of a run it stands.
//! - [`Held::new`]: what is held as a run begins stands for the store with which it begins.
//! - [`Held::end`]: whatever plan an operation followed, it happened as it is told, or it costs more than is left, or memory ran out. An exception
//!   that it comes to is made and raised here. Memory for all is taken before the first change.
//! - [`begin`]: an operation begins. A crate above then follows its plan on the work of what is held, which is a public field.
//! - [`Held::place`]: what a device has at a path is put into what is held, which goes on to stand for the same stores.
//! - [`Held::enter`]: the parameters of an activation are set, each in order. [`Held::word`]: the number of a text.
//! - [`Held::finals`]: the files that the run opened for writing. [`Held::uncaught`]: what is said of an exception that nothing caught.
//! - [`drop_held`]: what is held is let go.
//!
//! An operation that made a file object whose file is not there would be refused as out of memory. No plan makes one.
#![tactic(auto)]

mod beginning;
mod completion;
mod ending;
mod entering;
mod files;
mod finals;
mod held;
mod laws;
mod opening;
mod paths;
mod settling;
mod uncaught;
mod words;

pub use beginning::begin;
pub use held::{Held, drop_held};
pub use laws::{holding_is_seen, operations_happen};
