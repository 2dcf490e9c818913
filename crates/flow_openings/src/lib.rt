//! How statements begin, and what they have: their first expression, their suite, their handlers and their tests. It stands on the frames of
//! `flow_frames` and on the augmented assignments of `flow_targets`; what follows a value is in `flow_stages`.
//!
//! An opening says that the frames mean what the statement means (`specs/Opening.antt`). A test says so of how an `if`, a `while` and an assertion go
//! on with a test, with its value, and with the answer whether that is true.
#![tactic(auto)]

mod forms;
mod opening;
mod testing;

pub use forms::{bound_in, handler_in, suite_in};
pub use opening::opened;
pub use testing::{answered, test_opened, tested};
