//! One step of the expression or operation that computes a statement's current value. If it reaches a call, the call is started here. It stands on the
//! stages of statements of `flow_stages`; `interp_flow` steps through statements and calls.
//!
//! Each step says that the frames still mean the rest of the script, and that the watch was told exactly the events that were performed.
#![tactic(auto)]

mod entering;
mod expression;
mod next;
mod value;

pub use entering::{fail_call, run_body, wait_call};
pub use expression::{evaluates, expression_step, finish, keep, let_arguments_go, let_go};
pub use next::FlowNext;
pub use value::operation_step;
