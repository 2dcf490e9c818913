//! The statements of a script, performed one moment at a time, over any [`Doer`](py_model::Doer) of operations and any
//! [`Watch`](py_model::Watch). It stands on the meaning of `py_model`, on the parts of statements of `flow_frames`, and on what gives their values
//! (`flow_values`).
#![tactic(auto)]

mod calling;
mod moving;
mod returning;
mod step;

pub use flow_frames::FlowFrames;
pub use flow_values::FlowNext;
pub use step::flow_step;
