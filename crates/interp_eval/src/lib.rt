//! The evaluation of an expression, one moment at a time, over any [`Doer`](py_model::Doer) of operations and any
//! [`Watch`](py_model::Watch). It stands on the meaning of `py_model` and on the pure tree of `py_tree`.
//!
//! [`EvalFrames`] are nodes that wait for values of their operands, one inside the other. `specs/Machine.antt` says in the words of the meaning
//! what they still mean (`remains`), `specs/Seen.antt` which machine the frames are, `specs/Step.antt` what a step does, and
//! `specs/Weight.antt` why steps come to an end.
//!
//! [`eval_step`] begins one operand, or performs one operation and tells the watch of it, and of nothing else. What remains afterwards is what
//! remained before: the same act in the same state, or what follows the answer of its first operation, in the state after it. That is
//! said for every table of texts and tuples that fits the doer afterwards, every state that the doer stood for, everything that may follow
//! the expression, and every meaning of calls.
//!
//! Calls of functions and classes of a script are answered, and made by the caller, who gives their value by [`EvalFrames::give`]. Calls of
//! functions and methods of the language, and calls of what is not callable, are performed here.
//!
//! What is not said: a body that always answers Memory would be proved, since no contract ties that answer to a cause. It is not shown that no
//! operation of an expression answers the end of a sequence, and that the failing call only raises. Where one did otherwise, the
//! step would answer [`EvalNext::Ended`], as the meaning has it.
#![tactic(auto)]

mod frames;
mod node;
mod performing;
mod step;
mod turn;

pub use frames::{EvalFrames, EvalNext, Scope};
pub use node::place_of;
pub use performing::{Came, make_op, perform, some_word, tell};
pub use step::eval_step;
pub use turn::Want;
