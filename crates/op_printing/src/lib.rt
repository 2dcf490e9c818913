//! The operations that print (`specs/Printing.antt` of `py_model`): print (64), repr (66) and str (68).
//!
//! - The print walk appends pieces (`op_pieces`), which hold numbers of texts and no bytes. So a tuple that is shared costs what its parts
//!   cost, and the text is counted while it is built of them.
//! - What a value comes to at its own level stands apart (`form_of`): a loop, since exceptions whose arguments are no tuple may lie in one another
//!   as often as the steps pay for. What lies inside it is walked within 100 levels (`print_value`).
//!
//! A value of an order that is no key is answered as out of memory. None stands in one: what is set was a key.
#![tactic(auto)]

mod forms;
mod names;
mod objects;
mod operations;
mod plain;
mod reads;
mod walk;

pub use operations::{print, repr, str};
