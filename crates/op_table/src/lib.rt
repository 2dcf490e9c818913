//! The operations of a script by their numbers, each followed as its plan (`specs/Operations.antt` of `py_model`).
//!
//! [`perform`]: an operation that asks nothing, whatever its number and its operands. A number that no operation has raises TypeError.
#![tactic(auto)]

mod functions;
mod items;
mod methods;
mod naming;
mod operators;
mod table;
mod wrapped;

pub use table::perform;
