//! Operations on attributes, each as its plan (`specs/Classes.antt` of `py_model`).
//!
//! - [`getattr`] (30), [`setattr`] (31): an attribute of a value is read or set.
//! - [`find`] (32): the function that a call of an attribute names.
//!
//! Names are numbers of texts. An attribute of an instance is the entry at its name, or else a method that its class or a base has.
#![tactic(auto)]

mod finds;
mod gets;
mod kinds;
mod methods;
mod owns;
mod sets;

pub use finds::find;
pub use gets::getattr;
pub use sets::setattr;
