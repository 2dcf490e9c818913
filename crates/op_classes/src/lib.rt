//! Operations on names and classes, each as its plan (`specs/Classes.antt` and `Raising.antt` of `py_model`): it does what its plan says, or stops as its
//! plan does, or costs more than is left.
//!
//! - load (1), bind (33), unbind (34) and import (44) of names; the beginning (46) and the end (45) of a `with`; a call that fails (38); match (41) of
//!   an exception.
//! - The walks that operations on classes share: the class walk, the walk to the end of a chain, and the method walk.
//! - [`make`] (39): an instance of a class is made. [`def`] (42), [`class`] (43): functions, methods and classes are defined.
//! - [`isinstance`] (57): whether a value is of a kind, or of one of several.
//! - [`raise`] (40): an exception is raised; [`assertion_failed`] (47): what a failed assertion raises.
#![tactic(auto)]

mod chains;
mod definitions;
mod failures;
mod instances;
mod kindred;
mod kinds;
mod language;
mod matching;
mod names;
mod object_kinds;
mod raises;
mod texts;
mod withs;
mod words;

pub use chains::{end_of_chain, method_of_class, next_of};
pub use definitions::{class, def};
pub use failures::call_failed;
pub use instances::make;
pub use kindred::isinstance;
pub use kinds::class_of_instance;
pub use language::known;
pub use matching::{matches, value_matches};
pub use names::{bind, import_module, load, unbind, unset_name};
pub use raises::{assertion_failed, raise};
pub use withs::{begin_with, end_with};
pub use words::named_fault;
