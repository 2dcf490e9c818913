//! Names and functions of a script as its run needs them. It stands on the pure tree of `py_tree` and on `py_model`.
//!
//! - Which names are local in a function, by the number of its `def` (`specs/Scopes.antt`). A name is local where the function has it as a parameter
//!   or binds it anywhere, unless the function declares it global.
//! - The function at a place, as a call needs it: its parameters, its suite, and the number of its `def`, by which names are looked up in it.
#![tactic(auto)]

mod finding;
mod locals;

pub use finding::{Found, function_at};
pub use locals::activation_of;
