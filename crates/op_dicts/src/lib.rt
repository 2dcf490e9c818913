//! Operations on dictionaries, and lengths, each as its plan (`specs/Dicts.antt` and `Arithmetic.antt` of `py_model`).
//!
//! - [`entry_at`]: the key that a value is, and the entry that stands there.
//! - [`get_entry`], [`set_entry`], [`del_entry`]: the item at a key of a dictionary is read, set or deleted.
//! - [`dict`]: an object is a dictionary, or TypeError is raised. [`get`], [`get_or`]: `d.get(key)` and `d.get(key, instead)` on an object.
//! - [`get_method`]: the same over operands. [`object_length`]: `len` of an object, a list or a dictionary.
//! - [`length_of`], [`len`]: how many characters, items or keys a value has.
//! - [`dict_operand`]: the dictionary that a method is called on.
//! - [`keys`]: `d.keys()`, a list of the keys. [`dict_builtin`]: `dict()`, an empty dictionary.
//!
//! `values`, `items` and the display of a dictionary are those of `op_mutations`.
#![tactic(auto)]

mod entries;
mod gets;
mod lengths;
mod methods;
mod object_lengths;
mod puts;
mod receivers;
mod views;

pub use entries::{del_entry, entry_at, get_entry, set_entry};
pub use gets::{get, get_or};
pub use lengths::{len, length_of};
pub use methods::get_method;
pub use receivers::dict_operand;
pub use views::{dict_builtin, keys};
