//! Operations that change lists and dictionaries, and those that make a dictionary or lists of one, each as its plan (`specs/Lists.antt` and
//! `Dicts.antt` of `py_model`).
//!
//! - [`append`] (80), [`insert`] (82): an item is put into a list. A length that passes 64 bits is refused as out of memory.
//! - [`pop`] (83), [`delitem`] (29): an item is taken out of a list, or of a dictionary.
//! - [`values`] (90), [`items`] (88): the order of a dictionary is read, and each entry. A value of an order that is no key is answered as want of
//!   memory. That none stands in one is not said by a clause of the store.
//! - [`dict_display`] (24): the dictionary of its distinct keys. Each key is compared with those before it.
#![tactic(auto)]

mod adding;
mod displays;
mod making;
mod moving;
mod pairs;
mod taking;
mod views;

pub use adding::{append, insert};
pub use displays::dict_display;
pub use taking::{delitem, pop};
pub use views::{items, values};
