//! Items and parts of sequences and dictionaries, each operation as its plan (`specs/Lists.antt`, `Places.antt`, `Dicts.antt` and `Files.antt` of
//! `py_model`).
//!
//! - [`getitem`] (26): the item of a tuple, a range, a text, a list or a dictionary. [`setitem`] (28): an item of a list or a dictionary is set.
//! - [`slice`] (27): a part of a text, a list or a tuple.
//! - [`iter`] (36): the start of a `for`. [`next`] (37): its next turn, over every kind of sequence. [`next_line`]: over an open file.
//! - [`unpack`] (35): a tuple or a list is taken apart for targets.
//!
//! That each number of a range has 64 bits is not proved: another would be answered as out of memory. Deletion of an item, `insert` and `pop` are
//! those of `op_mutations`.
#![tactic(auto)]

mod bounds;
mod gets;
mod letters;
mod lines;
mod next_turn;
mod numbers;
mod operands;
mod parts;
mod places;
mod sets;
mod slice_letters;
mod slices;
mod starts;
mod turns;
mod unpacks;

pub use gets::getitem;
pub use lines::{first_line, is_read, next_line};
pub use next_turn::next;
pub use sets::setitem;
pub use slices::slice;
pub use starts::iter;
pub use unpacks::unpack;
