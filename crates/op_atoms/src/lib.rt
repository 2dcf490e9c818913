//! Operations on atoms: numbers, texts, and tuples of them.
//!
//! [`atom`] answers what an operation comes to, by its plan (`specs/Operations.antt` of `py_model`), over values that name no object, no function and
//! no class of a script (`specs/Atoms.antt`). It makes nothing and changes nothing but the texts and tuples that have numbers. It is the operation of
//! `op_table` and nothing is done twice.
//!
//! An operation that costs more than 4,294,967,295 steps is answered as out of memory. So would be one that made an object, came to an end of a
//! sequence, or raised an exception with anything but one text. No plan of these operations does that of atoms.
#![tactic(auto)]

mod answering;
mod atomic;
mod atoms;
mod telling;

pub use answering::atom;
pub use atomic::Atomic;
