//! Methods of open files, each as its plan (`specs/Files.antt` of `py_model`).
//!
//! - [`read`] (105): all that is left. [`readline`] (106): the next line. An offset that passes 64 bits is refused as out of memory.
//! - [`write`] (107): a text goes behind the file's bytes. [`close`] (108).
//!
//! The file of an open file object is there in every run. Where it is not, a text that would be written is answered as out of memory.
//! So is a text of 2^63 characters.
#![tactic(auto)]

mod closing;
mod operands;
mod pieces;
mod reading;
mod writing;

pub use closing::close;
pub use reading::{read, readline};
pub use writing::write;
