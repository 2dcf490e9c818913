//! Texts that are put together of pieces and counted while they grow; and texts that are cut, joined, and in which others are replaced, each as its plan
//! (`specs/TextMethods.antt` of `py_model`).
//!
//! - [`Piece`]: words of the language, numbers, ranges, texts and keys by their numbers. Pieces hold no bytes of their own, so a text that is put
//!   down often is not copied. [`push`] and [`push_word`] append one.
//! - [`put_pieces`]: the text that pieces are. Its characters count piece by piece, as if together, so no more of it is built than the steps pay
//!   for, and one piece. [`put_words`]: the same of words.
//! - [`split`] (94), [`join`] (95), [`replace`] (96).
//!
//! A key that lies more than 100 tuples deep is answered as out of memory. None stands in an order.
#![tactic(auto)]

mod joins;
mod pieces;
mod replacing;
mod splits;
mod texts;

pub use joins::join;
pub use pieces::{Piece, push, push_word};
pub use replacing::replace;
pub use splits::split;
pub use texts::put_pieces;
