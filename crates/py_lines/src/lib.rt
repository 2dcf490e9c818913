//! The logical lines of a script: indentation, and tokens with their places.
//!
//! What a text's logical lines are says `specs/`: a text is written as pieces (words, numbers, signs, text literals,
//! blanks, comments, line ends), each the longest at its place, and the pieces as lines. [`lines`] reads a text byte by
//! byte, and its clauses speak of the written form alone: the lines that it gives are the text's; a text that has lines
//! within the limit gets them, unless memory runs out; and each fault is the first one, at the place that the table of
//! bad tokens says. A first bad token is one that no shorter front of the text shows.
//!
//! A `lines` that always answers `Memory` for a text that is UTF-8 and not too large meets its clauses, since no clause
//! can say that memory is left: that it succeeds is shown by `language_cases`. The numbers of keywords and signs are their
//! positions in the tables of `tables.rt`.
#![tactic(auto)]

mod brackets;
mod bytes;
mod fault;
mod grouping;
mod literal;
mod mode;
mod parts;
mod places;
mod scan;
mod step;
mod tables;

pub use fault::LineFault;
pub use parts::{Line, Lines, Token, TokenKind, Tokens};
pub use scan::{lines, one_fault, one_list_of_lines};
