//! The words that every layer of the program shares: places in a script, bytes and names as owned lists, the two ways in which a call can fail without
//! being wrong, the decimal text of a number, and the test for paths of files ([`is_path`], `specs/Path.antt`). Nothing here takes memory.
#![tactic(auto)]

mod laws;
mod number;
mod path;
mod pieces;
mod place;
mod refusal;
mod text;

pub use laws::equal_texts_are_the_same;
pub use number::decimal;
pub use path::is_path;
pub use place::{Digest, Pos, Span};
pub use refusal::{Failed, Memory};
pub use text::{Bytes, Name, Names};
