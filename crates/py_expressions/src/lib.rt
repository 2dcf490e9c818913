//! Expressions: a relation between tokens and the syntax tree, and a function for each production that reads as many tokens as it
//! can, no deeper than there is room. An expression as it is written is a tree of its own, with a constructor for each production
//! (`specs/Concrete.antt`); its tokens are read off it, and so are its syntax tree, each node at its place, and its depth.
#![tactic(auto)]

mod cursor;
mod fault;
mod laws;
mod operators;
mod part;
mod primaries;
mod rows;
mod spelled;
pub mod words;

pub use cursor::Cursor;
pub use fault::{Fault, Stop};
pub use laws::{depth_is_reached, one_expression};
pub use operators::{ROOM, goes_above};
pub use part::Part;
pub use rows::{Row, tuple};
pub use spelled::{Spelled, spelled_expr, spelled_row, spelled_sum};
