//! The values of a script's run, the places of its store and what is done to them, and the texts and tuples that
//! values name. Nothing here knows of a script's tree or of a store: these are the words in which those crates speak.
//! That a number belongs to a text or tuple here is asked of callers: of the interpreter, whose values all come from these
//! calls, and of the store of a run, which keeps what the interpreter gave it.
//!
//! - [`Values`]: equal texts have one number and different texts different ones, and so have tuples. What has a number keeps it, and
//!   asking for it again needs no memory. After a refusal all is as before.
//! - [`same_contents_same_value`], [`contents_stay`]: two values have equal contents only where they are the same value, and
//!   contents stay as texts and tuples come (`specs/Contents.antt`).
//! - [`equality_is_same`], [`tests_are_equality`]: `==` of values and locations, and the tests of their contents, are equality.
//! - [`same_place_same_location`]: what a location is without numbers leads back to it, and to no other.
//! - `Values::key_of`: a value is a key exactly where nothing of it is refused, and the first part that is refused is answered. A
//!   key is the value with each truth value as 0 or 1, inside tuples too. Only normal forms of the value's tuples are put behind
//!   the tuples. [`key_faults_of_contents`] and [`same_key_same_normal_contents`] say the same of contents.
//! - [`number_of`]: the integer that a number or truth value is.
//! - What accesses make of a map over contents is defined in `specs/Changes.antt`, and what names only texts and tuples that have
//!   numbers in `specs/Named.antt`, for the crates above.
#![tactic(auto)]

mod access;
mod key;
mod laws;
mod numbers;
mod value;
mod values;

pub use access::{
    Access, Accesses, Change, Content, Kind, Location, Mode, equality_is_same,
    same_place_same_location,
};
pub use key::{Key, KeyFault};
pub use laws::{key_faults_of_contents, same_key_same_normal_contents, tests_are_equality};
pub use numbers::number_of;
pub use value::{Keys, Value};
pub use values::{Values, contents_stay, same_contents_same_value, tuples_are_their_parts};
