//! Comparisons of two values, and searches by comparison, each as its plan (`specs/Walks.antt`, `Arithmetic.antt` and `Lists.antt` of `py_model`).
//!
//! - [`compare_to`]: the walk of two values, with their order or for equality alone; it answers a [`Comparison`]. Containers are gone into at most
//!   100 levels deep, so the calls that lie in one another are few. Each pair of a shared tuple is looked at, so the steps that are left end the walk.
//! - [`equals`]: whether two values are equal.
//! - [`in_order`]: the order of two numbers, texts, tuples or lists. Two values that have none raise TypeError.
//! - The operators `==` ([`eq`]), `!=` ([`ne`]), `<` ([`lt`]), `<=` ([`le`]), `>` ([`gt`]) and `>=` ([`ge`]).
//! - [`seek`]: the place of a value among the items of a list, each read and compared up to the hit.
//! - [`contained`]: whether a value is in another, and `in` (18, [`is_in`]) and `not in` (19, [`not_in`]).
//! - [`index`] (84) of a list. A place past 63 bits is answered as out of memory.
//! - [`max`] (60) and [`min`] (61).
//!
//! A value of an order that is no key is answered as out of memory. That none stands in one is not said by a clause of the store.
#![tactic(auto)]

mod best;
mod compare;
mod comparison;
mod finding;
mod in_texts;
mod items;
mod membership;
mod numbers;
mod objects;
mod operators;
mod orders;
mod pairs;
mod parts;
mod texts;

pub use best::{max, min};
pub use compare::compare_to;
pub use comparison::shorter_length;
pub use finding::index;
pub use items::seek;
pub use membership::{contained, is_in, not_in};
pub use operators::{eq, ge, gt, le, lt, ne};
pub use texts::is_before;
