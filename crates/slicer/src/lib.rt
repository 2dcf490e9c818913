//! The statements that a value depends on, and the least set of statements that is closed along dependence (dynamic slices, Korel and Laski 1988, in
//! this project's profile).
//!
//! - [`least_set`]: from the rows of a kept trial, the least closed set of statements of an evaluation, or that there is no such evaluation. It stands on
//!   all that follows. Each row is looked at four times at most: for the evaluation, for texts, for tuples, and in the pass up to the evaluation.
//! - [`value_roots`]: the statement of an evaluation, and those of the reach of all that is reachable from its value in the store just after it, by what
//!   one pass over rows left in `slice_edges` and in `slice_things`.
//! - [`note_jump`]: what ends by a jump directly in the module, row by row. Both together are the roots of a slice.
//! - [`kept_keys_are_normal`]: in rows of a kept trial the keys are as `slice_things` needs them.
//! - [`reached`]: the objects that are reached from a value, where these are the values that objects hold (`children` of `slice_things`), and the law
//!   [`known_values_reach_the_same`]: that is what is reached in the store.
//! - [`owner_of`], [`is_reached_place`]: the object whose own place a location is, and whether it is reached.
//! - [`close`]: the least set that has all roots and, with each statement, what it depends on (`IsLeastAlong` of `specs/Along.antt`).
//! - [`add_parents`]: the pairs of a statement and its parent. [`least_along_is_least`]: the least set along the pairs of a run's events, and of
//!   parents, is the least closed set of `slice_law`.
//!
//! Each tuple and each object is gone into once, so a tuple that many share costs nothing twice, and nothing calls itself. A call that is always out of
//! memory meets these clauses: that they succeed is tested.
#![tactic(auto)]

mod closing;
mod finding;
mod groups;
mod jumps;
mod laws;
mod least;
mod own;
mod parents;
mod passing;
mod places;
mod roots;
mod set_laws;
mod walk;

pub use closing::close;
pub use jumps::note_jump;
pub use laws::{kept_keys_are_normal, known_values_reach_the_same};
pub use least::{SliceFault, least_set};
pub use own::owner_of;
pub use parents::add_parents;
pub use places::is_reached_place;
pub use roots::value_roots;
pub use set_laws::least_along_is_least;
pub use walk::reached;
