//! Operations that ask devices, with their asking answered (`specs/Files.antt` of `py_model`).
//!
//! - [`asking`]: which device an operation asks first, by its number and its operands.
//! - [`time_ns`] (109), [`randint`] (110), [`randrange`] (111), [`input`] (55): each ends as its plan does whose asking is answered by what it is
//!   given (`answered_by` of `specs/Asking.antt`).
//! - [`open`] (62), and [`path_asked`]: the path of which it asks. Its clause (`EndsAt` of `specs/Opening.antt`) speaks of stores of a run that have
//!   the file at that path exactly where it is held. Which texts are paths says `prov_base`.
#![tactic(auto)]

mod asked;
mod draws;
mod lines;
mod numbers;
mod opening;
mod times;

pub use asked::asking;
pub use draws::{randint, randrange};
pub use lines::input;
pub use opening::{open, path_asked};
pub use times::time_ns;
