//! Operations that join, repeat, sum and turn lists, tuples, texts and numbers, each as its plan (`specs/Lists.antt` and `Arithmetic.antt` of `py_model`).
//!
//! - [`add`] (7), and [`added`] over two values. The characters of two texts are counted before the text is built.
//! - [`iadd`] (22), and [`extend`] (81): a list is extended in place by [`extend_list`]. A length that passes 64 bits is answered as out of memory.
//! - [`reverse`] (85). [`list_operand`]: the list that a method is called on.
//! - [`sum`] (69): that all items are numbers is tested before anything is added. The first partial sum without 64 bits is refused.
//! - [`mul`] (9), and [`multiplied`] over two values. What a repeated text or tuple costs is paid before it is built, and each item of a
//!   repeated list as it is set. A size that passes 64 bits is answered as out of memory.
//! - [`int`] (56) of a number, or of a text that writes an integer.
#![tactic(auto)]

mod adding;
mod changing;
mod extending;
mod integers;
mod lists;
mod multiplying;
mod reading;
mod receivers;
mod repeating;
mod summing;
mod turning;

pub use adding::{add, added};
pub use changing::iadd;
pub use extending::{extend, extend_list};
pub use multiplying::{mul, multiplied};
pub use reading::int;
pub use receivers::list_operand;
pub use summing::sum;
pub use turning::reverse;
