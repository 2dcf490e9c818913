//! Operations on numbers, and those that need no walk of objects. Each is one function, whose clause is that it ends as its plan says.
//!
//! There are, with their numbers: const 0 ([`constant`]), give 2, truth 3 and bool 51 ([`truth`]), not 4, neg 5, pos 6, sub 8,
//! floordiv 10 ([`floor_div`]), mod 11 ([`remainder`]), is 20, is-not 21, abs 50, chr 52, ord 63 and range 65.
//!
//! Of add 7 there is what it does with all but two texts or objects ([`add_numbers`], [`join_tuples`]). Add itself is in `op_joins`, mul 9 and
//! int 56 are in `op_joins`.
#![tactic(auto)]

mod answers;
mod arithmetic;
mod characters;
mod divisions;
mod identities;
mod operands;
mod passing;
mod ranges;
mod truths;
mod tuples;

pub use answers::{int_answer, truth_answer, value_answer};
pub use arithmetic::{abs, add_numbers, neg, pos, sub};
pub use characters::{chr, ord, text_number};
pub use divisions::{floor_div, remainder};
pub use identities::{is, is_not};
pub use operands::{number, one, one_number, two, two_numbers};
pub use passing::{constant, give};
pub use ranges::range;
pub use truths::{not, object_truth, truth, truth_value};
pub use tuples::join_tuples;
