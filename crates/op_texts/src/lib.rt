//! Operations on texts, each as its plan says: what it reads, how many characters it counts, and what it answers. An operand of a wrong
//! kind, and a wrong number of operands, are faults. Characters are counted before the text is put among the texts of the run, so one
//! that costs too much has no number.
//!
//! Performed are strip (91), lstrip (92), rstrip (93), find (97), startswith (98), endswith (99), upper (100), lower (101), isdigit (102, [`all_digits`]),
//! ljust (103) and rjust (104).
//! Not there yet are split (94), join (95), replace (96), repr (66) and str (68).
#![tactic(auto)]

mod answers;
mod cases;
mod characters;
mod operands;
mod searches;
mod strips;
mod widths;

pub use answers::{gives_text, searched};
pub use cases::{lower, upper};
pub use characters::{size, size_of};
pub use operands::{one_text, text, two_texts};
pub use searches::{all_digits, endswith, find, isdigit, startswith};
pub use strips::{lstrip, rstrip, strip};
pub use widths::{ljust, number, rjust};
