//! The forms of a script that this profile refuses, as a table: whether one stands where no script goes on with a token, and which place is
//! named (`specs/RefusedForms.antt`, and `specs/LineForms.antt` for the rows that look at tokens and lines alone).
//!
//! [`refused_form`] may always answer `Memory` under its clauses, since no clause can say that memory is left: that it answers is
//! shown by the cases of `language_cases`.
#![tactic(auto)]

mod brackets;
mod earlier;
mod forms;
mod kinds;
mod laws;
mod spellings;
mod standing;
mod statements;
mod table;
mod words;

pub use forms::refused_form;
pub use laws::one_place;
pub use standing::Standing;
