//! The graph text of a value in a store (`specs/Graph.antt` of `py_model`): as `repr`, but each object, each tuple and each text of more than 64 characters
//! is written `#n=` and its content where it is first met, and `#n` later.
//!
//! - [`graph_text`] answers the model's text, for every script that has the given names. Its only error is Memory, which no clause ties to a cause:
//!   that calls succeed is not said here.
//! - [`Reads`] is what it asks of a store: kinds, lengths, items, orders, entries, files, texts and tuples. So the store may be that of a run, or one
//!   that rows tell.
//! - [`Names`]: the names of the functions and classes of a script, made once. A look-up goes through all of them.
//!
//! Objects do not lie in one another on the machine's stack. What is still to be drawn is a list of tasks, and one task at a time is done
//! (`specs/Steps.antt`). A step leaves what the tasks draw as it is (`proofs/Meanings.antt`), since more levels of objects than there are change nothing
//! (`proofs/Levels.antt`). It makes a measure less: the tasks, and what objects hold that have no number yet (`proofs/Weights.antt`).
#![tactic(auto)]

mod drawing;
mod lengths;
mod names;
mod objects;
mod page;
mod pending;
mod reads;
mod text;
mod tuples;
mod values;
mod words;

pub use names::Names;
pub use reads::Reads;
pub use text::graph_text;
