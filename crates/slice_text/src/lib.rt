//! The cut of a script's text: the statements outside a set become spaces, and what is left stands where it stood
//! (`specs/Cut.antt`).
//!
//! What [`cut`] promises, clause by clause:
//! - `cut`: the text is the cut of the definition, whatever the script and the set. Of a statement outside the set each byte from its
//!   first token to the end of its last line is a space, and line ends stay. Where a statement stays and its suite loses all
//!   statements, `pass` takes the place of the first.
//! - `line_ends`, `grows`, `whole`: a cut has as many line feeds as its text and no fewer bytes; a set of all statements gives the
//!   text itself.
//! - `script`: where the lines of a text are a script of the grammar, the lines of the cut are the script of `delete`, up to byte
//!   spans: each node stands at its line and column.
//! - `placed`, `within`: where they are a script of a language, with its statements where they may stand, so are the lines of the cut;
//!   and where they are one within limits, so are these. So the parser refuses a cut text only for its length, or for lack of memory.
//! - `growth`: a line grows only where `pass` does not fit.
//!
//! [`cut_script_is_deleted`] says the same of a script as it is written.
//!
//! What takes memory may answer Memory at any call: no contract ties that answer to a cause, so a body that always gives
//! it would be proved too. The cases of `language_cases` show that the calls succeed.
#![tactic(auto)]

mod cutting;
mod gaps;
mod laws;
mod offsets;

pub use cutting::cut;
pub use laws::cut_script_is_deleted;
