//! The parser of scripts: the script that logical lines are, or the first fault in them.
//!
//! Lines are read one indentation at a time, each by `py_grammar`, and put together to statements as they come. What is accepted
//! is `specs/Script.antt`, and what a fault is `specs/Faults.antt`; the other definitions are the parser's own, and no public
//! clause speaks of them.
//!
//! What [`parse`] promises, clause by clause:
//! - `found`, `complete`, `numbered`: an answered script is one of the grammar that has exactly these lines, whose statements stand
//!   where they may, within the limits: 20,000 statements, 50 suites, expressions 100 deep. Lines that are such a script get no
//!   other answer but Memory. Its statements are numbered from 0 in the order of the text.
//! - `well_formed`: the script of a text's lines is well formed. Places of statements ascend, no two nodes stand at one place, and
//!   the bytes of a statement are among those of the one whose suite it is in.
//! - `refused` (`FirstFault` in `specs/Faults.antt`): what precedes the fault can be completed to a valid script; with the token at
//!   the fault it cannot. After TooDeep it cannot within the limits of depth, after TooMany not within 20,000 statements, after
//!   the other faults not at all.
//! - The fault is Unsupported where the table of `refused_forms` has a row, at the place that the table names. Else it is
//!   Unexpected, at the token that shows it, or at the last token where the line ends too early (`names`).
//! - Behind `del` and `for` expressions are read before they are asked for a target's form. What was read there goes on with the
//!   token at the fault only where it is too deep (`ReadsNoFurther`).
//! - TooDeep names the first expression that lies deeper than 100, or the statement in a 51st suite; TooMany the 20,001st
//!   statement (`IsDeepAt`, `IsOneMore`).
//! - Limits are reported before later faults on the line (`InOrder`, `PassesNone`).
//! - BadIndent is answered where no line may stand at an indentation, and where a suite has no statement (`InColumn`).
//! - `one_fault`, `text_has_one_fault`: a text has at most one fault by all this, and lines that are a script have none.
//!
//! What takes memory may answer Memory at any call: no contract ties that answer to a cause, so a body that always gives it
//! would be proved too. The cases of `language_cases` show that the calls succeed.
//!
//! A text read as a script: its logical lines by `py_lines`, and the script that these are by `py_parser`; or the one place where it
//! is refused.
//!
//! Which script a text is, and where it is refused, is `specs/Reading.antt`. What [`read_script`] promises, clause by clause:
//! - `found`, `complete`, `numbered`, `well_formed`: an answered script is the text's, well formed, its statements numbered from 0. A
//!   text that has a script gets no other answer but Memory.
//! - `flat`: no target of an answered script is several targets that one of several is.
//! - `refused`: a place is answered only where the text is refused at it.
//! - `too_large`, `not_utf8`: a text of more than 262,144 bytes is refused at its first byte, whatever it holds, and one that is not
//!   UTF-8 at its first ill-formed sequence, whatever memory is left.
//! - `one_reading`: a text has at most one script, is refused at one place at most, and not both.
//!
//! Else reading may answer Memory at any call: no contract ties that answer to a cause, so a body that always gives it would be proved
//! too. The cases of `language_cases` show that `lines` and `parse`, of which reading is made, succeed.
#![tactic(auto)]

mod blocks;
mod fault;
mod laws;
mod reading;
mod reading_laws;
mod refusal;
mod script;
mod told;

pub use fault::ParseFault;
pub use laws::one_fault;
pub use reading::read_script;
pub use reading_laws::one_reading;
pub use refusal::Refusal;
pub use script::parse;
