//! The words of rows of operations: how values, texts, accesses and outcomes are written in the cases of `op_cases` and `atom_cases`.
//!
//! [`plain_value`] and [`number`] read one word, [`spelled`] a text with escapes, and [`halves`] cuts at a mark. [`write_value`], [`write_text`] and
//! [`write_done`] write. The head of `op_cases` says how values are written. What is written is compared with the files `stdout` of these programs, so
//! no contract says it.
//!
//! What a row that begins anew says, and what is written there, in the cases of `op_cases`: devices in memory, the arguments of the script, and what
//! was printed and put into files before it.
//!
//! [`answer_all`] cuts the rows of an input at those that begin anew, and has a [`Runner`] answer the ones between. [`closed`] writes such a row, with
//! what a run [`Left`]. The head of `op_cases` says how these rows are written. What is read and written is not said by a contract: it is compared with
//! the file `stdout`.
//!
//! Rows of operations, and how they are answered: the reading and writing of the cases of `op_cases`, over any doer.
//!
//! [`answer_rows_with`] reads rows from a console, performs the operation of each and writes how it came out, in the words of `case_operations`. The head of `op_cases`
//! says how rows are written. What is written is compared there with the file `stdout`, so no contract says it.
//!
//! Rows of operations on values without objects, and how they are answered: the reading and writing of the cases of `atom_cases`, and what is held as
//! a run begins, over whatever performs the operations.
//!
//! [`answer_input`] reads rows from a console, has a [`Performer`] perform the operation of each and writes what came of it, in the words of
//! `case_operations`. The head of `atom_cases` says how rows are written. What is written is compared there with the file `stdout`, so no contract says it.
#![tactic(auto)]

mod atom_rows;
mod atom_session;
mod devices;
mod endings;
mod holding;
mod operator;
mod plain;
mod rows;
mod running;
mod session;
mod spelling;
mod texts;

pub use endings::{Left, closed};
pub use holding::{Performer, answer_input};
pub use operator::Came;
pub use running::{Runner, answer_all};
pub use session::answer_rows_with;
