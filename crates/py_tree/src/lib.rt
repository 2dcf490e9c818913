//! The syntax tree of a script, sets of its statements, and the deletion of statements. Contracts speak of the *pure tree*
//! of a script, which is the tree without boxes and buffers (`specs/Tree.antt`).
//!
//! What takes memory may answer Memory at any call: no contract ties that answer to a cause, so a body that always gives
//! it would be proved too. The cases of `language_cases` show that the calls succeed.
#![tactic(auto)]

mod binds;
mod copy;
mod deletion;
mod expr;
mod laws;
mod owners;
mod stmt;
mod stmt_set;

pub use deletion::delete;
pub use expr::{Atom, BinOp, CmpOp, Expr, Exprs, LogicOp, Pairs, Target, Targets, UnOp};
pub use laws::{
    deletion_is_well_formed, deletion_keeps_places, deletion_of_nothing, deletion_twice,
    functions_stand_apart, names_are_local, numbers_and_places, spans_are_not_looked_at,
    statements_of_a_deletion,
};
pub use stmt::{
    Bound, Branches, Form, Globals, Handlers, Params, Script, Stmt, Suite, drop_script,
};
pub use stmt_set::StmtSet;
