// The lines of a script's functions.
ghost use Rattle.std.specs.Prelude.{◌≡◌, ◌++◌, ◌∷◌, length, OnOk, IfOk};
ghost use Rattle.std.specs.Fmt.{decimal};
ghost use Rattle.std.specs.String.{string_bytes};
ghost use Rattle.py_tree.specs.Erasure.{form_of, stmt_of, suite_of};
ghost use Rattle.trial_show.specs.Functions.{activations as activations_among, enters, function_line, lines_at, lines_in, lines_of};

use crate::lines::push_line;
use prov_base::{Memory, Pos};
use py_tree::{Form, Stmt, Suite};
use std::alloc::{AllocError, Global};
use trace_rows::Row;

/// Whether a row enters an activation of the function whose `def` stands at the place.
fn is_entry(row: &Row, at: Pos) -> bool
    ensures { result ≡ enters at row.now }
{
    match row {
        Row::Enter(_, def, _, _) => *def == at,
        _ => false,
    }
}

/// How many activations the function has whose `def` stands at the place.
fn activations(rows: &[Row], at: Pos) -> u64
    ensures { result ≡ activations_among at rows.now }
{
    let mut count: u64 = 0;
    for row in rows {
        if is_entry(row, at) {
            count += 1;
        }
    }
    count
}

/// What the line of a function says: the line of its `def`, its name, and how many activations it has.
fn function_text(alloc: Global, line: u32, name: &str, count: u64) -> Result<String, AllocError>
    ensures { IfOk result (λ made. string_bytes made ≡ decimal line ++ 32 ∷ name.now ++ 32 ∷ decimal count) }
{
    format!(in alloc; "{line} {name} {count}")
}

/// Writes the line of a function whose `def` stands at the place.
fn push_function(
    out: &mut Vec<u8>,
    alloc: Global,
    at: Pos,
    name: &str,
    rows: &[Row],
) -> Result<(), Memory>
    ensures { OnOk result (out.new.items ≡ out.old.items ++ function_line rows.now at name.now) }
{
    let text = function_text(alloc, at.line, name, activations(rows, at))?;
    push_line(out, "function", text.as_str())
}

/// Writes the lines of the functions of a suite and of its classes, in the order of the text.
#[cycle(push_functions)]
#[tactic(auto, using(py_tree::proofs::StmtTrees::form_trees))]
pub fn push_functions(
    out: &mut Vec<u8>,
    alloc: Global,
    suite: &Suite,
    rows: &[Row],
) -> Result<(), Memory>
    ensures { OnOk result (out.new.items ≡ out.old.items ++ lines_in rows.now (suite_of suite.now)) }
{
    for stmt in &suite.list {
        push_stmt(out, alloc, stmt, rows)?;
    }
    Ok(())
}

/// The same of a statement.
#[cycle(push_functions)]
#[tactic(auto, using(py_tree::proofs::StmtTrees::stmt_tree))]
fn push_stmt(out: &mut Vec<u8>, alloc: Global, stmt: &Stmt, rows: &[Row]) -> Result<(), Memory>
    ensures { OnOk result (out.new.items ≡ out.old.items ++ lines_of rows.now (stmt_of stmt.now)) }
{
    push_form(out, alloc, stmt.pos, &*stmt.form, rows)
}

/// The same of the form of a statement at a place.
#[cycle(push_functions)]
#[tactic(auto, using(py_tree::proofs::StmtTrees::form_trees))]
fn push_form(
    out: &mut Vec<u8>,
    alloc: Global,
    at: Pos,
    form: &Form,
    rows: &[Row],
) -> Result<(), Memory>
    ensures { OnOk result (out.new.items ≡ out.old.items ++ lines_at rows.now at (form_of form.now)) }
{
    match form {
        Form::Def(name, _, _, _) => push_function(out, alloc, at, name.as_str(), rows),
        Form::Class(_, _, body) => push_functions(out, alloc, body, rows),
        _ => Ok(()),
    }
}
