// Functions of a script, by the place and by the number of their `def`.
ghost use Rattle.std.specs.Prelude.{◌≡◌, Bool, IfOk};
ghost use Rattle.std.specs.Option.{option_map};
ghost use Rattle.prov_base.specs.declared.place.Pos.{Pos as OnePos};
ghost use Rattle.py_tree.specs.Erasure.{form_of, script_of, stmt_of, suite_of};
ghost use Rattle.script_names.specs.Finding.{defs_at, defs_in, defs_of, first_def, found_seen, IsFunctionAt, key_test};

use prov_base::{Memory, Pos};
use py_tree::{Form, Globals, Params, Script, Stmt, Suite};

/// A function: the place and the number of its `def`, its parameters, the names that it declares global, and its suite.
#[derive(Clone, Copy)]
pub struct Found<'a> {
    /// The place of its `def`.
    pub at: Pos,
    /// The number of its `def`.
    pub number: u32,
    /// Its parameters.
    pub params: &'a Params,
    /// The names that it declares global.
    pub globals: &'a Globals,
    /// Its suite.
    pub body: &'a Suite,
}

/// What a function is found by.
#[derive(Clone, Copy)]
pub(crate) enum Key {
    /// The place of its `def`.
    Place(Pos),
    /// The number of its `def`.
    Number(u32),
}

/// Whether a `def` with a number at a place is the one.
fn has_key(key: Key, number: u32, at: Pos) -> bool
    ensures { result ≡ key_test key number at }
{
    match key {
        Key::Place(place) => at == place,
        Key::Number(own) => number == own,
    }
}

/// The first function that is the one, of those that stand in a suite or in its classes.
#[cycle(found_in)]
#[tactic(auto, using(py_tree::proofs::StmtTrees::form_trees))]
fn found_in<'a>(suite: &'a Suite, key: Key) -> Option<Found<'a>>
    ensures { option_map found_seen result ≡ first_def (key_test key) (defs_in (suite_of suite.entry.now)) }
{
    for stmt in &suite.list {
        match found_by(stmt, key) {
            None => {}
            Some(found) => return Some(found),
        }
    }
    None
}

/// The same of a statement.
#[cycle(found_in)]
#[tactic(auto, using(py_tree::proofs::StmtTrees::stmt_tree))]
fn found_by<'a>(stmt: &'a Stmt, key: Key) -> Option<Found<'a>>
    ensures { option_map found_seen result ≡ first_def (key_test key) (defs_of (stmt_of stmt.entry.now)) }
{
    found_at(stmt.no, stmt.pos, &*stmt.form, key)
}

/// The same of the form of a statement with a number and a place.
#[cycle(found_in)]
#[tactic(auto, using(py_tree::proofs::StmtTrees::form_trees))]
fn found_at<'a>(number: u32, at: Pos, form: &'a Form, key: Key) -> Option<Found<'a>>
    ensures { option_map found_seen result ≡ first_def (key_test key) (defs_at number at (form_of form.entry.now)) }
{
    match form {
        Form::Def(_, params, globals, body) => {
            if has_key(key, number, at) {
                Some(Found {
                    at,
                    number,
                    params,
                    globals,
                    body,
                })
            } else {
                None
            }
        }
        Form::Class(_, _, body) => found_in(body, key),
        _ => None,
    }
}

/// The function at a place; `None` where there is none. It is that with its number too. The numbers of a script are apart; where they are not,
/// it is out of memory.
pub fn function_at<'a>(script: &'a Script, place: Pos) -> Result<Option<Found<'a>>, Memory>
    ensures { IfOk result (λ found. IsFunctionAt (script_of script.entry.now) place found) }
{
    let Some(found) = found_in(&script.body, Key::Place(place)) else {
        return Ok(None);
    };
    let Some(numbered) = found_in(&script.body, Key::Number(found.number)) else {
        return Err(Memory);
    };
    if numbered.at == place {
        Ok(Some(numbered))
    } else {
        Err(Memory)
    }
}
