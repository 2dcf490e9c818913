// The names of the functions and classes of a script.
ghost use Rattle.std.specs.Prelude.{◌≡◌, ◌∷◌, ◌++◌, [], map, IfOk, OnOk};
ghost use Rattle.graph_texts.specs.Named.{named_seen};
ghost use Rattle.py_model.specs.Graph.{first_name, names_at, names_in, names_of};
ghost use Rattle.py_tree.specs.Erasure.{form_of, script_of, stmt_of, suite_of};

use prov_base::{Memory, Name, Pos};
use py_tree::{Form, Script, Stmt, Suite};
use std::alloc::Global;
use std::marker::Model;

/// A function or class of a script: its place, whether it is a class, and its name.
#[derive(Drop)]
struct Named {
    at: Pos,
    is_class: bool,
    name: Name,
}

/// The names of the functions and classes of a script, in the order of the text. Those inside of functions are left out.
#[derive(Drop)]
pub struct Names {
    list: Vec<Named>,
}

impl Model for Names {
    ghost use Rattle.std.specs.Prelude.{ℕ, Bool, List, map};
    ghost use Rattle.prov_base.specs.declared.place.Pos.{Pos as OnePos};
    ghost use Rattle.graph_texts.specs.Named.{named_seen};

    ghost Value = { List (OnePos × (Bool × List ℕ)) };

    ghost view = { λ n. map named_seen n.list.items };
}

impl Names {
    /// The name of the function, or of the class, at a place; `?` where there is none.
    pub(crate) fn name_of(&self, is_class: bool, at: Pos) -> &str
        ensures { result.now ≡ first_name is_class at self.now }
    {
        for named in &self.list {
            if named.at == at && named.is_class == is_class {
                return named.name.as_str();
            }
        }
        "?"
    }
}

// A name is put behind the others.
fn put_name(
    list: &mut Vec<Named>,
    alloc: Global,
    at: Pos,
    is_class: bool,
    name: &Name,
) -> Result<(), Memory>
    ensures { OnOk result (map named_seen list.new.items ≡ map named_seen list.old.items ++ (at, (is_class, name.now)) ∷ []) }
{
    let copy = Name::of(String::from_str(alloc, name.as_str())?);
    list.push(Named {
        at,
        is_class,
        name: copy,
    })?;
    Ok(())
}

// The names of a suite.
#[cycle(put_names)]
#[tactic(auto, using(py_tree::proofs::StmtTrees::form_trees))]
fn put_suite(list: &mut Vec<Named>, alloc: Global, suite: &Suite) -> Result<(), Memory>
    ensures { OnOk result (map named_seen list.new.items ≡ map named_seen list.old.items ++ names_in (suite_of suite.entry.now)) }
{
    for stmt in &suite.list {
        put_stmt(list, alloc, stmt)?;
    }
    Ok(())
}

// The same of a statement.
#[cycle(put_names)]
#[tactic(auto, using(py_tree::proofs::StmtTrees::stmt_tree))]
fn put_stmt(list: &mut Vec<Named>, alloc: Global, stmt: &Stmt) -> Result<(), Memory>
    ensures { OnOk result (map named_seen list.new.items ≡ map named_seen list.old.items ++ names_of (stmt_of stmt.entry.now)) }
{
    put_form(list, alloc, stmt.pos, &*stmt.form)
}

// The same of the form of a statement at a place.
#[cycle(put_names)]
#[tactic(auto, using(py_tree::proofs::StmtTrees::form_trees))]
fn put_form(list: &mut Vec<Named>, alloc: Global, at: Pos, form: &Form) -> Result<(), Memory>
    ensures { OnOk result (map named_seen list.new.items ≡ map named_seen list.old.items ++ names_at at (form_of form.entry.now)) }
{
    match form {
        Form::Def(name, _, _, _) => put_name(list, alloc, at, false, name),
        Form::Class(name, _, body) => {
            put_name(list, alloc, at, true, name)?;
            put_suite(list, alloc, body)
        }
        _ => Ok(()),
    }
}

impl Names {
    /// The names of a script.
    pub fn of(alloc: Global, script: &Script) -> Result<Names, Memory>
        ensures { IfOk result (λ names. names ≡ names_in (script_of script.entry.now).body) }
    {
        let mut list = Vec::new(alloc);
        put_suite(&mut list, alloc, &script.body)?;
        Ok(Names { list })
    }
}
