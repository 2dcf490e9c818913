// The places of the statements of a script.
ghost use Rattle.std.specs.Prelude.{◌≡◌, ◌++◌, IfOk, OnOk};
ghost use Rattle.std.specs.Option.{option_map};
ghost use Rattle.py_tree.specs.Erasure.{branches_of, else_tree, form_of, handlers_of, stmt_of, suite_of};
ghost use Rattle.py_tree.specs.Places.{branches_starts, else_starts, form_starts, handlers_starts, stmt_starts, suite_starts};

use prov_base::{Memory, Pos};
use py_tree::{Branches, Form, Handlers, Script, Stmt, Suite};
use std::alloc::Global;

// Puts the places of the statements of a suite behind those that are there.
#[cycle(add_suite)]
fn add_suite(suite: &Suite, places: &mut Vec<Pos>) -> Result<(), Memory>
    ensures { OnOk result (places.new.items ≡ places.old.items ++ suite_starts (suite_of suite.now)) }
{
    for stmt in &suite.list {
        add_stmt(stmt, places)?;
    }
    Ok(())
}

#[cycle(add_suite)]
fn add_stmt(stmt: &Stmt, places: &mut Vec<Pos>) -> Result<(), Memory>
    ensures { OnOk result (places.new.items ≡ places.old.items ++ stmt_starts (stmt_of stmt.now)) }
{
    places.push(stmt.pos)?;
    add_form(&*stmt.form, places)?;
    Ok(())
}

#[cycle(add_suite)]
fn add_form(form: &Form, places: &mut Vec<Pos>) -> Result<(), Memory>
    ensures { OnOk result (places.new.items ≡ places.old.items ++ form_starts (form_of form.now)) }
{
    match form {
        Form::If(branches, orelse) => {
            add_branches(branches, places)?;
            add_else(orelse, places)?;
            Ok(())
        }
        Form::While(_, body) => {
            add_suite(body, places)?;
            Ok(())
        }
        Form::For(_, _, body) => {
            add_suite(body, places)?;
            Ok(())
        }
        Form::Try(body, handlers) => {
            add_suite(body, places)?;
            add_handlers(handlers, places)?;
            Ok(())
        }
        Form::With(_, _, body) => {
            add_suite(body, places)?;
            Ok(())
        }
        Form::Def(_, _, _, body) => {
            add_suite(body, places)?;
            Ok(())
        }
        Form::Class(_, _, body) => {
            add_suite(body, places)?;
            Ok(())
        }
        _ => Ok(()),
    }
}

#[cycle(add_suite)]
fn add_branches(branches: &Branches, places: &mut Vec<Pos>) -> Result<(), Memory>
    ensures { OnOk result (places.new.items ≡ places.old.items ++ branches_starts (branches_of branches.now)) }
{
    for (_, body) in &branches.list {
        add_suite(body, places)?;
    }
    Ok(())
}

#[cycle(add_suite)]
fn add_else(orelse: &Option<Suite>, places: &mut Vec<Pos>) -> Result<(), Memory>
    ensures { OnOk result (places.new.items ≡ places.old.items ++ else_starts (else_tree (option_map suite_of orelse.now))) }
{
    match orelse {
        None => Ok(()),
        Some(body) => {
            add_suite(body, places)?;
            Ok(())
        }
    }
}

#[cycle(add_suite)]
fn add_handlers(handlers: &Handlers, places: &mut Vec<Pos>) -> Result<(), Memory>
    ensures { OnOk result (places.new.items ≡ places.old.items ++ handlers_starts (handlers_of handlers.now)) }
{
    for (_, _, body) in &handlers.list {
        add_suite(body, places)?;
    }
    Ok(())
}

/// The places of the statements of a script, in the order of the text, which is that of their numbers.
pub fn places_of(alloc: Global, script: &Script) -> Result<Vec<Pos>, Memory>
    ensures { IfOk result (λ places. places.items ≡ suite_starts (suite_of script.now.body)) }
{
    let mut places = Vec::new(alloc);
    add_suite(&script.body, &mut places)?;
    Ok(places)
}
