// The deletion of statements: a copy of a script without them, made in one pass over it.
ghost use Rattle.std.specs.Prelude.{◌≡◌, ◌≢◌, ◌+◌, option_map, IfOk, MatchBool};
ghost use Rattle.py_tree.specs.Tree.{end_suite, one_stmt};
ghost use Rattle.py_tree.specs.Erasure.{expr_of, target_of, stmt_of, form_of, suite_of, branches_of, handlers_of, else_tree, script_of};
ghost use Rattle.py_tree.specs.Numbering.{size_suite, size_form, size_branches, size_handlers, size_else, numbered_suite, numbered_form, numbered_branches, numbered_else, numbered_handlers};
ghost use Rattle.py_tree.specs.Numbered.{IsNumberedOn};
ghost use Rattle.py_tree.specs.Added.{IsAdded};
ghost use Rattle.py_tree.specs.Deletion.{deleted, or_pass, kept_suite, kept_form, kept_branches, kept_else, kept_handlers};
ghost use Rattle.py_tree.specs.StmtSet.{has};

use crate::copy::{copy_bound, copy_name, copy_option};
use crate::stmt::{Branches, Form, Handlers, Script, Stmt, Suite};
use crate::stmt_set::StmtSet;
use prov_base::Memory;
use std::alloc::Global;

/// The script without the statements outside the set, numbered anew, or Memory. A statement goes with all that stands in
/// its suites. Where a suite of a statement that stays loses all its statements, `pass` stands at the place and with the
/// span of the first of them; the script itself may become empty. All else stays as it was, at its place: the clauses
/// `elif`, `else` and `except` of a statement that stays are part of it.
pub fn delete(alloc: Global, script: &Script, keep: &StmtSet) -> Result<Script, Memory>
    ensures { IfOk result (λ rest. script_of rest ≡ deleted (has keep.now) (script_of script.now)) }
{
    let mut count = 0;
    let body = keep_suite(&script.body, alloc, keep, &mut count)?;
    Ok(Script { body, count })
}

// The statements of a suite that are in the set, the first with the number `next`. Afterwards `next` is the number of
// the statement that comes after them, and so with all functions below.
#[cycle(delete)]
fn keep_suite(suite: &Suite, alloc: Global, keep: &StmtSet, next: &mut u32) -> Result<Suite, Memory>
    ensures { IfOk result (λ kept. IsNumberedOn numbered_suite size_suite next.old next.new (kept_suite (has keep.now) (suite_of suite.now)) (suite_of kept)) }
{
    let mut list = Vec::new(alloc);
    for stmt in &suite.list {
        if !is_kept(keep, stmt.no) {
            continue;
        }
        let no = take_number(next)?;
        let form = keep_form(&*stmt.form, alloc, keep, next)?;
        add_stmt(&mut list, alloc, stmt, no, form)?;
    }
    Ok(Suite { list })
}

fn is_kept(keep: &StmtSet, no: u32) -> bool
    ensures { result ≡ has keep.now no }
{
    no < keep.bound() && keep.has(no)
}

// Puts a statement with this number and form behind the list, at the place and with the span of the other.
fn add_stmt(
    list: &mut Vec<Stmt>,
    alloc: Global,
    stmt: &Stmt,
    no: u32,
    form: Form,
) -> Result<(), Memory>
    ensures { IfOk result (λ _. IsAdded list.old.items list.new.items (one_stmt no stmt.now.pos stmt.now.span (form_of form))) }
{
    let form = Box::new(alloc, form)?;
    list.push(Stmt {
        no,
        pos: stmt.pos,
        span: stmt.span,
        form,
    })?;
    Ok(())
}

// The suite of a statement that stays keeps at least a `pass`.
#[cycle(delete)]
fn keep_body(suite: &Suite, alloc: Global, keep: &StmtSet, next: &mut u32) -> Result<Suite, Memory>
    ensures { IfOk result (λ kept. IsNumberedOn numbered_suite size_suite next.old next.new (or_pass (suite_of suite.now) (kept_suite (has keep.now) (suite_of suite.now))) (suite_of kept)) }
{
    let kept = keep_suite(suite, alloc, keep, next)?;
    if is_empty(&kept) {
        pass_alone(suite, alloc, next)
    } else {
        Ok(kept)
    }
}

fn is_empty(suite: &Suite) -> bool
    ensures { MatchBool result (suite_of suite.now ≡ end_suite) (suite_of suite.now ≢ end_suite) }
{
    suite.list.as_slice().is_empty()
}

// The next number; where 32 bits hold no more, Memory. A script whose `count` is right never comes to that.
fn take_number(next: &mut u32) -> Result<u32, Memory>
    ensures { IfOk result (λ number. (number ≡ next.old) × (next.new ≡ next.old + 1)) }
{
    let number = *next;
    let Some(after) = number.checked_add(1) else {
        return Err(Memory);
    };
    *next = after;
    Ok(number)
}

// An emptied suite.
fn pass_alone(suite: &Suite, alloc: Global, next: &mut u32) -> Result<Suite, Memory>
    ensures { IfOk result (λ kept. IsNumberedOn numbered_suite size_suite next.old next.new (or_pass (suite_of suite.now) end_suite) (suite_of kept)) }
{
    let mut list = Vec::new(alloc);
    let Some(first) = suite.list.first() else {
        return Ok(Suite { list });
    };
    let no = take_number(next)?;
    add_stmt(&mut list, alloc, first, no, Form::Pass)?;
    Ok(Suite { list })
}

#[cycle(delete)]
fn keep_form(form: &Form, alloc: Global, keep: &StmtSet, next: &mut u32) -> Result<Form, Memory>
    ensures { IfOk result (λ kept. IsNumberedOn numbered_form size_form next.old next.new (kept_form (has keep.now) (form_of form.now)) (form_of kept)) }
{
    match form {
        Form::If(branches, orelse) => {
            let branches = keep_branches(branches, alloc, keep, next)?;
            let orelse = keep_else(orelse, alloc, keep, next)?;
            Ok(Form::If(branches, orelse))
        }
        Form::While(test, body) => {
            let test = test.copy(alloc)?;
            let body = keep_body(body, alloc, keep, next)?;
            Ok(Form::While(test, body))
        }
        Form::For(target, items, body) => {
            let target = target.copy(alloc)?;
            let items = items.copy(alloc)?;
            let body = keep_body(body, alloc, keep, next)?;
            Ok(Form::For(target, items, body))
        }
        Form::Try(body, handlers) => {
            let body = keep_body(body, alloc, keep, next)?;
            let handlers = keep_handlers(handlers, alloc, keep, next)?;
            Ok(Form::Try(body, handlers))
        }
        Form::With(value, bound, body) => {
            let value = value.copy(alloc)?;
            let bound = copy_bound(alloc, bound)?;
            let body = keep_body(body, alloc, keep, next)?;
            Ok(Form::With(value, bound, body))
        }
        Form::Def(name, params, globals, body) => {
            let name = copy_name(alloc, name)?;
            let params = params.copy(alloc)?;
            let globals = globals.copy(alloc)?;
            let body = keep_body(body, alloc, keep, next)?;
            Ok(Form::Def(name, params, globals, body))
        }
        Form::Class(name, base, body) => {
            let name = copy_name(alloc, name)?;
            let base = copy_option(alloc, base)?;
            let body = keep_body(body, alloc, keep, next)?;
            Ok(Form::Class(name, base, body))
        }
        Form::Do(expr) => {
            let expr = expr.copy(alloc)?;
            Ok(Form::Do(expr))
        }
        Form::Assign(target, value) => {
            let target = target.copy(alloc)?;
            let value = value.copy(alloc)?;
            Ok(Form::Assign(target, value))
        }
        Form::Aug(target, op, at, value) => {
            let target = target.copy(alloc)?;
            let value = value.copy(alloc)?;
            Ok(Form::Aug(target, *op, *at, value))
        }
        Form::Del(target) => {
            let target = target.copy(alloc)?;
            Ok(Form::Del(target))
        }
        Form::Pass => Ok(Form::Pass),
        Form::Break => Ok(Form::Break),
        Form::Continue => Ok(Form::Continue),
        Form::Return(value) => {
            let value = copy_option(alloc, value)?;
            Ok(Form::Return(value))
        }
        Form::Raise(value) => {
            let value = copy_option(alloc, value)?;
            Ok(Form::Raise(value))
        }
        Form::Assert(test, message) => {
            let test = test.copy(alloc)?;
            let message = copy_option(alloc, message)?;
            Ok(Form::Assert(test, message))
        }
        Form::Import(name) => {
            let name = copy_name(alloc, name)?;
            Ok(Form::Import(name))
        }
    }
}

#[cycle(delete)]
fn keep_branches(
    branches: &Branches,
    alloc: Global,
    keep: &StmtSet,
    next: &mut u32,
) -> Result<Branches, Memory>
    ensures { IfOk result (λ kept. IsNumberedOn numbered_branches size_branches next.old next.new (kept_branches (has keep.now) (branches_of branches.now)) (branches_of kept)) }
{
    let mut list = Vec::new(alloc);
    for (test, body) in &branches.list {
        let body = keep_body(body, alloc, keep, next)?;
        let test = test.copy(alloc)?;
        list.push((test, body))?;
    }
    Ok(Branches { list })
}

#[cycle(delete)]
fn keep_else(
    orelse: &Option<Suite>,
    alloc: Global,
    keep: &StmtSet,
    next: &mut u32,
) -> Result<Option<Suite>, Memory>
    ensures { IfOk result (λ kept. IsNumberedOn numbered_else size_else next.old next.new (kept_else (has keep.now) (else_tree (option_map suite_of orelse.now))) (else_tree (option_map suite_of kept))) }
{
    match orelse {
        None => Ok(None),
        Some(body) => {
            let body = keep_body(body, alloc, keep, next)?;
            Ok(Some(body))
        }
    }
}

#[cycle(delete)]
fn keep_handlers(
    handlers: &Handlers,
    alloc: Global,
    keep: &StmtSet,
    next: &mut u32,
) -> Result<Handlers, Memory>
    ensures { IfOk result (λ kept. IsNumberedOn numbered_handlers size_handlers next.old next.new (kept_handlers (has keep.now) (handlers_of handlers.now)) (handlers_of kept)) }
{
    let mut list = Vec::new(alloc);
    for (kind, bound, body) in &handlers.list {
        let body = keep_body(body, alloc, keep, next)?;
        let bound = copy_bound(alloc, bound)?;
        let kind = copy_option(alloc, kind)?;
        list.push((kind, bound, body))?;
    }
    Ok(Handlers { list })
}
