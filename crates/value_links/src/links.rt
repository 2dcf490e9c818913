// Which values pass from one operation to another by the forms of a script.
ghost use Rattle.std.specs.Prelude.{◌≡◌, ◌∷◌, ◌++◌, [], drop, IfOk, OnOk};
ghost use Rattle.std.specs.Option.{option_map};
ghost use Rattle.py_tree.specs.Erasure.{branches_of, else_tree, expr_of, form_of, handlers_of, script_of, stmt_of, suite_of, target_of};
ghost use Rattle.value_links.specs.Handlers.{class_links, first_class, handlers_in};
ghost use Rattle.value_links.specs.Links.{binding_links, branches_links, else_links, expr_links, form_links, handlers_links, link, links, point, stmt_links, stored, suite_links, taken_by, test_links, value_of};

use crate::expr_links::{add_expr, put_test};
use crate::link::{Link, Point};
use crate::making::{A_RETURN, link, point, value_of};
use crate::target_links::{add_augment, add_stored, add_unset, put_from};
use prov_base::{Memory, Pos};
use py_tree::{Bound, Branches, Expr, Form, Handlers, Script, Stmt, Suite, Target};
use std::alloc::Global;

// An operation of the statement takes the value of an expression, if it is there.
fn add_taken(at: Pos, kind: u8, value: &Option<Expr>, links: &mut Vec<Link>) -> Result<(), Memory>
    ensures { OnOk result (links.new.items ≡ links.old.items ++ taken_by at kind (option_map expr_of value.now)) }
{
    match value {
        None => Ok(()),
        Some(e) => {
            put_from(at, kind, value_of(e), links)?;
            add_expr(e, links)?;
            Ok(())
        }
    }
}

// A test takes the value that is tested.
fn add_test(test: &Expr, links: &mut Vec<Link>) -> Result<(), Memory>
    ensures { OnOk result (links.new.items ≡ links.old.items ++ test_links (expr_of test.now)) }
{
    put_test(test, links)?;
    add_expr(test, links)?;
    Ok(())
}

// The links of an assignment.
fn add_assign(at: Pos, target: &Target, e: &Expr, links: &mut Vec<Link>) -> Result<(), Memory>
    ensures { OnOk result (links.new.items ≡ links.old.items ++ (expr_links (expr_of e.now) ++ stored at (value_of (expr_of e.now)) (target_of target.now))) }
{
    add_expr(e, links)?;
    add_stored(at, value_of(e), target, links)?;
    Ok(())
}

// The links of an assertion.
fn add_assert(
    at: Pos,
    test: &Expr,
    message: &Option<Expr>,
    links: &mut Vec<Link>,
) -> Result<(), Memory>
    ensures { OnOk result (links.new.items ≡ links.old.items ++ (test_links (expr_of test.now) ++ taken_by at 47 (option_map expr_of message.now))) }
{
    add_test(test, links)?;
    add_taken(at, 47, message, links)?;
    Ok(())
}

// The links of a `for`, without those of its suite.
fn add_for(at: Pos, target: &Target, e: &Expr, links: &mut Vec<Link>) -> Result<(), Memory>
    ensures { OnOk result (links.new.items ≡ links.old.items ++ (link at 36 (value_of (expr_of e.now)) ∷ link at 37 (value_of (expr_of e.now)) ∷ link at 37 (point at 36)
        ∷ expr_links (expr_of e.now) ++ stored at (point at 37) (target_of target.now))) }
{
    put_from(at, 36, value_of(e), links)?;
    put_from(at, 37, value_of(e), links)?;
    put_from(at, 37, point(at, 36), links)?;
    add_expr(e, links)?;
    add_stored(at, point(at, 37), target, links)?;
    Ok(())
}

// What is bound behind an `as`.
fn add_binding(from: Point, bound: &Option<Bound>, links: &mut Vec<Link>) -> Result<(), Memory>
    ensures { OnOk result (links.new.items ≡ links.old.items ++ binding_links from bound.now) }
{
    match bound {
        None => Ok(()),
        Some(bound) => {
            put_from(bound.at, 33, from, links)?;
            Ok(())
        }
    }
}

// The links of a `with`, without those of its suite.
fn add_with(at: Pos, e: &Expr, bound: &Option<Bound>, links: &mut Vec<Link>) -> Result<(), Memory>
    ensures { OnOk result (links.new.items ≡ links.old.items ++ (link at 46 (value_of (expr_of e.now)) ∷ link at 45 (point at 46)
        ∷ expr_links (expr_of e.now) ++ binding_links (point at 46) bound.now)) }
{
    put_from(at, 46, value_of(e), links)?;
    put_from(at, 45, point(at, 46), links)?;
    add_expr(e, links)?;
    add_binding(point(at, 46), bound, links)?;
    Ok(())
}

// The links of a class, without those of its suite.
fn add_class(at: Pos, base: &Option<Expr>, links: &mut Vec<Link>) -> Result<(), Memory>
    ensures { OnOk result (links.new.items ≡ links.old.items ++ (taken_by at 43 (option_map expr_of base.now) ++ (link at 33 (point at 43) ∷ []))) }
{
    add_taken(at, 43, base, links)?;
    put_from(at, 33, point(at, 43), links)?;
    Ok(())
}

// What gives the class of the handler with this index, if there is one and it has a class.
fn class_at(handlers: &[(Option<Expr>, Option<Bound>, Suite)], index: usize) -> Option<Point>
    ensures { result ≡ first_class (handlers_in (drop index handlers.now)) }
{
    match handlers.get(index) {
        None => None,
        Some((kind, _, _)) => class_of(kind),
    }
}

// What gives a class, if there is one.
fn class_of(kind: &Option<Expr>) -> Option<Point>
    ensures { result ≡ option_map (λ e. value_of (expr_of e)) kind.now }
{
    match kind {
        None => None,
        Some(kind) => Some(value_of(kind)),
    }
}

// The class of a handler is taken unless that of the next one was found since.
fn add_kind(
    at: Pos,
    kind: &Option<Expr>,
    next: Option<Point>,
    links: &mut Vec<Link>,
) -> Result<(), Memory>
    ensures { OnOk result (links.new.items ≡ links.old.items ++ class_links at (option_map expr_of kind.now) next) }
{
    match kind {
        None => Ok(()),
        Some(kind) => {
            links.push(Link {
                to: point(at, 41),
                least: 0,
                from: value_of(kind),
                rival: next,
            })?;
            add_expr(kind, links)?;
            Ok(())
        }
    }
}

// Puts the links of a suite behind those that are there.
#[cycle(add_suite)]
fn add_suite(suite: &Suite, links: &mut Vec<Link>) -> Result<(), Memory>
    ensures { OnOk result (links.new.items ≡ links.old.items ++ suite_links (suite_of suite.now)) }
{
    for stmt in &suite.list {
        add_stmt(stmt, links)?;
    }
    Ok(())
}

#[cycle(add_suite)]
fn add_stmt(stmt: &Stmt, links: &mut Vec<Link>) -> Result<(), Memory>
    ensures { OnOk result (links.new.items ≡ links.old.items ++ stmt_links (stmt_of stmt.now)) }
{
    add_form(stmt.pos, &*stmt.form, links)?;
    Ok(())
}

#[cycle(add_suite)]
fn add_form(at: Pos, form: &Form, links: &mut Vec<Link>) -> Result<(), Memory>
    ensures { OnOk result (links.new.items ≡ links.old.items ++ form_links at (form_of form.now)) }
{
    match form {
        Form::Do(e) => {
            add_expr(e, links)?;
            Ok(())
        }
        Form::Assign(target, e) => {
            add_assign(at, target, e, links)?;
            Ok(())
        }
        Form::Aug(target, _, place, e) => {
            add_augment(target, *place, e, links)?;
            Ok(())
        }
        Form::Del(target) => {
            add_unset(target, links)?;
            Ok(())
        }
        Form::Pass => Ok(()),
        Form::Break => Ok(()),
        Form::Continue => Ok(()),
        Form::Return(value) => {
            add_taken(at, A_RETURN, value, links)?;
            Ok(())
        }
        Form::Raise(value) => {
            add_taken(at, 40, value, links)?;
            Ok(())
        }
        Form::Assert(test, message) => {
            add_assert(at, test, message, links)?;
            Ok(())
        }
        Form::Import(_) => Ok(()),
        Form::If(branches, orelse) => {
            add_branches(branches, links)?;
            add_else(orelse, links)?;
            Ok(())
        }
        Form::While(test, body) => {
            add_test(test, links)?;
            add_suite(body, links)?;
            Ok(())
        }
        Form::For(target, e, body) => {
            add_for(at, target, e, links)?;
            add_suite(body, links)?;
            Ok(())
        }
        Form::Try(body, handlers) => {
            add_suite(body, links)?;
            add_handlers(at, handlers, links)?;
            Ok(())
        }
        Form::With(e, bound, body) => {
            add_with(at, e, bound, links)?;
            add_suite(body, links)?;
            Ok(())
        }
        Form::Def(_, _, _, body) => {
            add_suite(body, links)?;
            Ok(())
        }
        Form::Class(_, base, body) => {
            add_class(at, base, links)?;
            add_suite(body, links)?;
            Ok(())
        }
    }
}

#[cycle(add_suite)]
fn add_branches(branches: &Branches, links: &mut Vec<Link>) -> Result<(), Memory>
    ensures { OnOk result (links.new.items ≡ links.old.items ++ branches_links (branches_of branches.now)) }
{
    for (test, body) in &branches.list {
        add_test(test, links)?;
        add_suite(body, links)?;
    }
    Ok(())
}

#[cycle(add_suite)]
fn add_else(orelse: &Option<Suite>, links: &mut Vec<Link>) -> Result<(), Memory>
    ensures { OnOk result (links.new.items ≡ links.old.items ++ else_links (else_tree (option_map suite_of orelse.now))) }
{
    match orelse {
        None => Ok(()),
        Some(body) => {
            add_suite(body, links)?;
            Ok(())
        }
    }
}

#[cycle(add_suite)]
fn add_handlers(at: Pos, handlers: &Handlers, links: &mut Vec<Link>) -> Result<(), Memory>
    ensures { OnOk result (links.new.items ≡ links.old.items ++ handlers_links at (handlers_of handlers.now)) }
{
    let mut next = 0;
    for (kind, _, body) in &handlers.list {
        next += 1;
        add_kind(at, kind, class_at(handlers.list.as_slice(), next), links)?;
        add_suite(body, links)?;
    }
    Ok(())
}

/// What passes values in a script, by its forms.
pub fn links_of(alloc: Global, script: &Script) -> Result<Vec<Link>, Memory>
    ensures { IfOk result (λ list. list.items ≡ links (script_of script.now)) }
{
    let mut links = Vec::new(alloc);
    add_suite(&script.body, &mut links)?;
    Ok(links)
}
