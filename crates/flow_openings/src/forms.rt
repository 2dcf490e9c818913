// What statements have: their first expression, their suite, their handlers.
ghost use Rattle.std.specs.Prelude.{◌≡◌, slice_get};
ghost use Rattle.std.specs.Option.{option_map};
ghost use Rattle.py_tree.specs.Erasure.{expr_of, form_of, suite_of};
ghost use Rattle.flow_frames.specs.Machine.{bound_in, handler_in, suite_in};
ghost use Rattle.flow_openings.specs.Opening.{first_in};
ghost use Rattle.flow_openings.specs.Handlers.{handler_seen};

use py_tree::{Bound, Expr, Form, Stmt, Suite};

/// A handler: its class, the name that it binds, and its suite.
pub type Handler = (Option<Expr>, Option<Bound>, Suite);

/// The expression whose value a statement awaits first.
#[tactic(auto, using(py_tree::proofs::StmtTrees::form_trees))]
pub(crate) fn first_in<'a>(stmt: &'a Stmt) -> Option<&'a Expr>
    ensures { option_map (λ e. expr_of e.now) result ≡ first_in (form_of stmt.entry.now.form.value) }
{
    match &*stmt.form {
        Form::Do(e) => Some(e),
        Form::Assign(_, e) => Some(e),
        Form::Return(e) => e.as_ref(),
        Form::Raise(e) => e.as_ref(),
        Form::For(_, e, _) => Some(e),
        Form::With(e, _, _) => Some(e),
        Form::Class(_, base, _) => base.as_ref(),
        Form::Aug(_, _, _, _) => None,
        Form::Del(_) => None,
        Form::Pass => None,
        Form::Break => None,
        Form::Continue => None,
        Form::Assert(_, _) => None,
        Form::Import(_) => None,
        Form::If(_, _) => None,
        Form::While(_, _) => None,
        Form::Try(_, _) => None,
        Form::Def(_, _, _, _) => None,
    }
}

/// The suite of a statement that has one.
#[tactic(auto, using(py_tree::proofs::StmtTrees::form_trees))]
pub fn suite_in<'a>(stmt: &'a Stmt) -> Option<&'a Suite>
    ensures { option_map (λ s. suite_of s.now) result ≡ suite_in (form_of stmt.entry.now.form.value) }
{
    match &*stmt.form {
        Form::While(_, suite) => Some(suite),
        Form::For(_, _, suite) => Some(suite),
        Form::Try(suite, _) => Some(suite),
        Form::With(_, _, suite) => Some(suite),
        Form::Class(_, _, suite) => Some(suite),
        Form::Do(_) => None,
        Form::Assign(_, _) => None,
        Form::Aug(_, _, _, _) => None,
        Form::Del(_) => None,
        Form::Pass => None,
        Form::Break => None,
        Form::Continue => None,
        Form::Return(_) => None,
        Form::Raise(_) => None,
        Form::Assert(_, _) => None,
        Form::Import(_) => None,
        Form::If(_, _) => None,
        Form::Def(_, _, _, _) => None,
    }
}

/// The name after the `as` of a `with`.
#[tactic(auto, using(py_tree::proofs::StmtTrees::form_trees))]
pub fn bound_in<'a>(stmt: &'a Stmt) -> Option<&'a Bound>
    ensures { option_map (λ b. b.now) result ≡ bound_in (form_of stmt.entry.now.form.value) }
{
    match &*stmt.form {
        Form::With(_, bound, _) => bound.as_ref(),
        Form::Do(_) => None,
        Form::Assign(_, _) => None,
        Form::Aug(_, _, _, _) => None,
        Form::Del(_) => None,
        Form::Pass => None,
        Form::Break => None,
        Form::Continue => None,
        Form::Return(_) => None,
        Form::Raise(_) => None,
        Form::Assert(_, _) => None,
        Form::Import(_) => None,
        Form::If(_, _) => None,
        Form::While(_, _) => None,
        Form::For(_, _, _) => None,
        Form::Try(_, _) => None,
        Form::Def(_, _, _, _) => None,
        Form::Class(_, _, _) => None,
    }
}

/// The handler with a number.
fn handler_at<'a>(handlers: &'a [Handler], number: usize) -> Option<&'a Handler>
    ensures { option_map (λ h. h.now) result ≡ slice_get handlers.entry.now number }
{
    handlers.get(number)
}

/// The handler of a `try` with a number.
#[tactic(auto, using(py_tree::proofs::StmtTrees::form_trees))]
pub fn handler_in<'a>(stmt: &'a Stmt, number: usize) -> Option<&'a Handler>
    ensures { option_map (λ h. handler_seen h.now) result ≡ handler_in (form_of stmt.entry.now.form.value) number }
{
    match &*stmt.form {
        Form::Try(_, handlers) => handler_at(handlers.list.as_slice(), number),
        Form::Do(_) => None,
        Form::Assign(_, _) => None,
        Form::Aug(_, _, _, _) => None,
        Form::Del(_) => None,
        Form::Pass => None,
        Form::Break => None,
        Form::Continue => None,
        Form::Return(_) => None,
        Form::Raise(_) => None,
        Form::Assert(_, _) => None,
        Form::Import(_) => None,
        Form::If(_, _) => None,
        Form::While(_, _) => None,
        Form::For(_, _, _) => None,
        Form::With(_, _, _) => None,
        Form::Def(_, _, _, _) => None,
        Form::Class(_, _, _) => None,
    }
}
