// The tests of an `if`, a `while` and an assertion.
ghost use Rattle.std.specs.Prelude.{◌≡◌, IfOk};
ghost use Rattle.std.specs.Option.{option_map};
ghost use Rattle.py_tree.specs.Erasure.{else_tree, expr_of, form_of, suite_of};
ghost use Rattle.py_tree.specs.Tree.{ScriptTree};
ghost use Rattle.py_value.specs.Contents.{contents};
ghost use Rattle.py_value.specs.Values.{ValuesView, IsNamed};
ghost use Rattle.py_model.specs.Expressions.{Here, Task, by_truth};
ghost use Rattle.py_model.specs.Act.{Act};
ghost use Rattle.py_model.specs.Statements.{failed_assert, otherwise};
ghost use Rattle.interp_eval.specs.declared.frames.Scope.{Scope as OneScope};
ghost use Rattle.flow_frames.specs.Held.{IsHeldNow};
ghost use Rattle.flow_frames.specs.Machine.{from_test, now_act, test_act, test_of, when_false, when_true};
ghost use Rattle.flow_frames.specs.Seen.{now_seen};

use flow_frames::{Code, End, Now, Part, Stage, branch_at, is_true, on_none, on_one, start};
use interp_eval::{Scope, place_of};
use prov_base::Memory;
use py_tree::{Expr, Form, Stmt, Suite};
use py_value::Value;
use std::alloc::Global;

/// The test of a statement with a number: that of the branch of an `if`, or the only one of a `while` and of an assertion.
#[tactic(auto, using(py_tree::proofs::StmtTrees::form_trees))]
fn test_in<'a>(stmt: &'a Stmt, number: usize) -> Option<&'a Expr>
    ensures { option_map (λ e. expr_of e.now) result ≡ test_of (form_of stmt.entry.now.form.value) number }
{
    match &*stmt.form {
        Form::If(branches, _) => match branch_at(branches.list.as_slice(), number) {
            None => None,
            Some(branch) => Some(&branch.0),
        },
        Form::While(test, _) => Some(test),
        Form::Assert(test, _) => Some(test),
        Form::Do(_) => None,
        Form::Assign(_, _) => None,
        Form::Aug(_, _, _, _) => None,
        Form::Del(_) => None,
        Form::Pass => None,
        Form::Break => None,
        Form::Continue => None,
        Form::Return(_) => None,
        Form::Raise(_) => None,
        Form::Import(_) => None,
        Form::For(_, _, _) => None,
        Form::Try(_, _) => None,
        Form::With(_, _, _) => None,
        Form::Def(_, _, _, _) => None,
        Form::Class(_, _, _) => None,
    }
}

/// What follows the tests of an `if`.
fn otherwise<'a>(orelse: &'a Option<Suite>) -> Now<'a>
    ensures means { (script : ScriptTree) (next : Task → Act) (here : Here) (table : ValuesView) → now_act script next here (now_seen table result) ≡ otherwise script next here (else_tree (option_map suite_of orelse.entry.now)) }
    ensures held { (table : ValuesView) (scope : OneScope) → IsHeldNow table scope result }
{
    match orelse {
        None => Now::Ended(End::Normal),
        Some(suite) => Now::InSuite(suite.list.as_slice()),
    }
}

/// A statement goes on with its test with a number.
#[tactic(auto, using(py_tree::proofs::StmtTrees::form_trees))]
pub fn test_opened<'a>(
    alloc: Global,
    stmt: &'a Stmt,
    number: usize,
    scope: Scope,
) -> Result<Now<'a>, Memory>
    ensures means { IfOk result (λ now. (script : ScriptTree) (next : Task → Act) (here : Here) (table : ValuesView)
        → now_act script next here (now_seen table now) ≡ from_test script next here (form_of stmt.entry.now.form.value) number) }
    ensures held { IfOk result (λ now. (table : ValuesView) → IsHeldNow table scope now) }
{
    let part = Part {
        stmt,
        stage: Stage::Tested(number),
    };
    match &*stmt.form {
        Form::If(branches, orelse) => match branch_at(branches.list.as_slice(), number) {
            None => Ok(otherwise(orelse)),
            Some(branch) => start(alloc, &branch.0, scope, part),
        },
        Form::While(test, _) => start(alloc, test, scope, part),
        Form::Do(_) => Ok(Now::Ended(End::Normal)),
        Form::Assign(_, _) => Ok(Now::Ended(End::Normal)),
        Form::Aug(_, _, _, _) => Ok(Now::Ended(End::Normal)),
        Form::Del(_) => Ok(Now::Ended(End::Normal)),
        Form::Pass => Ok(Now::Ended(End::Normal)),
        Form::Break => Ok(Now::Ended(End::Normal)),
        Form::Continue => Ok(Now::Ended(End::Normal)),
        Form::Return(_) => Ok(Now::Ended(End::Normal)),
        Form::Raise(_) => Ok(Now::Ended(End::Normal)),
        Form::Assert(_, _) => Ok(Now::Ended(End::Normal)),
        Form::Import(_) => Ok(Now::Ended(End::Normal)),
        Form::For(_, _, _) => Ok(Now::Ended(End::Normal)),
        Form::Try(_, _) => Ok(Now::Ended(End::Normal)),
        Form::With(_, _, _) => Ok(Now::Ended(End::Normal)),
        Form::Def(_, _, _, _) => Ok(Now::Ended(End::Normal)),
        Form::Class(_, _, _) => Ok(Now::Ended(End::Normal)),
    }
}

/// The value of a test is asked whether it is true.
pub fn tested<'a>(
    alloc: Global,
    part: Part<'a>,
    number: usize,
    value: Value,
) -> Result<Now<'a>, Memory>
    ensures means { IfOk result (λ now. (script : ScriptTree) (next : Task → Act) (here : Here) (table : ValuesView)
        → now_act script next here (now_seen table now) ≡ test_act script next here part.entry.stmt.now.pos (form_of part.entry.stmt.now.form.value) number (test_of (form_of part.entry.stmt.now.form.value) number) (contents table value)) }
    ensures held { IfOk result (λ now. (table : ValuesView) (scope : OneScope) → IsNamed table value → IsHeldNow table scope now) }
{
    let next = part.to(Stage::Answered(number));
    match test_in(part.stmt, number) {
        None => Ok(Now::Ended(End::Normal)),
        Some(test) => on_one(alloc, place_of(test), Code::Truth, value, next),
    }
}

/// What a statement does where its test with a number is true.
#[tactic(auto, using(py_tree::proofs::StmtTrees::form_trees))]
fn where_true<'a>(part: Part<'a>, number: usize) -> Now<'a>
    ensures means { (script : ScriptTree) (next : Task → Act) (here : Here) (table : ValuesView) → now_act script next here (now_seen table result) ≡ when_true script next here (form_of part.entry.stmt.now.form.value) number }
    ensures held { (table : ValuesView) (scope : OneScope) → IsHeldNow table scope result }
{
    match &*part.stmt.form {
        Form::If(branches, _) => match branch_at(branches.list.as_slice(), number) {
            None => Now::Ended(End::Normal),
            Some(branch) => Now::InSuite(branch.1.list.as_slice()),
        },
        Form::While(_, _) => Now::Opens(part.to(Stage::Body)),
        Form::Do(_) => Now::Ended(End::Normal),
        Form::Assign(_, _) => Now::Ended(End::Normal),
        Form::Aug(_, _, _, _) => Now::Ended(End::Normal),
        Form::Del(_) => Now::Ended(End::Normal),
        Form::Pass => Now::Ended(End::Normal),
        Form::Break => Now::Ended(End::Normal),
        Form::Continue => Now::Ended(End::Normal),
        Form::Return(_) => Now::Ended(End::Normal),
        Form::Raise(_) => Now::Ended(End::Normal),
        Form::Assert(_, _) => Now::Ended(End::Normal),
        Form::Import(_) => Now::Ended(End::Normal),
        Form::For(_, _, _) => Now::Ended(End::Normal),
        Form::Try(_, _) => Now::Ended(End::Normal),
        Form::With(_, _, _) => Now::Ended(End::Normal),
        Form::Def(_, _, _, _) => Now::Ended(End::Normal),
        Form::Class(_, _, _) => Now::Ended(End::Normal),
    }
}

/// An assertion that failed raises, with its message where it has one.
fn fails<'a>(
    alloc: Global,
    part: Part<'a>,
    message: &'a Option<Expr>,
    scope: Scope,
) -> Result<Now<'a>, Memory>
    ensures means { IfOk result (λ now. (script : ScriptTree) (next : Task → Act) (here : Here) (table : ValuesView)
        → now_act script next here (now_seen table now) ≡ failed_assert script next here part.entry.stmt.now.pos (option_map expr_of message.entry.now)) }
    ensures held { IfOk result (λ now. (table : ValuesView) → IsHeldNow table scope now) }
{
    match message {
        None => { on_none(alloc, part.stmt.pos, Code::Fail, part.to(Stage::Done)) }
        Some(e) => start(alloc, e, scope, part.to(Stage::Failed)),
    }
}

/// What a statement does where its test with a number is not true.
#[tactic(auto, using(py_tree::proofs::StmtTrees::form_trees))]
fn where_false<'a>(
    alloc: Global,
    part: Part<'a>,
    number: usize,
    scope: Scope,
) -> Result<Now<'a>, Memory>
    ensures means { IfOk result (λ now. (script : ScriptTree) (next : Task → Act) (here : Here) (table : ValuesView)
        → now_act script next here (now_seen table now) ≡ when_false script next here part.entry.stmt.now.pos (form_of part.entry.stmt.now.form.value) number) }
    ensures held { IfOk result (λ now. (table : ValuesView) → IsHeldNow table scope now) }
{
    match &*part.stmt.form {
        Form::If(branches, _) => match branch_at(branches.list.as_slice(), number) {
            None => Ok(Now::Ended(End::Normal)),
            Some(_) => Ok(Now::Opens(part.to(Stage::Tested(number + 1)))),
        },
        Form::Assert(_, message) => fails(alloc, part, message, scope),
        Form::Do(_) => Ok(Now::Ended(End::Normal)),
        Form::Assign(_, _) => Ok(Now::Ended(End::Normal)),
        Form::Aug(_, _, _, _) => Ok(Now::Ended(End::Normal)),
        Form::Del(_) => Ok(Now::Ended(End::Normal)),
        Form::Pass => Ok(Now::Ended(End::Normal)),
        Form::Break => Ok(Now::Ended(End::Normal)),
        Form::Continue => Ok(Now::Ended(End::Normal)),
        Form::Return(_) => Ok(Now::Ended(End::Normal)),
        Form::Raise(_) => Ok(Now::Ended(End::Normal)),
        Form::Import(_) => Ok(Now::Ended(End::Normal)),
        Form::While(_, _) => Ok(Now::Ended(End::Normal)),
        Form::For(_, _, _) => Ok(Now::Ended(End::Normal)),
        Form::Try(_, _) => Ok(Now::Ended(End::Normal)),
        Form::With(_, _, _) => Ok(Now::Ended(End::Normal)),
        Form::Def(_, _, _, _) => Ok(Now::Ended(End::Normal)),
        Form::Class(_, _, _) => Ok(Now::Ended(End::Normal)),
    }
}

/// Whether a test is true was answered.
pub fn answered<'a>(
    alloc: Global,
    part: Part<'a>,
    number: usize,
    value: Value,
    scope: Scope,
) -> Result<Now<'a>, Memory>
    ensures means { IfOk result (λ now. (script : ScriptTree) (next : Task → Act) (here : Here) (table : ValuesView)
        → now_act script next here (now_seen table now) ≡ by_truth (when_true script next here (form_of part.entry.stmt.now.form.value) number) (when_false script next here part.entry.stmt.now.pos (form_of part.entry.stmt.now.form.value) number) (contents table value)) }
    ensures held { IfOk result (λ now. (table : ValuesView) → IsHeldNow table scope now) }
{
    if is_true(value) {
        Ok(where_true(part, number))
    } else {
        where_false(alloc, part, number, scope)
    }
}
