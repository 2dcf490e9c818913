// How statements are opened.
ghost use Rattle.std.specs.Prelude.{◌≡◌, IfOk, Some as JustOne};
ghost use Rattle.std.specs.Option.{option_map};
ghost use Rattle.py_tree.specs.Erasure.{form_of, target_of};
ghost use Rattle.py_tree.specs.Tree.{ScriptTree};
ghost use Rattle.py_value.specs.Contents.{contents};
ghost use Rattle.py_value.specs.Values.{ValuesView};
ghost use Rattle.py_model.specs.Act.{Act};
ghost use Rattle.py_model.specs.Expressions.{Here, Task};
ghost use Rattle.py_tree.specs.Functions.{expr_place};
ghost use Rattle.py_model.specs.Statements.{defining, raised_value, rule, unset};
ghost use Rattle.interp_eval.specs.declared.frames.Scope.{Scope as OneScope};
ghost use Rattle.flow_frames.specs.Held.{IsHeldClass, IsHeldNow};
ghost use Rattle.flow_frames.specs.Machine.{now_act};
ghost use Rattle.flow_frames.specs.Seen.{now_seen};
ghost use Rattle.flow_openings.specs.Opening.{StandsIn, deleting, plain_rule, raising};

use crate::forms::first_in;
use flow_frames::{Code, End, Now, Part, Spot, Stage, on_none, on_one, start};
use flow_targets::augmented;
use interp_eval::Scope;
use prov_base::{Memory, Name};
use py_tree::{Form, Stmt, Target};
use py_value::Value;
use std::alloc::Global;

/// `del` of a name is an operation; that of an item begins with its container.
#[tactic(auto, using(py_tree::proofs::TargetTrees::target_trees))]
fn deleted<'a>(
    alloc: Global,
    target: &'a Target,
    part: Part<'a>,
    scope: Scope,
) -> Result<Now<'a>, Memory>
    ensures means { IfOk result (λ now. (script : ScriptTree) (next : Task → Act) (here : Here) (table : ValuesView)
        → now_act script next here (now_seen table now) ≡ deleting script next here part.entry.stmt.now.pos (form_of part.entry.stmt.now.form.value) (target_of target.entry.now)) }
    ensures held { IfOk result (λ now. (table : ValuesView) → IsHeldNow table scope now) }
{
    match target {
        Target::Var(at, name) => { on_none(alloc, *at, Code::Unbind(name), part.to(Stage::Done)) }
        Target::Part(_, e, _) => start(alloc, e, scope, part.to(Stage::Owner)),
        Target::Field(_, _, _) => Ok(Now::Ended(End::Normal)),
        Target::Many(_) => Ok(Now::Ended(End::Normal)),
    }
}

/// The exception that is handled is raised again.
fn raised<'a>(alloc: Global, handled: Option<u32>, part: Part<'a>) -> Result<Now<'a>, Memory>
    ensures means { IfOk result (λ now. (script : ScriptTree) (next : Task → Act) (here : Here) (table : ValuesView)
        → now_act script next here (now_seen table now) ≡ raising here part.entry.stmt.now.pos (raised_value handled)) }
    ensures held { IfOk result (λ now. (table : ValuesView) (scope : OneScope) → IsHeldNow table scope now) }
{
    match handled {
        None => on_none(alloc, part.stmt.pos, Code::Raise, part.to(Stage::Done)),
        Some(o) => on_one(
            alloc,
            part.stmt.pos,
            Code::Raise,
            Value::Object(o),
            part.to(Stage::Done),
        ),
    }
}

/// A function is made, in the class around it.
fn defined<'a>(
    alloc: Global,
    name: &'a Name,
    class: Option<Value>,
    part: Part<'a>,
) -> Result<Now<'a>, Memory>
    ensures means { IfOk result (λ now. (script : ScriptTree) (next : Task → Act) (here : Here) (table : ValuesView)
        → now_act script next here (now_seen table now) ≡ defining script next here part.entry.stmt.now.pos name.entry.now (option_map (contents table) class)) }
    ensures held { IfOk result (λ now. (table : ValuesView) (scope : OneScope) → IsHeldClass table class → IsHeldNow table scope now) }
{
    let code = Code::Function(name, part.stmt.pos);
    match class {
        None => on_none(alloc, part.stmt.pos, code, part.to(Stage::Done)),
        Some(of) => on_one(alloc, part.stmt.pos, code, of, part.to(Stage::Done)),
    }
}

/// A whole statement is opened that does not begin with the value of an expression.
#[tactic(auto, using(py_tree::proofs::StmtTrees::form_trees))]
fn plainly<'a>(alloc: Global, stmt: &'a Stmt, spot: Spot) -> Result<Now<'a>, Memory>
    ensures means { IfOk result (λ now. (script : ScriptTree) (next : Task → Act) (here : Here) (table : ValuesView) → StandsIn table spot here
        → now_act script next here (now_seen table now) ≡ plain_rule script next here stmt.entry.now.pos (form_of stmt.entry.now.form.value)) }
    ensures held { IfOk result (λ now. (table : ValuesView) → IsHeldClass table spot.in_class → IsHeldNow table spot.scope now) }
{
    let at = stmt.pos;
    let part = Part {
        stmt,
        stage: Stage::Done,
    };
    match &*stmt.form {
        Form::Aug(_, _, _, _) => augmented(alloc, part, spot.scope),
        Form::Del(target) => deleted(alloc, target, part, spot.scope),
        Form::Pass => Ok(Now::Ended(End::Normal)),
        Form::Break => Ok(Now::Ended(End::Broke)),
        Form::Continue => Ok(Now::Ended(End::Continued)),
        Form::Return(e) => match e {
            None => Ok(Now::Ended(End::Returned(Value::None))),
            Some(_) => Ok(Now::Ended(End::Normal)),
        },
        Form::Raise(e) => match e {
            None => raised(alloc, spot.handled, part),
            Some(_) => Ok(Now::Ended(End::Normal)),
        },
        Form::Assert(test, _) => start(alloc, test, spot.scope, part.to(Stage::Tested(0))),
        Form::Import(name) => on_none(alloc, at, Code::Import(name), part),
        Form::If(_, _) => Ok(Now::Opens(part.to(Stage::Tested(0)))),
        Form::While(_, _) => Ok(Now::Opens(part.to(Stage::Tested(0)))),
        Form::Try(_, _) => Ok(Now::Opens(part.to(Stage::Body))),
        Form::Def(name, _, _, _) => defined(alloc, name, spot.in_class, part),
        Form::Class(name, base, _) => match base {
            None => on_none(alloc, at, Code::Class(name, at), part.to(Stage::Entered)),
            Some(_) => Ok(Now::Ended(End::Normal)),
        },
        Form::Do(_) => Ok(Now::Ended(End::Normal)),
        Form::Assign(_, _) => Ok(Now::Ended(End::Normal)),
        Form::For(_, _, _) => Ok(Now::Ended(End::Normal)),
        Form::With(_, _, _) => Ok(Now::Ended(End::Normal)),
    }
}

/// A whole statement is opened: what is done now means what the statement means.
pub fn opened<'a>(alloc: Global, stmt: &'a Stmt, spot: Spot) -> Result<Now<'a>, Memory>
    ensures means { IfOk result (λ now. (script : ScriptTree) (next : Task → Act) (here : Here) (table : ValuesView) → StandsIn table spot here
        → now_act script next here (now_seen table now) ≡ rule script next here stmt.entry.now.pos (form_of stmt.entry.now.form.value)) }
    ensures held { IfOk result (λ now. (table : ValuesView) → IsHeldClass table spot.in_class → IsHeldNow table spot.scope now) }
{
    match first_in(stmt) {
        None => plainly(alloc, stmt, spot),
        Some(e) => {
            let part = Part {
                stmt,
                stage: Stage::Valued,
            };
            start(alloc, e, spot.scope, part)
        }
    }
}
