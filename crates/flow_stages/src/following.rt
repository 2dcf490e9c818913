// What follows a value in a statement.
ghost use Rattle.std.specs.Prelude.{◌≡◌, IfOk};
ghost use Rattle.py_tree.specs.Erasure.{form_of};
ghost use Rattle.py_tree.specs.Tree.{ScriptTree};
ghost use Rattle.py_value.specs.Contents.{contents};
ghost use Rattle.py_value.specs.Values.{ValuesView, IsNamed};
ghost use Rattle.py_model.specs.Act.{Act};
ghost use Rattle.py_model.specs.Expressions.{Here, Task};
ghost use Rattle.interp_eval.specs.declared.frames.Scope.{Scope as OneScope};
ghost use Rattle.flow_frames.specs.Held.{IsHeldNow, IsHeldStage};
ghost use Rattle.flow_frames.specs.Machine.{now_act, then_act, valued_act};
ghost use Rattle.flow_frames.specs.Seen.{now_seen, stage_seen};

use crate::handling::{entered, matched};
use flow_frames::{Code, End, Goal, Now, Part, Stage, on_one, on_two};
use flow_openings::{answered, tested};
use flow_targets::{
    based, changed, held, indexed, keyed, loaded, owned, reached, sided, slotted, stored,
};
use interp_eval::Scope;
use prov_base::Memory;
use py_tree::Form;
use py_value::Value;
use std::alloc::Global;

/// What follows the value of the expression of a statement.
#[tactic(auto, using(py_tree::proofs::StmtTrees::form_trees))]
fn valued<'a>(alloc: Global, part: Part<'a>, value: Value, scope: Scope) -> Result<Now<'a>, Memory>
    ensures means { IfOk result (λ now. (script : ScriptTree) (next : Task → Act) (here : Here) (table : ValuesView)
        → now_act script next here (now_seen table now) ≡ valued_act script next here part.entry.stmt.now.pos (form_of part.entry.stmt.now.form.value) (contents table value)) }
    ensures held { IfOk result (λ now. (table : ValuesView) → IsNamed table value → IsHeldNow table scope now) }
{
    let at = part.stmt.pos;
    match &*part.stmt.form {
        Form::Assign(_, _) => stored(alloc, part, Goal::Finishes, value, scope),
        Form::Return(_) => Ok(Now::Ended(End::Returned(value))),
        Form::Raise(_) => on_one(alloc, at, Code::Raise, value, part.to(Stage::Done)),
        Form::For(_, _, _) => on_one(alloc, at, Code::Size, value, part.to(Stage::Sized(value))),
        Form::With(_, _, _) => on_one(alloc, at, Code::Enter, value, part.to(Stage::Entered)),
        Form::Class(name, _, _) => {
            let entered = part.to(Stage::Entered);
            on_one(alloc, at, Code::Class(name, at), value, entered)
        }
        Form::Do(_) => Ok(Now::Ended(End::Normal)),
        Form::Aug(_, _, _, _) => Ok(Now::Ended(End::Normal)),
        Form::Del(_) => Ok(Now::Ended(End::Normal)),
        Form::Pass => Ok(Now::Ended(End::Normal)),
        Form::Break => Ok(Now::Ended(End::Normal)),
        Form::Continue => Ok(Now::Ended(End::Normal)),
        Form::Assert(_, _) => Ok(Now::Ended(End::Normal)),
        Form::Import(_) => Ok(Now::Ended(End::Normal)),
        Form::If(_, _) => Ok(Now::Ended(End::Normal)),
        Form::While(_, _) => Ok(Now::Ended(End::Normal)),
        Form::Try(_, _) => Ok(Now::Ended(End::Normal)),
        Form::Def(_, _, _, _) => Ok(Now::Ended(End::Normal)),
    }
}

/// A part of a statement goes on with the value that it waits for.
pub fn after<'a>(
    alloc: Global,
    part: Part<'a>,
    value: Value,
    scope: Scope,
) -> Result<Now<'a>, Memory>
    ensures means { IfOk result (λ now. (script : ScriptTree) (next : Task → Act) (here : Here) (table : ValuesView)
        → now_act script next here (now_seen table now) ≡ then_act script next here part.entry.stmt.now.pos (form_of part.entry.stmt.now.form.value) (stage_seen table part.entry.stage) (contents table value)) }
    ensures held { IfOk result (λ now. (table : ValuesView) → IsHeldStage table part.entry.stage → IsNamed table value → IsHeldNow table scope now) }
{
    match part.stage {
        Stage::Valued => valued(alloc, part, value, scope),
        Stage::Tested(number) => tested(alloc, part, number, value),
        Stage::Answered(number) => answered(alloc, part, number, value, scope),
        Stage::Failed => on_one(
            alloc,
            part.stmt.pos,
            Code::Fail,
            value,
            part.to(Stage::Done),
        ),
        Stage::Holder(goal, v) => held(alloc, part, goal, v, value, scope),
        Stage::Index(goal, v, owner) => indexed(alloc, part, goal, v, owner, value),
        Stage::Stored(goal) => Ok(reached(part, goal)),
        Stage::Unpacked(goal) => Ok(Now::Opens(part.to(Stage::Spreads(goal, 0, value)))),
        Stage::Sized(items) => Ok(Now::Opens(part.to(Stage::Turn(items, 0, value)))),
        Stage::Item(items, number, size) => {
            stored(alloc, part, Goal::Turns(items, number, size), value, scope)
        }
        Stage::Owner => owned(alloc, part, value, scope),
        Stage::Key(owner) => keyed(alloc, part, owner, value),
        Stage::Based => based(alloc, part, value, scope),
        Stage::Slotted(owner) => slotted(alloc, part, owner, value),
        Stage::Loaded(owner, index) => loaded(alloc, part, owner, index, value, scope),
        Stage::Sided(owner, index, standing) => {
            sided(alloc, part, owner, index, standing, value)
        }
        Stage::Changed(owner, index) => changed(alloc, part, owner, index, value),
        Stage::Entered => entered(alloc, part, value),
        Stage::Named(file) => Ok(Now::Opens(part.to(Stage::Inside(file)))),
        Stage::Closes(end) => Ok(Now::Ended(end)),
        Stage::Sought(number, o, line) => {
            let matched = part.to(Stage::Matched(number, o, line));
            on_two(
                alloc,
                part.stmt.pos,
                Code::Match,
                Value::Object(o),
                value,
                matched,
            )
        }
        Stage::Matched(number, o, line) => matched(alloc, part, number, o, line, value),
        Stage::Catches(number, o) => Ok(Now::Opens(part.to(Stage::Handles(number, o)))),
        Stage::Done => Ok(Now::Ended(End::Normal)),
        Stage::Body => Ok(Now::Ended(End::Normal)),
        Stage::Stores(_, _) => Ok(Now::Ended(End::Normal)),
        Stage::Spreads(_, _, _) => Ok(Now::Ended(End::Normal)),
        Stage::Turn(_, _, _) => Ok(Now::Ended(End::Normal)),
        Stage::Repeats(_, _, _) => Ok(Now::Ended(End::Normal)),
        Stage::Inside(_) => Ok(Now::Ended(End::Normal)),
        Stage::Handler(_, _, _) => Ok(Now::Ended(End::Normal)),
        Stage::Handles(_, _) => Ok(Now::Ended(End::Normal)),
    }
}
