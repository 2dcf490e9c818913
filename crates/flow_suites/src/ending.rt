// What follows the end of a suite that a statement waits for.
ghost use Rattle.std.specs.Prelude.{◌≡◌, ◌+◌, IfOk};
ghost use Rattle.py_tree.specs.Erasure.{form_of};
ghost use Rattle.py_tree.specs.Tree.{ScriptTree};
ghost use Rattle.py_value.specs.Contents.{contents};
ghost use Rattle.py_value.specs.Values.{ValuesView, IsNamed};
ghost use Rattle.py_model.specs.Act.{Act};
ghost use Rattle.py_model.specs.Expressions.{Here, Task};
ghost use Rattle.py_model.specs.Statements.{task, turned};
ghost use Rattle.interp_eval.specs.declared.frames.Scope.{Scope as OneScope};
ghost use Rattle.flow_frames.specs.Held.{IsHeldEnd, IsHeldGoal, IsHeldNow, IsHeldStage};
ghost use Rattle.flow_frames.specs.Machine.{body_ended, handled_end, handler_in, inside_ended, now_act, open_act, spread_ended, suite_ended, turn_ended};
ghost use Rattle.flow_frames.specs.Seen.{end_seen, goal_seen, now_seen, stage_seen};
ghost use Rattle.flow_suites.specs.Ending.{class_ended};

use flow_frames::{Code, End, Goal, Now, Part, Stage, on_none, on_one};
use flow_openings::handler_in;
use prov_base::{Memory, Name};
use py_tree::Form;
use py_value::Value;
use std::alloc::Global;

/// How a loop goes on after a turn that ended so: with the next one, or not.
fn looped<'a>(next: Part<'a>, end: End) -> Now<'a>
    ensures means { (script : ScriptTree) (rest : Task → Act) (here : Here) (table : ValuesView)
        → now_act script rest here (now_seen table result) ≡ turned (open_act script rest here next.entry.stmt.now.pos (form_of next.entry.stmt.now.form.value) (stage_seen table next.entry.stage)) (end_seen table end) }
    ensures held { (table : ValuesView) (scope : OneScope) → IsHeldStage table next.entry.stage → IsHeldEnd table end → IsHeldNow table scope result }
{
    match end {
        End::Normal => Now::Opens(next),
        End::Continued => Now::Opens(next),
        End::Broke => Now::Ended(End::Normal),
        End::Returned(value) => Now::Ended(End::Returned(value)),
        End::Threw(o, line) => Now::Ended(End::Threw(o, line)),
    }
}

/// The suite of a `while` or a `try` has ended.
#[tactic(auto, using(py_tree::proofs::StmtTrees::form_trees))]
fn body_ended<'a>(part: Part<'a>, end: End) -> Now<'a>
    ensures means { (script : ScriptTree) (next : Task → Act) (here : Here) (table : ValuesView)
        → now_act script next here (now_seen table result) ≡ body_ended script next (task script next) here part.entry.stmt.now.pos (form_of part.entry.stmt.now.form.value) (end_seen table end) }
    ensures held { (table : ValuesView) (scope : OneScope) → IsHeldEnd table end → IsHeldNow table scope result }
{
    match &*part.stmt.form {
        Form::While(_, _) => looped(part.to(Stage::Tested(0)), end),
        Form::Try(_, _) => match end {
            End::Threw(o, line) => Now::Opens(part.to(Stage::Handler(0, o, line))),
            End::Normal => Now::Ended(end),
            End::Broke => Now::Ended(end),
            End::Continued => Now::Ended(end),
            End::Returned(_) => Now::Ended(end),
        },
        Form::Do(_) => Now::Ended(end),
        Form::Assign(_, _) => Now::Ended(end),
        Form::Aug(_, _, _, _) => Now::Ended(end),
        Form::Del(_) => Now::Ended(end),
        Form::Pass => Now::Ended(end),
        Form::Break => Now::Ended(end),
        Form::Continue => Now::Ended(end),
        Form::Return(_) => Now::Ended(end),
        Form::Raise(_) => Now::Ended(end),
        Form::Assert(_, _) => Now::Ended(end),
        Form::Import(_) => Now::Ended(end),
        Form::If(_, _) => Now::Ended(end),
        Form::For(_, _, _) => Now::Ended(end),
        Form::With(_, _, _) => Now::Ended(end),
        Form::Def(_, _, _, _) => Now::Ended(end),
        Form::Class(_, _, _) => Now::Ended(end),
    }
}

/// How many turns there were with one more. A budget has fewer steps than can be counted; past that it is out of memory.
fn next_turn(number: u32) -> Result<u32, Memory>
    ensures { IfOk result (λ after. after ≡ number + 1) }
{
    if number == u32::MAX {
        return Err(Memory);
    }
    Ok(number + 1)
}

/// The suite of a turn of a `for` has ended.
#[tactic(auto, using(py_tree::proofs::StmtTrees::form_trees))]
fn turn_ended<'a>(
    part: Part<'a>,
    items: Value,
    number: u32,
    size: Value,
    end: End,
) -> Result<Now<'a>, Memory>
    ensures means { IfOk result (λ now. (script : ScriptTree) (next : Task → Act) (here : Here) (table : ValuesView)
        → now_act script next here (now_seen table now) ≡ turn_ended script next (task script next) here part.entry.stmt.now.pos (form_of part.entry.stmt.now.form.value) (contents table items) number (contents table size) (end_seen table end)) }
    ensures held { IfOk result (λ now. (table : ValuesView) (scope : OneScope) → IsNamed table items → IsNamed table size → IsHeldEnd table end → IsHeldNow table scope now) }
{
    let after = next_turn(number)?;
    match &*part.stmt.form {
        Form::For(_, _, _) => Ok(looped(part.to(Stage::Turn(items, after, size)), end)),
        Form::Do(_) => Ok(Now::Ended(end)),
        Form::Assign(_, _) => Ok(Now::Ended(end)),
        Form::Aug(_, _, _, _) => Ok(Now::Ended(end)),
        Form::Del(_) => Ok(Now::Ended(end)),
        Form::Pass => Ok(Now::Ended(end)),
        Form::Break => Ok(Now::Ended(end)),
        Form::Continue => Ok(Now::Ended(end)),
        Form::Return(_) => Ok(Now::Ended(end)),
        Form::Raise(_) => Ok(Now::Ended(end)),
        Form::Assert(_, _) => Ok(Now::Ended(end)),
        Form::Import(_) => Ok(Now::Ended(end)),
        Form::If(_, _) => Ok(Now::Ended(end)),
        Form::While(_, _) => Ok(Now::Ended(end)),
        Form::Try(_, _) => Ok(Now::Ended(end)),
        Form::With(_, _, _) => Ok(Now::Ended(end)),
        Form::Def(_, _, _, _) => Ok(Now::Ended(end)),
        Form::Class(_, _, _) => Ok(Now::Ended(end)),
    }
}

/// The suite of a class has ended: its name is bound where it ended normally.
fn class_ended<'a>(
    alloc: Global,
    part: Part<'a>,
    name: &'a Name,
    class: Value,
    end: End,
) -> Result<Now<'a>, Memory>
    ensures means { IfOk result (λ now. (script : ScriptTree) (next : Task → Act) (here : Here) (table : ValuesView)
        → now_act script next here (now_seen table now) ≡ class_ended here part.entry.stmt.now.pos name.entry.now (contents table class) (end_seen table end)) }
    ensures held { IfOk result (λ now. (table : ValuesView) (scope : OneScope) → IsNamed table class → IsHeldEnd table end → IsHeldNow table scope now) }
{
    match end {
        End::Normal => on_one(
            alloc,
            part.stmt.pos,
            Code::Bind(name),
            class,
            part.to(Stage::Done),
        ),
        End::Broke => Ok(Now::Ended(End::Broke)),
        End::Continued => Ok(Now::Ended(End::Continued)),
        End::Returned(value) => Ok(Now::Ended(End::Returned(value))),
        End::Threw(o, line) => Ok(Now::Ended(End::Threw(o, line))),
    }
}

/// The suite of a `with` or of a class has ended.
#[tactic(auto, using(py_tree::proofs::StmtTrees::form_trees))]
fn inside_ended<'a>(
    alloc: Global,
    part: Part<'a>,
    value: Value,
    end: End,
) -> Result<Now<'a>, Memory>
    ensures means { IfOk result (λ now. (script : ScriptTree) (next : Task → Act) (here : Here) (table : ValuesView)
        → now_act script next here (now_seen table now) ≡ inside_ended script next here part.entry.stmt.now.pos (form_of part.entry.stmt.now.form.value) (contents table value) (end_seen table end)) }
    ensures held { IfOk result (λ now. (table : ValuesView) (scope : OneScope) → IsNamed table value → IsHeldEnd table end → IsHeldNow table scope now) }
{
    match &*part.stmt.form {
        Form::With(_, _, _) => {
            on_one(
                alloc,
                part.stmt.pos,
                Code::Close,
                value,
                part.to(Stage::Closes(end)),
            )
        }
        Form::Class(name, _, _) => class_ended(alloc, part, name, value, end),
        Form::Do(_) => Ok(Now::Ended(end)),
        Form::Assign(_, _) => Ok(Now::Ended(end)),
        Form::Aug(_, _, _, _) => Ok(Now::Ended(end)),
        Form::Del(_) => Ok(Now::Ended(end)),
        Form::Pass => Ok(Now::Ended(end)),
        Form::Break => Ok(Now::Ended(end)),
        Form::Continue => Ok(Now::Ended(end)),
        Form::Return(_) => Ok(Now::Ended(end)),
        Form::Raise(_) => Ok(Now::Ended(end)),
        Form::Assert(_, _) => Ok(Now::Ended(end)),
        Form::Import(_) => Ok(Now::Ended(end)),
        Form::If(_, _) => Ok(Now::Ended(end)),
        Form::While(_, _) => Ok(Now::Ended(end)),
        Form::For(_, _, _) => Ok(Now::Ended(end)),
        Form::Try(_, _) => Ok(Now::Ended(end)),
        Form::Def(_, _, _, _) => Ok(Now::Ended(end)),
    }
}

/// The suite of a handler has ended: the name of its exception is unset.
fn handled_ended<'a>(
    alloc: Global,
    part: Part<'a>,
    number: usize,
    end: End,
) -> Result<Now<'a>, Memory>
    ensures means { IfOk result (λ now. (script : ScriptTree) (next : Task → Act) (here : Here) (table : ValuesView)
        → now_act script next here (now_seen table now) ≡ handled_end script next here (handler_in (form_of part.entry.stmt.now.form.value) number) (end_seen table end)) }
    ensures held { IfOk result (λ now. (table : ValuesView) (scope : OneScope) → IsHeldEnd table end → IsHeldNow table scope now) }
{
    let Some(handler) = handler_in(part.stmt, number) else {
        return Ok(Now::Ended(end));
    };
    match &handler.1 {
        None => Ok(Now::Ended(end)),
        Some(bound) => {
            let closes = part.to(Stage::Closes(end));
            on_none(alloc, bound.at, Code::Clear(&bound.name), closes)
        }
    }
}

/// The number of the target behind one. The targets of a statement have numbers; past these it is out of memory.
fn next_target(number: usize) -> Result<usize, Memory>
    ensures { IfOk result (λ after. after ≡ number + 1) }
{
    if number == usize::MAX {
        return Err(Memory);
    }
    Ok(number + 1)
}

/// One of several targets has its item, which is told by a jump: the next one is next.
fn spread_ended<'a>(
    part: Part<'a>,
    goal: Goal,
    number: usize,
    value: Value,
    end: End,
) -> Result<Now<'a>, Memory>
    ensures means { IfOk result (λ now. (script : ScriptTree) (next : Task → Act) (here : Here) (table : ValuesView)
        → now_act script next here (now_seen table now) ≡ spread_ended script next here part.entry.stmt.now.pos (form_of part.entry.stmt.now.form.value) (goal_seen table goal) number (contents table value) (end_seen table end)) }
    ensures held { IfOk result (λ now. (table : ValuesView) (scope : OneScope) → IsHeldGoal table goal → IsNamed table value → IsHeldEnd table end → IsHeldNow table scope now) }
{
    match end {
        End::Broke => {
            let after = next_target(number)?;
            Ok(Now::Opens(part.to(Stage::Spreads(goal, after, value))))
        }
        End::Normal => Ok(Now::Ended(End::Normal)),
        End::Continued => Ok(Now::Ended(End::Continued)),
        End::Returned(value) => Ok(Now::Ended(End::Returned(value))),
        End::Threw(o, line) => Ok(Now::Ended(End::Threw(o, line))),
    }
}

/// The suite that a part of a statement waits for has ended. A further turn is what such a task is.
pub fn part_ended<'a>(alloc: Global, part: Part<'a>, end: End) -> Result<Now<'a>, Memory>
    ensures means { IfOk result (λ now. (script : ScriptTree) (next : Task → Act) (here : Here) (table : ValuesView)
        → now_act script next here (now_seen table now) ≡ suite_ended script next (task script next) here part.entry.stmt.now.pos (form_of part.entry.stmt.now.form.value) (stage_seen table part.entry.stage) (end_seen table end)) }
    ensures held { IfOk result (λ now. (table : ValuesView) (scope : OneScope) → IsHeldStage table part.entry.stage → IsHeldEnd table end → IsHeldNow table scope now) }
{
    match part.stage {
        Stage::Body => Ok(body_ended(part, end)),
        Stage::Repeats(items, number, size) => turn_ended(part, items, number, size, end),
        Stage::Inside(value) => inside_ended(alloc, part, value, end),
        Stage::Spreads(goal, number, value) => spread_ended(part, goal, number, value, end),
        Stage::Handles(number, _) => handled_ended(alloc, part, number, end),
        Stage::Valued => Ok(Now::Ended(end)),
        Stage::Tested(_) => Ok(Now::Ended(end)),
        Stage::Answered(_) => Ok(Now::Ended(end)),
        Stage::Done => Ok(Now::Ended(end)),
        Stage::Failed => Ok(Now::Ended(end)),
        Stage::Stores(_, _) => Ok(Now::Ended(end)),
        Stage::Holder(_, _) => Ok(Now::Ended(end)),
        Stage::Index(_, _, _) => Ok(Now::Ended(end)),
        Stage::Stored(_) => Ok(Now::Ended(end)),
        Stage::Unpacked(_) => Ok(Now::Ended(end)),
        Stage::Sized(_) => Ok(Now::Ended(end)),
        Stage::Turn(_, _, _) => Ok(Now::Ended(end)),
        Stage::Item(_, _, _) => Ok(Now::Ended(end)),
        Stage::Owner => Ok(Now::Ended(end)),
        Stage::Key(_) => Ok(Now::Ended(end)),
        Stage::Based => Ok(Now::Ended(end)),
        Stage::Slotted(_) => Ok(Now::Ended(end)),
        Stage::Loaded(_, _) => Ok(Now::Ended(end)),
        Stage::Sided(_, _, _) => Ok(Now::Ended(end)),
        Stage::Changed(_, _) => Ok(Now::Ended(end)),
        Stage::Entered => Ok(Now::Ended(end)),
        Stage::Named(_) => Ok(Now::Ended(end)),
        Stage::Closes(_) => Ok(Now::Ended(end)),
        Stage::Handler(_, _, _) => Ok(Now::Ended(end)),
        Stage::Sought(_, _, _) => Ok(Now::Ended(end)),
        Stage::Matched(_, _, _) => Ok(Now::Ended(end)),
        Stage::Catches(_, _) => Ok(Now::Ended(end)),
    }
}
