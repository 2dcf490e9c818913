// A value is stored in the target of a statement; an item is deleted.
ghost use Rattle.std.specs.Prelude.{◌≡◌, IfOk, true, slice_get, Some as JustOne};
ghost use Rattle.std.specs.Option.{option_map};
ghost use Rattle.py_tree.specs.Erasure.{form_of, target_of, targets_of};
ghost use Rattle.py_tree.specs.Tree.{FormTree, ScriptTree};
ghost use Rattle.py_value.specs.Contents.{contents};
ghost use Rattle.py_value.specs.Values.{ValuesView, IsNamed};
ghost use Rattle.py_model.specs.Act.{Act};
ghost use Rattle.py_model.specs.Expressions.{Here, Task};
ghost use Rattle.py_model.specs.Statements.{count_targets};
ghost use Rattle.interp_eval.specs.declared.frames.Scope.{Scope as OneScope};
ghost use Rattle.flow_frames.specs.Held.{IsHeldGoal, IsHeldNow};
ghost use Rattle.flow_frames.specs.Machine.{goal_act, goal_target, holder_act, index_act, key_act, many_of, nth_target, now_act, several_in, owner_act, stored_act, target_in};
ghost use Rattle.flow_frames.specs.Seen.{goal_seen, now_seen};

use flow_frames::{Code, End, Goal, Now, Part, Stage, on_one, on_three, on_two, start, target_in};
use interp_eval::Scope;
use prov_base::Memory;
use py_tree::{Stmt, Target, Targets};
use py_value::Value;
use std::alloc::Global;

/// Several targets; `None` where this is one.
#[tactic(auto, using(py_tree::proofs::TargetTrees::target_trees))]
fn many_of<'a>(target: &'a Target) -> Option<&'a Targets>
    ensures { option_map (λ ts. targets_of ts.now) result ≡ many_of (JustOne (target_of target.entry.now)) }
{
    match target {
        Target::Many(targets) => Some(targets),
        Target::Var(_, _) => None,
        Target::Part(_, _, _) => None,
        Target::Field(_, _, _) => None,
    }
}

/// The targets of a statement, where it has several.
pub fn several_of<'a>(stmt: &'a Stmt) -> Option<&'a Targets>
    ensures { option_map (λ ts. targets_of ts.now) result ≡ many_of (target_in (form_of stmt.entry.now.form.value)) }
{
    match target_in(stmt) {
        None => None,
        Some(target) => many_of(target),
    }
}

/// One of several targets.
pub fn target_at<'a>(targets: &'a [Target], number: usize) -> Option<&'a Target>
    ensures { option_map (λ t. t.now) result ≡ slice_get targets.entry.now number }
{
    targets.get(number)
}

/// The target of a statement with a number, where it has several.
fn nth_target<'a>(stmt: &'a Stmt, number: usize) -> Option<&'a Target>
    ensures { option_map (λ t. target_of t.now) result ≡ nth_target number (many_of (target_in (form_of stmt.entry.now.form.value))) }
{
    match several_of(stmt) {
        None => None,
        Some(targets) => target_at(targets.list.as_slice(), number),
    }
}

/// The target of a value that is stored: that of the statement, or one of several.
pub fn goal_target<'a>(goal: Goal, stmt: &'a Stmt) -> Option<&'a Target>
    ensures { (table : ValuesView) → option_map (λ t. target_of t.now) result ≡ goal_target (goal_seen table goal) (form_of stmt.entry.now.form.value) }
{
    match goal {
        Goal::Finishes => target_in(stmt),
        Goal::Turns(_, _, _) => target_in(stmt),
        Goal::Breaks(number) => nth_target(stmt, number),
    }
}

/// Whether the target of a value that is stored is that of the statement.
fn is_whole(goal: Goal) -> bool
    ensures { result ≡ true → (table : ValuesView) (form : FormTree) → several_in (goal_seen table goal) form ≡ many_of (goal_target (goal_seen table goal) form) }
{
    match goal {
        Goal::Finishes => true,
        Goal::Turns(_, _, _) => true,
        Goal::Breaks(_) => false,
    }
}

/// How many targets there are. A script has fewer than can be counted; past that it is out of memory.
fn counted(targets: &Targets) -> Result<u32, Memory>
    ensures { IfOk result (λ count. count ≡ count_targets (targets_of targets.now)) }
{
    let count = targets.list.as_slice().len();
    if count > 4294967295 {
        return Err(Memory);
    }
    Ok(count as u32)
}

/// A value is stored in the target of a statement, or in one of several: a name is bound at once, a container is evaluated first, and for the
/// several targets of a statement it is taken apart. No script of the grammar has several targets that one of several is; where one had, memory
/// would be wanted.
#[tactic(auto, using(py_tree::proofs::TargetTrees::target_trees))]
pub fn stored<'a>(
    alloc: Global,
    part: Part<'a>,
    goal: Goal,
    value: Value,
    scope: Scope,
) -> Result<Now<'a>, Memory>
    ensures means { IfOk result (λ now. (script : ScriptTree) (next : Task → Act) (here : Here) (table : ValuesView)
        → now_act script next here (now_seen table now) ≡ stored_act script next here part.entry.stmt.now.pos (form_of part.entry.stmt.now.form.value) (goal_seen table goal) (goal_target (goal_seen table goal) (form_of part.entry.stmt.now.form.value)) (contents table value)) }
    ensures held { IfOk result (λ now. (table : ValuesView) → IsHeldGoal table goal → IsNamed table value → IsHeldNow table scope now) }
{
    let Some(target) = goal_target(goal, part.stmt) else {
        return Ok(Now::Ended(End::Normal));
    };
    let holder = part.to(Stage::Holder(goal, value));
    match target {
        Target::Var(at, name) => {
            let stored = part.to(Stage::Stored(goal));
            on_one(alloc, *at, Code::Bind(name), value, stored)
        }
        Target::Part(_, e, _) => start(alloc, e, scope, holder),
        Target::Field(_, e, _) => start(alloc, e, scope, holder),
        Target::Many(targets) => {
            if !is_whole(goal) {
                return Err(Memory);
            }
            let count = counted(targets)?;
            let unpacked = part.to(Stage::Unpacked(goal));
            on_one(alloc, part.stmt.pos, Code::Unpack(count), value, unpacked)
        }
    }
}

/// The container of a target is there: its index is evaluated, or its attribute is set.
#[tactic(auto, using(py_tree::proofs::TargetTrees::target_trees))]
pub fn held<'a>(
    alloc: Global,
    part: Part<'a>,
    goal: Goal,
    value: Value,
    owner: Value,
    scope: Scope,
) -> Result<Now<'a>, Memory>
    ensures means { IfOk result (λ now. (script : ScriptTree) (next : Task → Act) (here : Here) (table : ValuesView)
        → now_act script next here (now_seen table now) ≡ holder_act script next here part.entry.stmt.now.pos (form_of part.entry.stmt.now.form.value) (goal_seen table goal) (goal_target (goal_seen table goal) (form_of part.entry.stmt.now.form.value)) (contents table value) (contents table owner)) }
    ensures held { IfOk result (λ now. (table : ValuesView) → IsHeldGoal table goal → IsNamed table value → IsNamed table owner → IsHeldNow table scope now) }
{
    let Some(target) = goal_target(goal, part.stmt) else {
        return Ok(Now::Ended(End::Normal));
    };
    match target {
        Target::Part(_, _, index) => {
            let part = part.to(Stage::Index(goal, value, owner));
            start(alloc, index, scope, part)
        }
        Target::Field(at, _, name) => {
            let stored = part.to(Stage::Stored(goal));
            on_two(alloc, *at, Code::SetField(name), owner, value, stored)
        }
        Target::Var(_, _) => Ok(Now::Ended(End::Normal)),
        Target::Many(_) => Ok(Now::Ended(End::Normal)),
    }
}

/// The index of a target is there: the item is set.
#[tactic(auto, using(py_tree::proofs::TargetTrees::target_trees))]
pub fn indexed<'a>(
    alloc: Global,
    part: Part<'a>,
    goal: Goal,
    value: Value,
    owner: Value,
    index: Value,
) -> Result<Now<'a>, Memory>
    ensures means { IfOk result (λ now. (script : ScriptTree) (next : Task → Act) (here : Here) (table : ValuesView)
        → now_act script next here (now_seen table now) ≡ index_act script next here part.entry.stmt.now.pos (form_of part.entry.stmt.now.form.value) (goal_seen table goal) (goal_target (goal_seen table goal) (form_of part.entry.stmt.now.form.value)) (contents table value) (contents table owner) (contents table index)) }
    ensures held { IfOk result (λ now. (table : ValuesView) (scope : OneScope) → IsHeldGoal table goal → IsNamed table value → IsNamed table owner → IsNamed table index → IsHeldNow table scope now) }
{
    let Some(target) = goal_target(goal, part.stmt) else {
        return Ok(Now::Ended(End::Normal));
    };
    match target {
        Target::Part(at, _, _) => {
            let stored = part.to(Stage::Stored(goal));
            on_three(alloc, *at, Code::SetItem, owner, index, value, stored)
        }
        Target::Field(_, _, _) => Ok(Now::Ended(End::Normal)),
        Target::Var(_, _) => Ok(Now::Ended(End::Normal)),
        Target::Many(_) => Ok(Now::Ended(End::Normal)),
    }
}

/// What follows a value that was stored.
pub fn reached<'a>(part: Part<'a>, goal: Goal) -> Now<'a>
    ensures means { (script : ScriptTree) (next : Task → Act) (here : Here) (table : ValuesView)
        → now_act script next here (now_seen table result) ≡ goal_act script next here part.entry.stmt.now.pos (goal_seen table goal) (form_of part.entry.stmt.now.form.value) }
    ensures held { (table : ValuesView) (scope : OneScope) → IsHeldGoal table goal → IsHeldNow table scope result }
{
    match goal {
        Goal::Finishes => Now::Ended(End::Normal),
        Goal::Turns(items, number, size) => {
            Now::Opens(part.to(Stage::Repeats(items, number, size)))
        }
        Goal::Breaks(_) => Now::Ended(End::Broke),
    }
}

/// The container of what is deleted is there: its index is evaluated.
#[tactic(auto, using(py_tree::proofs::TargetTrees::target_trees))]
pub fn owned<'a>(
    alloc: Global,
    part: Part<'a>,
    owner: Value,
    scope: Scope,
) -> Result<Now<'a>, Memory>
    ensures means { IfOk result (λ now. (script : ScriptTree) (next : Task → Act) (here : Here) (table : ValuesView)
        → now_act script next here (now_seen table now) ≡ owner_act script next here (target_in (form_of part.entry.stmt.now.form.value)) (contents table owner)) }
    ensures held { IfOk result (λ now. (table : ValuesView) → IsNamed table owner → IsHeldNow table scope now) }
{
    let Some(target) = target_in(part.stmt) else {
        return Ok(Now::Ended(End::Normal));
    };
    match target {
        Target::Part(_, _, index) => start(alloc, index, scope, part.to(Stage::Key(owner))),
        Target::Field(_, _, _) => Ok(Now::Ended(End::Normal)),
        Target::Var(_, _) => Ok(Now::Ended(End::Normal)),
        Target::Many(_) => Ok(Now::Ended(End::Normal)),
    }
}

/// The index of what is deleted is there: the item is deleted.
#[tactic(auto, using(py_tree::proofs::TargetTrees::target_trees))]
pub fn keyed<'a>(
    alloc: Global,
    part: Part<'a>,
    owner: Value,
    index: Value,
) -> Result<Now<'a>, Memory>
    ensures means { IfOk result (λ now. (script : ScriptTree) (next : Task → Act) (here : Here) (table : ValuesView)
        → now_act script next here (now_seen table now) ≡ key_act script next here (target_in (form_of part.entry.stmt.now.form.value)) (contents table owner) (contents table index)) }
    ensures held { IfOk result (λ now. (table : ValuesView) (scope : OneScope) → IsNamed table owner → IsNamed table index → IsHeldNow table scope now) }
{
    let Some(target) = target_in(part.stmt) else {
        return Ok(Now::Ended(End::Normal));
    };
    match target {
        Target::Part(at, _, _) => {
            let done = part.to(Stage::Done);
            on_two(alloc, *at, Code::DeleteItem, owner, index, done)
        }
        Target::Field(_, _, _) => Ok(Now::Ended(End::Normal)),
        Target::Var(_, _) => Ok(Now::Ended(End::Normal)),
        Target::Many(_) => Ok(Now::Ended(End::Normal)),
    }
}
