// An augmented assignment: the parts of its target are evaluated once, what stands there is loaded, the right side is evaluated, and the new
// value is stored.
ghost use Rattle.std.specs.Prelude.{◌≡◌, IfOk};
ghost use Rattle.std.specs.Option.{option_map};
ghost use Rattle.py_tree.specs.Erasure.{form_of};
ghost use Rattle.py_tree.specs.Tree.{ScriptTree};
ghost use Rattle.py_value.specs.Contents.{contents};
ghost use Rattle.py_value.specs.Values.{ValuesView, IsNamed};
ghost use Rattle.py_model.specs.Act.{Act};
ghost use Rattle.py_model.specs.Expressions.{Here, Task};
ghost use Rattle.interp_eval.specs.declared.frames.Scope.{Scope as OneScope};
ghost use Rattle.flow_frames.specs.Held.{IsHeldNow};
ghost use Rattle.flow_frames.specs.Machine.{based_act, change_in, changed_act, loaded_act, now_act, sided_act, slotted_act};
ghost use Rattle.flow_frames.specs.Seen.{now_seen};
ghost use Rattle.flow_targets.specs.Changing.{augmenting, change_seen};

use flow_frames::{Code, End, Now, Part, Stage, on_none, on_one, on_three, on_two, start};
use interp_eval::Scope;
use prov_base::{Memory, Pos};
use py_tree::{BinOp, Expr, Form, Stmt, Target};
use py_value::Value;
use std::alloc::Global;

/// What an augmented assignment changes, and how.
#[derive(Clone, Copy)]
pub(crate) struct Change<'a> {
    /// Its target.
    pub target: &'a Target,
    /// Its operator.
    pub sign: BinOp,
    /// The place of that.
    pub place: Pos,
    /// Its right side.
    pub right: &'a Expr,
}

/// What a statement changes; `None` where it is no augmented assignment.
#[tactic(auto, using(py_tree::proofs::StmtTrees::form_trees))]
fn change_in<'a>(stmt: &'a Stmt) -> Option<Change<'a>>
    ensures { option_map change_seen result ≡ change_in (form_of stmt.entry.now.form.value) }
{
    match &*stmt.form {
        Form::Aug(target, sign, place, right) => Some(Change {
            target,
            sign: *sign,
            place: *place,
            right,
        }),
        Form::Do(_) => None,
        Form::Assign(_, _) => None,
        Form::Del(_) => None,
        Form::Pass => None,
        Form::Break => None,
        Form::Continue => None,
        Form::Return(_) => None,
        Form::Raise(_) => None,
        Form::Assert(_, _) => None,
        Form::Import(_) => None,
        Form::If(_, _) => None,
        Form::While(_, _) => None,
        Form::For(_, _, _) => None,
        Form::Try(_, _) => None,
        Form::With(_, _, _) => None,
        Form::Def(_, _, _, _) => None,
        Form::Class(_, _, _) => None,
    }
}

/// An augmented assignment begins: a name is loaded at once, a container is evaluated first.
pub fn augmented<'a>(alloc: Global, part: Part<'a>, scope: Scope) -> Result<Now<'a>, Memory>
    ensures means { IfOk result (λ now. (script : ScriptTree) (next : Task → Act) (here : Here) (table : ValuesView)
        → now_act script next here (now_seen table now) ≡ augmenting script next here (change_in (form_of part.entry.stmt.now.form.value))) }
    ensures held { IfOk result (λ now. (table : ValuesView) → IsHeldNow table scope now) }
{
    let Some(change) = change_in(part.stmt) else {
        return Ok(Now::Ended(End::Normal));
    };
    let target = change.target;
    match target {
        Target::Var(_, _) => slotted(alloc, part, Value::None, Value::None),
        Target::Part(_, e, _) => start(alloc, e, scope, part.to(Stage::Based)),
        Target::Field(_, e, _) => start(alloc, e, scope, part.to(Stage::Based)),
        Target::Many(_) => Ok(Now::Ended(End::Normal)),
    }
}

/// The container of what is changed is there: its index is evaluated, or its attribute is loaded.
pub fn based<'a>(
    alloc: Global,
    part: Part<'a>,
    owner: Value,
    scope: Scope,
) -> Result<Now<'a>, Memory>
    ensures means { IfOk result (λ now. (script : ScriptTree) (next : Task → Act) (here : Here) (table : ValuesView)
        → now_act script next here (now_seen table now) ≡ based_act script next here (change_in (form_of part.entry.stmt.now.form.value)) (contents table owner)) }
    ensures held { IfOk result (λ now. (table : ValuesView) → IsNamed table owner → IsHeldNow table scope now) }
{
    let Some(change) = change_in(part.stmt) else {
        return Ok(Now::Ended(End::Normal));
    };
    let target = change.target;
    match target {
        Target::Part(_, _, index) => start(alloc, index, scope, part.to(Stage::Slotted(owner))),
        Target::Field(_, _, _) => slotted(alloc, part, owner, Value::None),
        Target::Var(_, _) => Ok(Now::Ended(End::Normal)),
        Target::Many(_) => Ok(Now::Ended(End::Normal)),
    }
}

/// The container and the index of what is changed are there, None where the target has none: what stands there is loaded.
pub fn slotted<'a>(
    alloc: Global,
    part: Part<'a>,
    owner: Value,
    index: Value,
) -> Result<Now<'a>, Memory>
    ensures means { IfOk result (λ now. (script : ScriptTree) (next : Task → Act) (here : Here) (table : ValuesView)
        → now_act script next here (now_seen table now) ≡ slotted_act script next here (change_in (form_of part.entry.stmt.now.form.value)) (contents table owner) (contents table index)) }
    ensures held { IfOk result (λ now. (table : ValuesView) (scope : OneScope) → IsNamed table owner → IsNamed table index → IsHeldNow table scope now) }
{
    let Some(change) = change_in(part.stmt) else {
        return Ok(Now::Ended(End::Normal));
    };
    let loaded = part.to(Stage::Loaded(owner, index));
    let target = change.target;
    match target {
        Target::Var(at, name) => on_none(alloc, *at, Code::Load(name), loaded),
        Target::Part(at, _, _) => on_two(alloc, *at, Code::Item, owner, index, loaded),
        Target::Field(at, _, name) => on_one(alloc, *at, Code::Field(name), owner, loaded),
        Target::Many(_) => Ok(Now::Ended(End::Normal)),
    }
}

/// What stands there is loaded: the right side is evaluated.
pub fn loaded<'a>(
    alloc: Global,
    part: Part<'a>,
    owner: Value,
    index: Value,
    standing: Value,
    scope: Scope,
) -> Result<Now<'a>, Memory>
    ensures means { IfOk result (λ now. (script : ScriptTree) (next : Task → Act) (here : Here) (table : ValuesView)
        → now_act script next here (now_seen table now) ≡ loaded_act script next here (change_in (form_of part.entry.stmt.now.form.value)) (contents table owner) (contents table index) (contents table standing)) }
    ensures held { IfOk result (λ now. (table : ValuesView) → IsNamed table owner → IsNamed table index → IsNamed table standing → IsHeldNow table scope now) }
{
    let Some(change) = change_in(part.stmt) else {
        return Ok(Now::Ended(End::Normal));
    };
    let sided = part.to(Stage::Sided(owner, index, standing));
    start(alloc, change.right, scope, sided)
}

/// The value of the right side is there: the operator is applied.
pub fn sided<'a>(
    alloc: Global,
    part: Part<'a>,
    owner: Value,
    index: Value,
    standing: Value,
    value: Value,
) -> Result<Now<'a>, Memory>
    ensures means { IfOk result (λ now. (script : ScriptTree) (next : Task → Act) (here : Here) (table : ValuesView)
        → now_act script next here (now_seen table now) ≡ sided_act script next here (change_in (form_of part.entry.stmt.now.form.value)) (contents table owner) (contents table index) (contents table standing) (contents table value)) }
    ensures held { IfOk result (λ now. (table : ValuesView) (scope : OneScope) → IsNamed table owner → IsNamed table index → IsNamed table standing → IsNamed table value → IsHeldNow table scope now) }
{
    let Some(change) = change_in(part.stmt) else {
        return Ok(Now::Ended(End::Normal));
    };
    let changed = part.to(Stage::Changed(owner, index));
    let code = Code::Sign(change.sign);
    on_two(alloc, change.place, code, standing, value, changed)
}

/// The new value is there: it is stored.
pub fn changed<'a>(
    alloc: Global,
    part: Part<'a>,
    owner: Value,
    index: Value,
    value: Value,
) -> Result<Now<'a>, Memory>
    ensures means { IfOk result (λ now. (script : ScriptTree) (next : Task → Act) (here : Here) (table : ValuesView)
        → now_act script next here (now_seen table now) ≡ changed_act script next here (change_in (form_of part.entry.stmt.now.form.value)) (contents table owner) (contents table index) (contents table value)) }
    ensures held { IfOk result (λ now. (table : ValuesView) (scope : OneScope) → IsNamed table owner → IsNamed table index → IsNamed table value → IsHeldNow table scope now) }
{
    let Some(change) = change_in(part.stmt) else {
        return Ok(Now::Ended(End::Normal));
    };
    let done = part.to(Stage::Done);
    let target = change.target;
    match target {
        Target::Var(at, name) => on_one(alloc, *at, Code::Bind(name), value, done),
        Target::Part(at, _, _) => { on_three(alloc, *at, Code::SetItem, owner, index, value, done) }
        Target::Field(at, _, name) => {
            on_two(alloc, *at, Code::SetField(name), owner, value, done)
        }
        Target::Many(_) => Ok(Now::Ended(End::Normal)),
    }
}
