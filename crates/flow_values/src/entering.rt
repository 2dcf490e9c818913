// A call that an expression waits for is next, or it fails; and the suite of a function is next.
ghost use Rattle.std.specs.Prelude.{◌≡◌, ◌<◌, ◌∷◌, map, OnOk, Some as JustOne};
ghost use Rattle.std.specs.Option.{option_map};
ghost use Rattle.py_tree.specs.Erasure.{form_of, suite_of};
ghost use Rattle.py_tree.specs.Tree.{ScriptTree};
ghost use Rattle.py_value.specs.Contents.{contents};
ghost use Rattle.py_value.specs.Values.{ValuesView, IsNamed};
ghost use Rattle.py_model.specs.Act.{Act, ret, to};
ghost use Rattle.py_model.specs.Expressions.{Task, inside, left_with};
ghost use Rattle.py_model.specs.Statements.{suite};
ghost use Rattle.script_names.specs.Scopes.{function_in};
ghost use Rattle.script_names.specs.Finding.{found_function};
ghost use Rattle.interp_eval.specs.Held.{AreAllNamed, AreHeld};
ghost use Rattle.interp_eval.specs.Seen.{machine_seen};
ghost use Rattle.flow_frames.specs.Held.{IsHeldCallee, IsHeldCaller, IsHeldFlow, IsHeldStage};
ghost use Rattle.flow_frames.specs.Machine.{gives_back, resumes, then_act};
ghost use Rattle.flow_frames.specs.Seen.{frame_seen, here_seen, stage_seen};
ghost use Rattle.flow_values.specs.Calls.{IsHandedOver, callee_for, calling_so, failing_so};
ghost use Rattle.flow_values.specs.Step.{IsHeldNext, meant};
ghost use Rattle.flow_values.specs.Value.{GoesOnFrom};

use crate::expression::{let_arguments_go, let_go};
use crate::next::FlowNext;
use flow_calls::in_front;
use flow_frames::{Callee, Caller, Code, FlowFrames, Giving, Now, Part, Spot, Stage, Waits, Work};
use interp_eval::{EvalFrames, Scope};
use prov_base::{Memory, Pos};
use py_model::Args;
use py_value::Value;
use script_names::Found;
use std::alloc::Global;

/// What is called by a value; None where that is no function and no class.
fn callee_of(f: Value) -> Option<Callee>
    ensures { result ≡ callee_for f }
{
    match f {
        Value::Fn(place) => Some(Callee::Function(place)),
        Value::Class(_) => Some(Callee::Class(f)),
        Value::Exc(_) => Some(Callee::Class(f)),
        Value::None => None,
        Value::Bool(_) => None,
        Value::Int(_) => None,
        Value::Text(_) => None,
        Value::Tuple(_) => None,
        Value::Range(_, _, _) => None,
        Value::Builtin(_) => None,
        Value::Object(_) => None,
    }
}

/// A call that an expression waits for is next.
pub fn wait_call<'a>(
    alloc: Global,
    frames: &mut FlowFrames<'a>,
    caller: Box<Caller<'a>>,
    at: Pos,
    callee: Callee,
    values: Args,
    part: Part<'a>,
) -> Result<FlowNext, Memory>
    ensures means { GoesOnFrom (λ script. calling_so script frames.old caller.entry.value at callee values part.entry) frames.new result }
    ensures held { (table : ValuesView) → IsHeldFlow table frames.old → IsHeldCaller table frames.old.spot.scope caller.entry.value → IsHeldCallee table callee → AreAllNamed table values → IsHeldStage table part.entry.stage → IsHeldNext table frames.new result }
{
    let work = Work::Calls(caller, at, callee, values);
    let giving = Box::new(alloc, Giving { work, part })?;
    frames.now = Now::Gives(giving);
    Ok(FlowNext::More)
}

/// The call that a step of an expression came to is next. A step comes to calls of functions and classes alone; for another value it is out of memory.
pub(crate) fn hand_over<'a>(
    alloc: Global,
    frames: &mut FlowFrames<'a>,
    eval: EvalFrames<'a>,
    f: Value,
    arguments: Args,
    at: Pos,
    part: Part<'a>,
) -> Result<FlowNext, Memory>
    ensures means { IsHandedOver f arguments at eval.entry part.entry frames.old frames.new result }
    ensures held { (table : ValuesView) → IsHeldFlow table frames.old → IsNamed table f → AreAllNamed table arguments → AreHeld table eval.entry → eval.entry.scope ≡ frames.old.spot.scope → IsHeldStage table part.entry.stage → IsHeldNext table frames.new result }
{
    let Some(callee) = callee_of(f) else {
        let_go(eval);
        let_arguments_go(arguments);
        return Err(Memory);
    };
    let caller = Box::new(alloc, Caller { eval, made: None })?;
    wait_call(alloc, frames, caller, at, callee, arguments, part)
}

/// A failing call is next, for a reason, with all its values.
fn wait_fail<'a>(
    alloc: Global,
    frames: &mut FlowFrames<'a>,
    at: Pos,
    reason: u32,
    values: Vec<Value>,
    part: Part<'a>,
) -> Result<FlowNext, Memory>
    ensures means { GoesOnFrom (λ script. failing_so script frames.old at reason values.items) frames.new result }
    ensures held { (table : ValuesView) → IsHeldFlow table frames.old → AreAllNamed table values.items → IsHeldNext table frames.new result }
{
    let work = Work::Operation(at, Code::NoCall(reason), values);
    let part = Part {
        stmt: part.stmt,
        stage: Stage::Done,
    };
    let giving = Box::new(alloc, Giving { work, part })?;
    frames.now = Now::Gives(giving);
    Ok(FlowNext::More)
}

/// A failing call of a value is next, for a reason, with its arguments.
pub fn fail_call<'a>(
    alloc: Global,
    frames: &mut FlowFrames<'a>,
    at: Pos,
    reason: u32,
    called: Value,
    arguments: &[Value],
    part: Part<'a>,
) -> Result<FlowNext, Memory>
    ensures means { GoesOnFrom (λ script. failing_so script frames.old at reason (called ∷ arguments.now)) frames.new result }
    ensures held { (table : ValuesView) → IsHeldFlow table frames.old → IsNamed table called → AreAllNamed table arguments.now → IsHeldNext table frames.new result }
{
    match in_front(alloc, called, arguments) {
        Err(refused) => Err(refused),
        Ok(values) => wait_fail(alloc, frames, at, reason, values, part),
    }
}

/// The suite of a function is next, in an activation, and its caller waits.
pub fn run_body<'a>(
    frames: &mut FlowFrames<'a>,
    caller: Box<Caller<'a>>,
    activation: u32,
    found: Found<'a>,
    part: Part<'a>,
) -> Result<(), Memory>
    requires { frames.old.spot.open_activations < 1000 }
    ensures means { OnOk result ((script : ScriptTree) (next : Task → Act) (table : ValuesView) → function_in script (JustOne found.entry.number) ≡ JustOne (found_function found.entry)
        → to (to (suite script next (inside script next (here_seen script table frames.old.spot) (found_function found.entry) activation) (found_function found.entry).body)
        (left_with script next (gives_back script next (here_seen script table frames.old.spot) (machine_seen table caller.entry.value.eval) (then_act script next (here_seen script table frames.old.spot) part.entry.stmt.now.pos (form_of part.entry.stmt.now.form.value) (stage_seen table part.entry.stage))
        (option_map (contents table) caller.entry.value.made)))) (resumes script next (map (frame_seen script table) frames.old.below.items) (λ how. ret how)) ≡ meant script frames.new table next) }
    ensures held { OnOk result ((table : ValuesView) → IsHeldFlow table frames.old → IsHeldCaller table frames.old.spot.scope caller.entry.value → IsHeldStage table part.entry.stage → IsHeldFlow table frames.new) }
{
    let spot = Spot {
        scope: Scope {
            activation,
            function: Some(found.number),
        },
        open_activations: frames.spot.open_activations + 1,
        handled: None,
        in_class: None,
        line: frames.spot.line,
    };
    let now = Now::InSuite(found.body.list.as_slice());
    frames.push(Waits::Part(Some(caller), part), spot, now)
}
