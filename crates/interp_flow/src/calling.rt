// A call that an expression waits for is made.
ghost use Rattle.std.specs.Prelude.{◌≡◌, ◌<◌, ◌∷◌, length, Some as JustOne};
ghost use Rattle.prov_base.specs.declared.place.Pos.{Pos as OnePos};
ghost use Rattle.py_tree.specs.Erasure.{script_of};
ghost use Rattle.py_tree.specs.Tree.{ScriptTree};
ghost use Rattle.py_value.specs.Values.{ValuesView, IsNamed};
ghost use Rattle.py_model.specs.Doing.{Knew};
ghost use Rattle.py_model.specs.Told.{IsNamedAnswer};
ghost use Rattle.interp_eval.specs.Held.{AreAllNamed, AreHeld};
ghost use Rattle.interp_eval.specs.Performing.{HasState};
ghost use Rattle.flow_calls.specs.Choosing.{MayRun};
ghost use Rattle.flow_frames.specs.Held.{IsHeldBy, IsHeldCaller, IsHeldFlow, IsHeldStage};
ghost use Rattle.flow_frames.specs.declared.control.Callee.TheVariants.{Class, Function};
ghost use Rattle.flow_values.specs.Calls.{IsHeldCalleeBy, IsHeldCallerBy, alone_so, calling_so, failing_so, made_so, making_so, may_be_made};
ghost use Rattle.flow_values.specs.Step.{HoldsNext, IsHeldNext, StepsFrom};
ghost use Rattle.flow_values.specs.Value.{AreHeldStages, AreHeldValues, GoesOnFrom, IsNamedBy};

use flow_calls::{Called, Walk, called_by, enter, in_front, perform_walk};
use flow_frames::{Callee, Caller, FlowFrames, Part};
use flow_values::{
    FlowNext, fail_call, finish, keep, let_arguments_go, let_go, run_body, wait_call,
};
use interp_eval::EvalFrames;
use prov_base::{Memory, Pos};
use py_model::{Answer, Args, Doer, Op, Watch, meaning_unfolds};
use py_tree::Script;
use py_value::Value;
use script_names::Found;
use std::alloc::Global;

/// An expression that waits is let go.
fn let_caller_go(_caller: Box<Caller<'_>>) {}

/// The failing call of a value is next, for a reason, with its arguments.
fn fail_whole<'a>(
    alloc: Global,
    frames: &mut FlowFrames<'a>,
    at: Pos,
    reason: u32,
    called: Value,
    arguments: Args,
    part: Part<'a>,
) -> Result<FlowNext, Memory>
    ensures means { GoesOnFrom (λ script. failing_so script frames.old at reason (called ∷ arguments)) frames.new result }
    ensures held { (table : ValuesView) → IsHeldFlow table frames.old → IsNamed table called → AreAllNamed table arguments → IsHeldNext table frames.new result }
{
    fail_call(
        alloc,
        frames,
        at,
        reason,
        called,
        arguments.as_slice(),
        part,
    )
}

/// An activation of a function is entered with values for its parameters, and its suite is next.
fn enter_step<'a, D: Doer, W: Watch>(
    alloc: Global,
    frames: &mut FlowFrames<'a>,
    caller: Box<Caller<'a>>,
    at: Pos,
    found: Found<'a>,
    values: Args,
    part: Part<'a>,
    doer: &mut D,
    watch: &mut W,
    left: &mut u32,
) -> Result<FlowNext, Memory>
    requires state { HasState (D.fits doer.old) (D.stands doer.old) }
    requires held { IsHeldBy (D.fits doer.old) frames.old }
    requires caller { IsHeldCallerBy (D.fits doer.old) frames.old caller.value }
    requires values { AreHeldValues (D.fits doer.old) values }
    requires stage { AreHeldStages (D.fits doer.old) part.stage }
    requires counted { length values ≡ length found.params.now.list.items }
    requires room { frames.old.spot.open_activations < 1000 }
    ensures knew { Knew (D.fits doer.old) (D.fits doer.new) }
    ensures held { HoldsNext (D.fits doer.new) frames.new result }
    ensures step { (script : ScriptTree) (place : OnePos) → MayRun script place (length values) frames.old.spot.open_activations found.entry
        → StepsFrom script (calling_so script frames.old caller.entry.value at (Function place) values part.entry) frames.new left.old left.new (D.fits doer.new) (D.stands doer.old) (D.stands doer.new) (W.history watch.old) (W.history watch.new) result }
{
    meaning_unfolds();
    let names = found.params.list.as_slice();
    let entered = match enter(alloc, doer, watch, left, at, found.at, names, values) {
        Err(refused) => {
            let_caller_go(caller);
            return Err(refused);
        }
        Ok(entered) => entered,
    };
    let Some(activation) = entered else {
        let_caller_go(caller);
        return Ok(FlowNext::Spent);
    };
    match run_body(frames, caller, activation, found, part) {
        Ok(()) => Ok(FlowNext::More),
        Err(refused) => Err(refused),
    }
}

/// A function is called with values for its parameters: an activation is entered, or the failing call is next.
fn function_step<'a, D: Doer, W: Watch>(
    alloc: Global,
    frames: &mut FlowFrames<'a>,
    caller: Box<Caller<'a>>,
    at: Pos,
    place: Pos,
    values: Args,
    part: Part<'a>,
    script: &'a Script,
    doer: &mut D,
    watch: &mut W,
    left: &mut u32,
) -> Result<FlowNext, Memory>
    requires state { HasState (D.fits doer.old) (D.stands doer.old) }
    requires held { IsHeldBy (D.fits doer.old) frames.old }
    requires caller { IsHeldCallerBy (D.fits doer.old) frames.old caller.value }
    requires values { AreHeldValues (D.fits doer.old) values }
    requires stage { AreHeldStages (D.fits doer.old) part.stage }
    ensures knew { Knew (D.fits doer.old) (D.fits doer.new) }
    ensures held { HoldsNext (D.fits doer.new) frames.new result }
    ensures step { StepsFrom (script_of script.entry.now) (calling_so (script_of script.entry.now) frames.old caller.entry.value at (Function place) values part.entry) frames.new left.old left.new (D.fits doer.new) (D.stands doer.old) (D.stands doer.new) (W.history watch.old) (W.history watch.new) result }
{
    let count = values.as_slice().len();
    let are_open = frames.spot.open_activations;
    let called = match called_by(script, place, count, are_open) {
        Err(refused) => {
            let_caller_go(caller);
            let_arguments_go(values);
            return Err(refused);
        }
        Ok(called) => called,
    };
    match called {
        Called::Fails(reason) => {
            let_caller_go(caller);
            fail_whole(alloc, frames, at, reason, Value::Fn(place), values, part)
        }
        Called::Runs(found) => enter_step(
            alloc, frames, caller, at, found, values, part, doer, watch, left,
        ),
    }
}

/// Whether an object may be made of these arguments where its class has no `__init__`: there is none, or an attribute was set.
fn may_be_made(has_set: bool, arguments: &[Value]) -> bool
    ensures { result ≡ may_be_made has_set arguments.now }
{
    if has_set {
        return true;
    }
    arguments.is_empty()
}

/// An object was made, and no `__init__` was found: it is the value of the call; or the failing call is next.
fn made_alone<'a>(
    alloc: Global,
    frames: &mut FlowFrames<'a>,
    mut eval: EvalFrames<'a>,
    at: Pos,
    of: Value,
    arguments: &[Value],
    o: Value,
    has_set: bool,
    part: Part<'a>,
) -> Result<FlowNext, Memory>
    ensures means { GoesOnFrom (λ script. alone_so script frames.old eval.entry at of arguments.now o has_set part.entry) frames.new result }
    ensures held { (table : ValuesView) → IsHeldFlow table frames.old → AreHeld table eval.entry → eval.entry.scope ≡ frames.old.spot.scope → IsNamed table of → AreAllNamed table arguments.now → IsNamed table o → IsHeldStage table part.entry.stage
        → IsHeldNext table frames.new result }
{
    if may_be_made(has_set, arguments) {
        eval.give(o);
        keep(alloc, frames, eval, part)
    } else {
        let_go(eval);
        fail_call(alloc, frames, at, 1, of, arguments, part)
    }
}

/// The `__init__` that was found for an object is called with it and the arguments; the object is the value of the call.
fn init_next<'a>(
    alloc: Global,
    frames: &mut FlowFrames<'a>,
    eval: EvalFrames<'a>,
    at: Pos,
    init: Pos,
    o: Value,
    arguments: &[Value],
    part: Part<'a>,
) -> Result<FlowNext, Memory>
    ensures means { GoesOnFrom (λ script. calling_so script frames.old (record { eval = eval.entry; made = JustOne o }) at (Function init) (o ∷ arguments.now) part.entry) frames.new result }
    ensures held { (table : ValuesView) → IsHeldFlow table frames.old → AreHeld table eval.entry → eval.entry.scope ≡ frames.old.spot.scope → AreAllNamed table arguments.now → IsNamed table o → IsHeldStage table part.entry.stage
        → IsHeldNext table frames.new result }
{
    let values = match in_front(alloc, o, arguments) {
        Err(refused) => {
            let_go(eval);
            return Err(refused);
        }
        Ok(values) => values,
    };
    let made = Some(o);
    let caller = Box::new(alloc, Caller { eval, made })?;
    let callee = Callee::Function(init);
    wait_call(alloc, frames, caller, at, callee, Args::of(values), part)
}

/// An object was made: the `__init__` that was found for it is called, or it is made alone.
fn made_step<'a>(
    alloc: Global,
    frames: &mut FlowFrames<'a>,
    eval: EvalFrames<'a>,
    at: Pos,
    of: Value,
    arguments: &[Value],
    o: Value,
    method: Option<Pos>,
    has_set: bool,
    part: Part<'a>,
) -> Result<FlowNext, Memory>
    ensures means { GoesOnFrom (λ script. made_so script frames.old eval.entry at of arguments.now o method has_set part.entry) frames.new result }
    ensures held { (table : ValuesView) → IsHeldFlow table frames.old → AreHeld table eval.entry → eval.entry.scope ≡ frames.old.spot.scope → IsNamed table of → AreAllNamed table arguments.now → IsNamed table o → IsHeldStage table part.entry.stage
        → IsHeldNext table frames.new result }
{
    let Some(init) = method else {
        return made_alone(alloc, frames, eval, at, of, arguments, o, has_set, part);
    };
    init_next(alloc, frames, eval, at, init, o, arguments, part)
}

/// The answer of the making of an object is there.
fn answer_step<'a>(
    alloc: Global,
    frames: &mut FlowFrames<'a>,
    caller: Box<Caller<'a>>,
    at: Pos,
    of: Value,
    arguments: &[Value],
    answer: Answer,
    method: Option<Pos>,
    has_set: bool,
    part: Part<'a>,
) -> Result<FlowNext, Memory>
    ensures means { GoesOnFrom (λ script. making_so script frames.old caller.entry.value at of arguments.now answer method has_set part.entry) frames.new result }
    ensures held { (table : ValuesView) → IsHeldFlow table frames.old → IsHeldCaller table frames.old.spot.scope caller.entry.value → IsNamed table of → AreAllNamed table arguments.now → IsNamedAnswer table answer → IsHeldStage table part.entry.stage
        → IsHeldNext table frames.new result }
{
    match answer {
        Answer::Value(o) => {
            let caller = Box::into_inner(caller);
            made_step(
                alloc,
                frames,
                caller.eval,
                at,
                of,
                arguments,
                o,
                method,
                has_set,
                part,
            )
        }
        Answer::Raised(o) => {
            let_caller_go(caller);
            finish(alloc, frames, part, Answer::Raised(o))
        }
        Answer::End => {
            let_caller_go(caller);
            finish(alloc, frames, part, Answer::End)
        }
    }
}

/// A class is called: an object is made of it, and what follows is next.
fn class_step<'a, D: Doer, W: Watch>(
    alloc: Global,
    frames: &mut FlowFrames<'a>,
    caller: Box<Caller<'a>>,
    at: Pos,
    of: Value,
    arguments: &[Value],
    part: Part<'a>,
    doer: &mut D,
    watch: &mut W,
    left: &mut u32,
) -> Result<FlowNext, Memory>
    requires state { HasState (D.fits doer.old) (D.stands doer.old) }
    requires held { IsHeldBy (D.fits doer.old) frames.old }
    requires caller { IsHeldCallerBy (D.fits doer.old) frames.old caller.value }
    requires named { IsNamedBy (D.fits doer.old) of }
    requires values { AreHeldValues (D.fits doer.old) arguments.now }
    requires stage { AreHeldStages (D.fits doer.old) part.stage }
    ensures knew { Knew (D.fits doer.old) (D.fits doer.new) }
    ensures held { HoldsNext (D.fits doer.new) frames.new result }
    ensures step { (script : ScriptTree) → StepsFrom script (calling_so script frames.old caller.entry.value at (Class of) arguments.now part.entry) frames.new left.old left.new (D.fits doer.new) (D.stands doer.old) (D.stands doer.new) (W.history watch.old) (W.history watch.new) result }
{
    let values = match in_front(alloc, of, arguments) {
        Err(refused) => {
            let_caller_go(caller);
            return Err(refused);
        }
        Ok(values) => values,
    };
    let op = Op {
        no: 39,
        scope: 0,
        name: 0,
        value: Value::None,
    };
    let came = match perform_walk(alloc, doer, watch, left, at, op, values) {
        Err(refused) => {
            let_caller_go(caller);
            return Err(refused);
        }
        Ok(came) => came,
    };
    match came {
        Walk::TooDear => {
            let_caller_go(caller);
            Ok(FlowNext::Spent)
        }
        Walk::Unanswered => {
            let_caller_go(caller);
            Ok(FlowNext::Unanswered)
        }
        Walk::Did(answer, method, has_set) => answer_step(
            alloc, frames, caller, at, of, arguments, answer, method, has_set, part,
        ),
    }
}

/// A class is called with these arguments.
fn class_call<'a, D: Doer, W: Watch>(
    alloc: Global,
    frames: &mut FlowFrames<'a>,
    caller: Box<Caller<'a>>,
    at: Pos,
    of: Value,
    values: Args,
    part: Part<'a>,
    doer: &mut D,
    watch: &mut W,
    left: &mut u32,
) -> Result<FlowNext, Memory>
    requires state { HasState (D.fits doer.old) (D.stands doer.old) }
    requires held { IsHeldBy (D.fits doer.old) frames.old }
    requires caller { IsHeldCallerBy (D.fits doer.old) frames.old caller.value }
    requires named { IsNamedBy (D.fits doer.old) of }
    requires values { AreHeldValues (D.fits doer.old) values }
    requires stage { AreHeldStages (D.fits doer.old) part.stage }
    ensures knew { Knew (D.fits doer.old) (D.fits doer.new) }
    ensures held { HoldsNext (D.fits doer.new) frames.new result }
    ensures step { (script : ScriptTree) → StepsFrom script (calling_so script frames.old caller.entry.value at (Class of) values part.entry) frames.new left.old left.new (D.fits doer.new) (D.stands doer.old) (D.stands doer.new) (W.history watch.old) (W.history watch.new) result }
{
    let arguments = values.as_slice();
    class_step(
        alloc, frames, caller, at, of, arguments, part, doer, watch, left,
    )
}

/// A call that an expression waits for is made.
pub(crate) fn call_step<'a, D: Doer, W: Watch>(
    alloc: Global,
    frames: &mut FlowFrames<'a>,
    caller: Box<Caller<'a>>,
    at: Pos,
    callee: Callee,
    values: Args,
    part: Part<'a>,
    script: &'a Script,
    doer: &mut D,
    watch: &mut W,
    left: &mut u32,
) -> Result<FlowNext, Memory>
    requires state { HasState (D.fits doer.old) (D.stands doer.old) }
    requires held { IsHeldBy (D.fits doer.old) frames.old }
    requires caller { IsHeldCallerBy (D.fits doer.old) frames.old caller.value }
    requires callee { IsHeldCalleeBy (D.fits doer.old) callee }
    requires values { AreHeldValues (D.fits doer.old) values }
    requires stage { AreHeldStages (D.fits doer.old) part.stage }
    ensures knew { Knew (D.fits doer.old) (D.fits doer.new) }
    ensures held { HoldsNext (D.fits doer.new) frames.new result }
    ensures step { StepsFrom (script_of script.entry.now) (calling_so (script_of script.entry.now) frames.old caller.entry.value at callee values part.entry) frames.new left.old left.new (D.fits doer.new) (D.stands doer.old) (D.stands doer.new) (W.history watch.old) (W.history watch.new) result }
{
    match callee {
        Callee::Function(place) => function_step(
            alloc, frames, caller, at, place, values, part, script, doer, watch, left,
        ),
        Callee::Class(of) => {
            class_call(
                alloc, frames, caller, at, of, values, part, doer, watch, left,
            )
        }
    }
}
