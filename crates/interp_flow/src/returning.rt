// The end of an activation is handed to its caller.
ghost use Rattle.std.specs.Prelude.{◌≡◌, unwrap_or};
ghost use Rattle.py_value.specs.Contents.{contents};
ghost use Rattle.py_value.specs.Values.{ValuesView, IsNamed};
ghost use Rattle.py_tree.specs.Tree.{ScriptTree};
ghost use Rattle.py_model.specs.Doing.{Knew};
ghost use Rattle.py_model.specs.Expressions.{value_of_how};
ghost use Rattle.interp_eval.specs.Performing.{HasState};
ghost use Rattle.interp_eval.specs.Step.{AreHeldBy};
ghost use Rattle.flow_frames.specs.Held.{IsHeldBy, IsHeldEnd};
ghost use Rattle.flow_frames.specs.Seen.{end_seen};
ghost use Rattle.flow_values.specs.Step.{HoldsNext, IsHeldEndBy, StepsFrom};
ghost use Rattle.flow_values.specs.Value.{AreHeldStages, IsHeldMadeBy, IsInScope, IsNamedBy, resuming, returning, throwing};

use flow_calls::leave;
use flow_frames::{End, FlowFrames, Now, Part};
use flow_values::{FlowNext, keep, let_go};
use interp_eval::EvalFrames;
use prov_base::Memory;
use py_model::{Doer, Watch};
use py_value::Value;
use std::alloc::Global;

/// The value of an activation that ended so: that of its `return`, and else None.
fn value_of(end: End) -> Value
    ensures means { (table : ValuesView) → contents table result ≡ value_of_how (end_seen table end) }
    ensures named { (table : ValuesView) → IsHeldEnd table end → IsNamed table result }
{
    match end {
        End::Returned(value) => value,
        End::Normal => Value::None,
        End::Broke => Value::None,
        End::Continued => Value::None,
        End::Threw(_, _) => Value::None,
    }
}

/// An activation is left by an exception, which goes on to its caller.
fn throw_step<'a, D: Doer, W: Watch>(
    alloc: Global,
    frames: &mut FlowFrames<'a>,
    o: u32,
    line: u32,
    doer: &mut D,
    watch: &mut W,
    left: u32,
) -> Result<FlowNext, Memory>
    requires state { HasState (D.fits doer.old) (D.stands doer.old) }
    requires held { IsHeldBy (D.fits doer.old) frames.old }
    ensures knew { Knew (D.fits doer.old) (D.fits doer.new) }
    ensures held { HoldsNext (D.fits doer.new) frames.new result }
    ensures step { (script : ScriptTree) → StepsFrom script (throwing script frames.old o line) frames.new left left (D.fits doer.new) (D.stands doer.old) (D.stands doer.new) (W.history watch.old) (W.history watch.new) result }
{
    match leave(alloc, doer, watch, Value::None) {
        Err(refused) => Err(refused),
        Ok(()) => {
            frames.now = Now::Ended(End::Threw(o, line));
            Ok(FlowNext::More)
        }
    }
}

/// The value of a call: what was made for it, and else what the function returns.
fn call_value(made: Option<Value>, value: Value) -> Value
    ensures { result ≡ unwrap_or made value }
{
    match made {
        Some(o) => o,
        None => value,
    }
}

/// An activation is left with its value, and the expression that called it goes on with the value of the call.
fn resume_step<'a, D: Doer, W: Watch>(
    alloc: Global,
    frames: &mut FlowFrames<'a>,
    mut eval: EvalFrames<'a>,
    made: Option<Value>,
    part: Part<'a>,
    value: Value,
    doer: &mut D,
    watch: &mut W,
    left: u32,
) -> Result<FlowNext, Memory>
    requires state { HasState (D.fits doer.old) (D.stands doer.old) }
    requires held { IsHeldBy (D.fits doer.old) frames.old }
    requires eval { AreHeldBy (D.fits doer.old) eval }
    requires scope { IsInScope (D.fits doer.old) eval frames.old }
    requires made { IsHeldMadeBy (D.fits doer.old) made }
    requires stage { AreHeldStages (D.fits doer.old) part.stage }
    requires value { IsNamedBy (D.fits doer.old) value }
    ensures knew { Knew (D.fits doer.old) (D.fits doer.new) }
    ensures held { HoldsNext (D.fits doer.new) frames.new result }
    ensures step { (script : ScriptTree) → StepsFrom script (resuming script frames.old eval.entry made part.entry value) frames.new left left (D.fits doer.new) (D.stands doer.old) (D.stands doer.new) (W.history watch.old) (W.history watch.new) result }
{
    eval.give(call_value(made, value));
    match leave(alloc, doer, watch, value) {
        Err(refused) => {
            let_go(eval);
            Err(refused)
        }
        Ok(()) => keep(alloc, frames, eval, part),
    }
}

/// An activation has ended so: it is left, and its caller goes on.
pub(crate) fn return_step<'a, D: Doer, W: Watch>(
    alloc: Global,
    frames: &mut FlowFrames<'a>,
    eval: EvalFrames<'a>,
    made: Option<Value>,
    part: Part<'a>,
    end: End,
    doer: &mut D,
    watch: &mut W,
    left: u32,
) -> Result<FlowNext, Memory>
    requires state { HasState (D.fits doer.old) (D.stands doer.old) }
    requires held { IsHeldBy (D.fits doer.old) frames.old }
    requires eval { AreHeldBy (D.fits doer.old) eval }
    requires scope { IsInScope (D.fits doer.old) eval frames.old }
    requires made { IsHeldMadeBy (D.fits doer.old) made }
    requires stage { AreHeldStages (D.fits doer.old) part.stage }
    requires end { IsHeldEndBy (D.fits doer.old) end }
    ensures knew { Knew (D.fits doer.old) (D.fits doer.new) }
    ensures held { HoldsNext (D.fits doer.new) frames.new result }
    ensures step { (script : ScriptTree) → StepsFrom script (returning script frames.old eval.entry made part.entry end) frames.new left left (D.fits doer.new) (D.stands doer.old) (D.stands doer.new) (W.history watch.old) (W.history watch.new) result }
{
    let value = value_of(end);
    match end {
        End::Threw(o, line) => {
            let_go(eval);
            throw_step(alloc, frames, o, line, doer, watch, left)
        }
        End::Normal => resume_step(alloc, frames, eval, made, part, value, doer, watch, left),
        End::Broke => resume_step(alloc, frames, eval, made, part, value, doer, watch, left),
        End::Continued => resume_step(alloc, frames, eval, made, part, value, doer, watch, left),
        End::Returned(_) => resume_step(alloc, frames, eval, made, part, value, doer, watch, left),
    }
}
