// What gives a value is performed, and what follows the value is next.
ghost use Rattle.std.specs.Prelude.{◌≡◌, map, true, OnOk};
ghost use Rattle.py_tree.specs.Erasure.{form_of, script_of};
ghost use Rattle.py_tree.specs.Tree.{ScriptTree};
ghost use Rattle.py_value.specs.Contents.{contents};
ghost use Rattle.py_value.specs.Values.{ValuesView};
ghost use Rattle.py_model.specs.Act.{Act, normal, ret, to};
ghost use Rattle.py_model.specs.Doing.{Knew};
ghost use Rattle.py_model.specs.Expressions.{Task, by_answer};
ghost use Rattle.py_model.specs.Told.{answer_seen, is_operation, IsNamedAnswer};
ghost use Rattle.interp_eval.specs.Performing.{HasState};
ghost use Rattle.flow_frames.specs.Held.{IsHeldBy, IsHeldFlow, IsHeldStage};
ghost use Rattle.flow_frames.specs.Machine.{resumes, then_act};
ghost use Rattle.flow_frames.specs.Seen.{frame_seen, here_seen, stage_seen};
ghost use Rattle.flow_values.specs.Step.{HoldsNext, StepsFrom, meant};
ghost use Rattle.flow_values.specs.Value.{AreHeldStages, AreHeldValues, MakesCode, operating};

use crate::next::FlowNext;
use flow_frames::{Code, End, FlowFrames, Now, Part};
use flow_stages::after;
use interp_eval::{Came, Scope, make_op, perform};
use prov_base::{Memory, Pos};
use py_model::{Answer, Doer, Op, Watch};
use py_tree::Script;
use py_value::Value;
use std::alloc::Global;

/// An operation of a statement with what it names.
fn code_op<D: Doer>(
    alloc: Global,
    script: &Script,
    scope: Scope,
    doer: &mut D,
    code: Code<'_>,
) -> Result<Op, Memory>
    ensures knew { Knew (D.fits doer.old) (D.fits doer.new) }
    ensures makes { MakesCode (script_of script.now) scope code.entry (D.fits doer.new) (D.stands doer.old) (D.stands doer.new) result }
{
    let value = code.value();
    match make_op(alloc, script, scope, doer, code.number(), code.want()) {
        Err(refused) => Err(refused),
        Ok(op) => Ok(Op { value, ..op }),
    }
}

/// The answer of an operation is there: its value is taken by the part that waits for it, and an exception or an end ends the statement.
pub(crate) fn take<'a>(
    alloc: Global,
    frames: &mut FlowFrames<'a>,
    part: Part<'a>,
    answer: Answer,
) -> Result<(), Memory>
    ensures means { OnOk result ((script : ScriptTree) (next : Task → Act) (table : ValuesView)
        → to (by_answer (here_seen script table frames.old.spot) (ret normal) (then_act script next (here_seen script table frames.old.spot) part.entry.stmt.now.pos (form_of part.entry.stmt.now.form.value) (stage_seen table part.entry.stage)) (answer_seen table answer))
        (resumes script next (map (frame_seen script table) frames.old.below.items) (λ how. ret how)) ≡ meant script frames.new table next) }
    ensures held { OnOk result ((table : ValuesView) → IsHeldFlow table frames.old → IsHeldStage table part.entry.stage → IsNamedAnswer table answer → IsHeldFlow table frames.new) }
{
    match answer {
        Answer::Value(value) => match after(alloc, part, value, frames.spot.scope) {
            Err(refused) => Err(refused),
            Ok(now) => {
                frames.now = now;
                Ok(())
            }
        },
        Answer::Raised(o) => {
            frames.now = Now::Ended(End::Threw(o, frames.spot.line));
            Ok(())
        }
        Answer::End => {
            frames.now = Now::Ended(End::Normal);
            Ok(())
        }
    }
}

/// An operation is performed, and its answer is taken by the part that waits for it.
pub fn operation_step<'a, D: Doer, W: Watch>(
    alloc: Global,
    frames: &mut FlowFrames<'a>,
    at: Pos,
    code: Code<'a>,
    values: Vec<Value>,
    part: Part<'a>,
    script: &'a Script,
    doer: &mut D,
    watch: &mut W,
    left: &mut u32,
) -> Result<FlowNext, Memory>
    requires state { HasState (D.fits doer.old) (D.stands doer.old) }
    requires held { IsHeldBy (D.fits doer.old) frames.old }
    requires values { AreHeldValues (D.fits doer.old) values.items }
    requires stage { AreHeldStages (D.fits doer.old) part.stage }
    ensures knew { Knew (D.fits doer.old) (D.fits doer.new) }
    ensures held { HoldsNext (D.fits doer.new) frames.new result }
    ensures step { StepsFrom (script_of script.entry.now) (operating (script_of script.entry.now) frames.old at code.entry values.items part.entry) frames.new left.old left.new (D.fits doer.new) (D.stands doer.old) (D.stands doer.new) (W.history watch.old) (W.history watch.new) result }
{
    let op = match code_op(alloc, script, frames.spot.scope, doer, code) {
        Ok(op) => op,
        Err(refused) => return Err(refused),
    };
    let came = match perform(alloc, doer, watch, left, at, op, values) {
        Ok(came) => came,
        Err(refused) => return Err(refused),
    };
    match came {
        Came::TooDear => Ok(FlowNext::Spent),
        Came::Unanswered => Ok(FlowNext::Unanswered),
        Came::Did(answer, _) => match take(alloc, frames, part, answer) {
            Ok(()) => Ok(FlowNext::More),
            Err(refused) => Err(refused),
        },
    }
}
