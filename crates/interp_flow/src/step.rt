// One step of a script.
ghost use Rattle.std.specs.Prelude.{◌≡◌, Some as JustOne};
ghost use Rattle.py_value.specs.Values.{ValuesView};
ghost use Rattle.py_model.specs.Meaning.{end_of};
ghost use Rattle.flow_frames.specs.Seen.{end_seen};
ghost use Rattle.py_tree.specs.Tree.{ScriptTree};
ghost use Rattle.py_model.specs.Doing.{Knew};
ghost use Rattle.interp_eval.specs.Performing.{HasState};
ghost use Rattle.py_tree.specs.Erasure.{script_of};
ghost use Rattle.flow_frames.specs.declared.control.Now.TheVariants.{Ended, Gives, InSuite};
ghost use Rattle.flow_frames.specs.declared.frames.Waits.TheVariants.{Stmt as StmtWaits};
ghost use Rattle.flow_values.specs.Step.{HoldsNext, IsHeldEndBy, IsHeldNowBy, Steps, StepsFrom, doing_now, handed, next_end};
ghost use Rattle.flow_frames.specs.Held.{IsHeldBy};
ghost use Rattle.flow_values.specs.Value.{AreHeldStages, IsHeldWorkBy, working};

use crate::calling::call_step;
use crate::moving::{end_part, open_part, open_stmt};
use crate::returning::return_step;
use flow_frames::{End, FlowFrames, Giving, Now, Part, Waits, Work, begin, close};
use flow_stages::rest_after;
use flow_values::{FlowNext, evaluates, expression_step, keep, operation_step};
use prov_base::Memory;
use py_model::{Doer, Watch, meaning_unfolds};
use py_tree::{Script, Stmt};
use std::alloc::Global;
use std::mem;

/// The first statement of a suite begins; or the suite is at its end.
pub(crate) fn suite_step<'a, D: Doer, W: Watch>(
    alloc: Global,
    frames: &mut FlowFrames<'a>,
    stmts: &'a [Stmt],
    doer: &mut D,
    watch: &mut W,
    left: &mut u32,
) -> Result<FlowNext, Memory>
    requires state { HasState (D.fits doer.old) (D.stands doer.old) }
    requires held { IsHeldBy (D.fits doer.old) frames.old }
    ensures knew { Knew (D.fits doer.old) (D.fits doer.new) }
    ensures held { HoldsNext (D.fits doer.new) frames.new result }
    ensures step { (script : ScriptTree) → StepsFrom script (doing_now script frames.old (InSuite stmts.entry)) frames.new left.old left.new (D.fits doer.new) (D.stands doer.old) (D.stands doer.new) (W.history watch.old) (W.history watch.new) result }
{
    let Some((stmt, rest)) = stmts.split_first() else {
        frames.now = Now::Ended(End::Normal);
        return Ok(FlowNext::More);
    };
    match begin(alloc, doer, watch, left, stmt.no) {
        Err(refused) => Err(refused),
        Ok(false) => Ok(FlowNext::Spent),
        Ok(true) => match open_stmt(alloc, frames, stmt, rest) {
            Ok(()) => Ok(FlowNext::More),
            Err(refused) => Err(refused),
        },
    }
}

/// How a run ends that ended so.
fn over(end: End) -> FlowNext
    ensures { (table : ValuesView) → next_end result ≡ JustOne (end_of (end_seen table end)) }
{
    match end {
        End::Threw(o, line) => FlowNext::Raised(o, line),
        End::Normal => FlowNext::Finished,
        End::Broke => FlowNext::Finished,
        End::Continued => FlowNext::Finished,
        End::Returned(_) => FlowNext::Finished,
    }
}

/// A statement has ended so: the watch is told, and the rest of its suite is next.
fn close_step<'a, D: Doer, W: Watch>(
    alloc: Global,
    frames: &mut FlowFrames<'a>,
    number: u32,
    rest: &'a [Stmt],
    end: End,
    doer: &mut D,
    watch: &mut W,
    left: u32,
) -> Result<FlowNext, Memory>
    requires state { HasState (D.fits doer.old) (D.stands doer.old) }
    requires held { IsHeldBy (D.fits doer.old) frames.old }
    requires end { IsHeldEndBy (D.fits doer.old) end }
    ensures knew { Knew (D.fits doer.old) (D.fits doer.new) }
    ensures held { HoldsNext (D.fits doer.new) frames.new result }
    ensures step { (script : ScriptTree) → StepsFrom script (handed script frames.old (StmtWaits number rest.entry) end) frames.new left left (D.fits doer.new) (D.stands doer.old) (D.stands doer.new) (W.history watch.old) (W.history watch.new) result }
{
    match close(alloc, doer, watch, number, end) {
        Err(refused) => Err(refused),
        Ok(()) => {
            frames.now = rest_after(rest, end);
            Ok(FlowNext::More)
        }
    }
}

/// What waits innermost goes on from an end; where nothing waits the run is at its end.
pub(crate) fn end_step<'a, D: Doer, W: Watch>(
    alloc: Global,
    frames: &mut FlowFrames<'a>,
    end: End,
    doer: &mut D,
    watch: &mut W,
    left: u32,
) -> Result<FlowNext, Memory>
    requires state { HasState (D.fits doer.old) (D.stands doer.old) }
    requires held { IsHeldBy (D.fits doer.old) frames.old }
    requires end { IsHeldEndBy (D.fits doer.old) end }
    ensures knew { Knew (D.fits doer.old) (D.fits doer.new) }
    ensures held { HoldsNext (D.fits doer.new) frames.new result }
    ensures step { (script : ScriptTree) → StepsFrom script (doing_now script frames.old (Ended end)) frames.new left left (D.fits doer.new) (D.stands doer.old) (D.stands doer.new) (W.history watch.old) (W.history watch.new) result }
{
    meaning_unfolds();
    let Some(waits) = frames.pop() else {
        return Ok(over(end));
    };
    match waits {
        Waits::Stmt(number, rest) => {
            close_step(alloc, frames, number, rest, end, doer, watch, left)
        }
        Waits::Part(caller, part) => match caller {
            Some(caller) => {
                let caller = Box::into_inner(caller);
                let made = caller.made;
                return_step(
                    alloc,
                    frames,
                    caller.eval,
                    made,
                    part,
                    end,
                    doer,
                    watch,
                    left,
                )
            }
            None => match end_part(alloc, frames, part, end) {
                Ok(()) => Ok(FlowNext::More),
                Err(refused) => Err(refused),
            },
        },
    }
}

/// What gives a value goes on by one step: an expression, an operation, or a call.
fn work_step<'a, D: Doer, W: Watch>(
    alloc: Global,
    frames: &mut FlowFrames<'a>,
    work: Work<'a>,
    part: Part<'a>,
    script: &'a Script,
    doer: &mut D,
    watch: &mut W,
    left: &mut u32,
) -> Result<FlowNext, Memory>
    requires state { HasState (D.fits doer.old) (D.stands doer.old) }
    requires held { IsHeldBy (D.fits doer.old) frames.old }
    requires work { IsHeldWorkBy (D.fits doer.old) frames.old work }
    requires stage { AreHeldStages (D.fits doer.old) part.stage }
    ensures knew { Knew (D.fits doer.old) (D.fits doer.new) }
    ensures held { HoldsNext (D.fits doer.new) frames.new result }
    ensures step { StepsFrom (script_of script.entry.now) (working (script_of script.entry.now) frames.old work.entry part.entry) frames.new left.old left.new (D.fits doer.new) (D.stands doer.old) (D.stands doer.new) (W.history watch.old) (W.history watch.new) result }
{
    match work {
        Work::Operation(at, code, values) => operation_step(
            alloc, frames, at, code, values, part, script, doer, watch, left,
        ),
        Work::Evaluates(eval) => keep(alloc, frames, eval, part),
        Work::Calls(caller, at, callee, values) => call_step(
            alloc, frames, caller, at, callee, values, part, script, doer, watch, left,
        ),
    }
}

/// What gives a value goes on by one step.
fn gives_step<'a, D: Doer, W: Watch>(
    alloc: Global,
    frames: &mut FlowFrames<'a>,
    giving: Box<Giving<'a>>,
    script: &'a Script,
    doer: &mut D,
    watch: &mut W,
    left: &mut u32,
) -> Result<FlowNext, Memory>
    requires state { HasState (D.fits doer.old) (D.stands doer.old) }
    requires held { IsHeldBy (D.fits doer.old) frames.old }
    requires now { IsHeldNowBy (D.fits doer.old) frames.old (Gives giving) }
    ensures knew { Knew (D.fits doer.old) (D.fits doer.new) }
    ensures held { HoldsNext (D.fits doer.new) frames.new result }
    ensures step { StepsFrom (script_of script.entry.now) (doing_now (script_of script.entry.now) frames.old (Gives giving.entry)) frames.new left.old left.new (D.fits doer.new) (D.stands doer.old) (D.stands doer.new) (W.history watch.old) (W.history watch.new) result }
{
    let giving = Box::into_inner(giving);
    let part = giving.part;
    work_step(alloc, frames, giving.work, part, script, doer, watch, left)
}

/// What is done now goes on by one step, where the frames stand.
fn now_step<'a, D: Doer, W: Watch>(
    alloc: Global,
    frames: &mut FlowFrames<'a>,
    now: Now<'a>,
    script: &'a Script,
    doer: &mut D,
    watch: &mut W,
    left: &mut u32,
) -> Result<FlowNext, Memory>
    requires state { HasState (D.fits doer.old) (D.stands doer.old) }
    requires held { IsHeldBy (D.fits doer.old) frames.old }
    requires now { IsHeldNowBy (D.fits doer.old) frames.old now }
    ensures knew { Knew (D.fits doer.old) (D.fits doer.new) }
    ensures held { HoldsNext (D.fits doer.new) frames.new result }
    ensures step { StepsFrom (script_of script.entry.now) (doing_now (script_of script.entry.now) frames.old now.entry) frames.new left.old left.new (D.fits doer.new) (D.stands doer.old) (D.stands doer.new) (W.history watch.old) (W.history watch.new) result }
{
    match now {
        Now::InSuite(stmts) => suite_step(alloc, frames, stmts, doer, watch, left),
        Now::Gives(giving) => gives_step(alloc, frames, giving, script, doer, watch, left),
        Now::Ended(end) => end_step(alloc, frames, end, doer, watch, *left),
        Now::Opens(part) => match open_part(alloc, frames, part, doer.values()) {
            Ok(()) => Ok(FlowNext::More),
            Err(refused) => Err(refused),
        },
    }
}

/// One step of a script: one moment is performed and told, or the frames go on without one; or the run comes to its end, or to what ends it.
/// After an answer other than [`FlowNext::More`] the frames are not gone on with.
pub fn flow_step<'a, D: Doer, W: Watch>(
    alloc: Global,
    frames: &mut FlowFrames<'a>,
    script: &'a Script,
    doer: &mut D,
    watch: &mut W,
    left: &mut u32,
) -> Result<FlowNext, Memory>
    requires state { HasState (D.fits doer.old) (D.stands doer.old) }
    requires held { IsHeldBy (D.fits doer.old) frames.old }
    ensures knew { Knew (D.fits doer.old) (D.fits doer.new) }
    ensures state { HasState (D.fits doer.new) (D.stands doer.new) }
    ensures held { HoldsNext (D.fits doer.new) frames.new result }
    ensures step { Steps (script_of script.entry.now) frames.old frames.new left.old left.new (D.fits doer.new) (D.stands doer.old) (D.stands doer.new) (W.history watch.old) (W.history watch.new) result }
{
    if evaluates(&frames.now) {
        return expression_step(alloc, frames, script, doer, watch, left);
    }
    let now = mem::replace(&mut frames.now, Now::Ended(End::Normal));
    now_step(alloc, frames, now, script, doer, watch, left)
}
