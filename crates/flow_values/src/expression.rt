// An expression of a statement goes on by one step.
ghost use Rattle.std.specs.Prelude.{◌≡◌, true};
ghost use Rattle.py_tree.specs.Erasure.{script_of};
ghost use Rattle.py_value.specs.Values.{ValuesView};
ghost use Rattle.py_model.specs.Doing.{Knew};
ghost use Rattle.py_model.specs.Told.{IsNamedAnswer};
ghost use Rattle.interp_eval.specs.Held.{AreHeld};
ghost use Rattle.interp_eval.specs.Performing.{HasState};
ghost use Rattle.interp_eval.specs.declared.frames.EvalNext.TheVariants.{Call};
ghost use Rattle.flow_frames.specs.Held.{IsHeldBy, IsHeldFlow, IsHeldStage};
ghost use Rattle.flow_values.specs.Expression.{AreHeldAround, HasEvaluated, HasEvaluatedNow, IsAnswered, IsHeldEvaluationBy, IsHeldExpressionBy, IsHeldPart, IsHeldTaken, IsHeldTakenWork, IsTakenNow, IsTakenWork, evaluates, is_expression, part_in};
ghost use Rattle.flow_values.specs.Step.{HoldsNext, IsHeldNext, Steps};
ghost use Rattle.flow_values.specs.Value.{GoesOnFrom, answering, evaluating};

use crate::entering::hand_over;
use crate::next::FlowNext;
use crate::value::take;
use flow_frames::{End, FlowFrames, Giving, Now, Part, Work};
use interp_eval::{EvalFrames, EvalNext, eval_step};
use prov_base::{Memory, Pos};
use py_model::{Answer, Args, Doer, Watch};
use py_tree::Script;
use py_value::Value;
use std::alloc::Global;
use std::mem;

/// An expression goes on, and the part that waits for its value waits on.
pub fn keep<'a>(
    alloc: Global,
    frames: &mut FlowFrames<'a>,
    eval: EvalFrames<'a>,
    part: Part<'a>,
) -> Result<FlowNext, Memory>
    ensures means { GoesOnFrom (λ script. evaluating script frames.old eval.entry part.entry) frames.new result }
    ensures held { (table : ValuesView) → IsHeldFlow table frames.old → AreHeld table eval.entry → eval.entry.scope ≡ frames.old.spot.scope → IsHeldStage table part.entry.stage → IsHeldNext table frames.new result }
{
    let work = Work::Evaluates(eval);
    let giving = Box::new(alloc, Giving { work, part })?;
    frames.now = Now::Gives(giving);
    Ok(FlowNext::More)
}

/// The part that waits for the value of an expression gets its answer.
pub fn finish<'a>(
    alloc: Global,
    frames: &mut FlowFrames<'a>,
    part: Part<'a>,
    answer: Answer,
) -> Result<FlowNext, Memory>
    ensures means { GoesOnFrom (λ script. answering script frames.old part.entry answer) frames.new result }
    ensures held { (table : ValuesView) → IsHeldFlow table frames.old → IsHeldStage table part.entry.stage → IsNamedAnswer table answer → IsHeldNext table frames.new result }
{
    match take(alloc, frames, part, answer) {
        Ok(()) => Ok(FlowNext::More),
        Err(refused) => Err(refused),
    }
}

/// An expression is let go.
pub fn let_go(_eval: EvalFrames<'_>) {}

/// The arguments of a call are let go.
pub fn let_arguments_go(_arguments: Args) {}

/// Whether this is work on an expression.
fn is_expression(work: &Work<'_>) -> bool
    ensures { result ≡ is_expression work.now }
{
    match work {
        Work::Evaluates(_) => true,
        Work::Operation(_, _, _) => false,
        Work::Calls(_, _, _, _) => false,
    }
}

/// Whether an expression is evaluated now.
pub fn evaluates(now: &Now<'_>) -> bool
    ensures { result ≡ evaluates now.now }
{
    match now {
        Now::Gives(giving) => is_expression(&giving.work),
        Now::InSuite(_) => false,
        Now::Opens(_) => false,
        Now::Ended(_) => false,
    }
}

/// The part that follows the value of what is done now; None where no value is made.
fn part_in<'a>(now: &Now<'a>) -> Option<Part<'a>>
    ensures { result ≡ part_in now.now }
{
    match now {
        Now::Gives(giving) => Some(giving.part),
        Now::InSuite(_) => None,
        Now::Opens(_) => None,
        Now::Ended(_) => None,
    }
}

/// An expression goes on by one step where it stands. For other work it is out of memory.
fn work_on<'a, D: Doer, W: Watch>(
    alloc: Global,
    work: &mut Work<'a>,
    script: &'a Script,
    doer: &mut D,
    watch: &mut W,
    left: &mut u32,
) -> Result<EvalNext, Memory>
    requires state { HasState (D.fits doer.old) (D.stands doer.old) }
    requires held { IsHeldExpressionBy (D.fits doer.old) work.old }
    ensures knew { Knew (D.fits doer.old) (D.fits doer.new) }
    ensures evaluated { HasEvaluated (script_of script.entry.now) work.old work.new left.old left.new (D.fits doer.new) (D.stands doer.old) (D.stands doer.new) (W.history watch.old) (W.history watch.new) result }
{
    match work {
        Work::Evaluates(eval) => eval_step(alloc, eval, script, doer, watch, left),
        Work::Operation(_, _, _) => Err(Memory),
        Work::Calls(_, _, _, _) => Err(Memory),
    }
}

/// So in what gives a value. The part that follows the value stays.
fn giving_on<'a, D: Doer, W: Watch>(
    alloc: Global,
    giving: &mut Box<Giving<'a>>,
    script: &'a Script,
    doer: &mut D,
    watch: &mut W,
    left: &mut u32,
) -> Result<EvalNext, Memory>
    requires state { HasState (D.fits doer.old) (D.stands doer.old) }
    requires held { IsHeldExpressionBy (D.fits doer.old) giving.old.value.work }
    ensures knew { Knew (D.fits doer.old) (D.fits doer.new) }
    ensures evaluated { HasEvaluated (script_of script.entry.now) giving.old.value.work giving.new.value.work left.old left.new (D.fits doer.new) (D.stands doer.old) (D.stands doer.new) (W.history watch.old) (W.history watch.new) result }
    ensures part { giving.new.value.part ≡ giving.old.value.part }
{
    work_on(alloc, &mut giving.work, script, doer, watch, left)
}

/// So in what is done now.
fn now_on<'a, D: Doer, W: Watch>(
    alloc: Global,
    now: &mut Now<'a>,
    script: &'a Script,
    doer: &mut D,
    watch: &mut W,
    left: &mut u32,
) -> Result<EvalNext, Memory>
    requires state { HasState (D.fits doer.old) (D.stands doer.old) }
    requires held { IsHeldEvaluationBy (D.fits doer.old) now.old }
    ensures knew { Knew (D.fits doer.old) (D.fits doer.new) }
    ensures evaluated { HasEvaluatedNow (script_of script.entry.now) now.old now.new left.old left.new (D.fits doer.new) (D.stands doer.old) (D.stands doer.new) (W.history watch.old) (W.history watch.new) result }
{
    match now {
        Now::Gives(giving) => giving_on(alloc, giving, script, doer, watch, left),
        Now::InSuite(_) => Err(Memory),
        Now::Opens(_) => Err(Memory),
        Now::Ended(_) => Err(Memory),
    }
}

/// The expression that is evaluated now is let go, and the part that waits for its value gets its answer.
fn finish_now<'a>(
    alloc: Global,
    frames: &mut FlowFrames<'a>,
    answer: Answer,
) -> Result<FlowNext, Memory>
    ensures means { IsAnswered answer frames.old.now frames.old frames.new result }
    ensures held { (table : ValuesView) → AreHeldAround table frames.old → IsHeldPart table frames.old.now → IsNamedAnswer table answer → IsHeldNext table frames.new result }
{
    let Some(part) = part_in(&frames.now) else {
        return Err(Memory);
    };
    frames.now = Now::Ended(End::Normal);
    finish(alloc, frames, part, answer)
}

/// Work is let go.
fn let_work_go(_work: Work<'_>) {}

/// What was done is let go.
fn let_now_go(_now: Now<'_>) {}

/// The call that an expression came to is next.
fn call_from<'a>(
    alloc: Global,
    frames: &mut FlowFrames<'a>,
    giving: Box<Giving<'a>>,
    f: Value,
    arguments: Args,
    at: Pos,
) -> Result<FlowNext, Memory>
    ensures means { IsTakenWork (Call f arguments at) giving.entry.value.work giving.entry.value.part frames.old frames.new result }
    ensures held { (table : ValuesView) → IsHeldFlow table frames.old → IsHeldTakenWork table frames.old.spot.scope (Call f arguments at) giving.entry.value.work → IsHeldStage table giving.entry.value.part.stage → IsHeldNext table frames.new result }
{
    let giving = Box::into_inner(giving);
    let part = giving.part;
    let given = giving.work;
    match given {
        Work::Evaluates(eval) => hand_over(alloc, frames, eval, f, arguments, at, part),
        other => {
            let_work_go(other);
            let_arguments_go(arguments);
            Err(Memory)
        }
    }
}

/// The call that the expression which is evaluated now came to is next.
fn call_now<'a>(
    alloc: Global,
    frames: &mut FlowFrames<'a>,
    f: Value,
    arguments: Args,
    at: Pos,
) -> Result<FlowNext, Memory>
    ensures means { IsTakenNow (Call f arguments at) frames.old.now frames.old frames.new result }
    ensures held { (table : ValuesView) → AreHeldAround table frames.old → IsHeldTaken table frames.old.spot.scope (Call f arguments at) frames.old.now → IsHeldNext table frames.new result }
{
    match mem::replace(&mut frames.now, Now::Ended(End::Normal)) {
        Now::Gives(giving) => call_from(alloc, frames, giving, f, arguments, at),
        other => {
            let_now_go(other);
            let_arguments_go(arguments);
            Err(Memory)
        }
    }
}

/// What a step of the expression that is evaluated now came to is taken.
fn taken<'a>(alloc: Global, frames: &mut FlowFrames<'a>, next: EvalNext) -> Result<FlowNext, Memory>
    ensures means { IsTakenNow next frames.old.now frames.old frames.new result }
    ensures held { (table : ValuesView) → AreHeldAround table frames.old → IsHeldTaken table frames.old.spot.scope next frames.old.now → IsHeldNext table frames.new result }
{
    match next {
        EvalNext::More => Ok(FlowNext::More),
        EvalNext::Value(value) => finish_now(alloc, frames, Answer::Value(value)),
        EvalNext::Raised(o) => finish_now(alloc, frames, Answer::Raised(o)),
        EvalNext::Ended => finish_now(alloc, frames, Answer::End),
        EvalNext::Call(f, arguments, at) => call_now(alloc, frames, f, arguments, at),
        EvalNext::Spent => Ok(FlowNext::Spent),
        EvalNext::Unanswered => Ok(FlowNext::Unanswered),
    }
}

/// The expression that is evaluated now goes on by one step, and what that came to is taken.
pub fn expression_step<'a, D: Doer, W: Watch>(
    alloc: Global,
    frames: &mut FlowFrames<'a>,
    script: &'a Script,
    doer: &mut D,
    watch: &mut W,
    left: &mut u32,
) -> Result<FlowNext, Memory>
    requires evaluates { evaluates frames.old.now ≡ true }
    requires state { HasState (D.fits doer.old) (D.stands doer.old) }
    requires held { IsHeldBy (D.fits doer.old) frames.old }
    ensures knew { Knew (D.fits doer.old) (D.fits doer.new) }
    ensures held { HoldsNext (D.fits doer.new) frames.new result }
    ensures step { Steps (script_of script.entry.now) frames.old frames.new left.old left.new (D.fits doer.new) (D.stands doer.old) (D.stands doer.new) (W.history watch.old) (W.history watch.new) result }
{
    match now_on(alloc, &mut frames.now, script, doer, watch, left) {
        Err(refused) => Err(refused),
        Ok(next) => taken(alloc, frames, next),
    }
}
