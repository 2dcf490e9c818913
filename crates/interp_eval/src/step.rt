// One step of an evaluation.
ghost use Rattle.std.specs.Prelude.{◌≡◌, ◌<◌, [], ◌∷◌, map, IfOk, OnOk, if◌then◌else◌};
ghost use Rattle.py_tree.specs.Erasure.{expr_of, exprs_list, script_of};
ghost use Rattle.py_value.specs.Contents.{contents};
ghost use Rattle.py_value.specs.Values.{ValuesView, IsNamed};
ghost use Rattle.py_model.specs.Doing.{Knew};
ghost use Rattle.interp_eval.specs.Delivery.{HasGoneOn};
ghost use Rattle.interp_eval.specs.Held.{AreHeld, IsHeldFinish, IsHeldFrame, AreAllNamed};
ghost use Rattle.interp_eval.specs.Machine.{after_find, after_test, calls_method, calls_one, first_of, is_instance, is_method, is_true, takes_receiver, turn_by, values_by};
ghost use Rattle.interp_eval.specs.Performing.{HasState};
ghost use Rattle.interp_eval.specs.declared.node.Code.TheVariants.{Give};
ghost use Rattle.interp_eval.specs.declared.node.Finish.TheVariants.{Do};
ghost use Rattle.interp_eval.specs.declared.node.Operands.TheVariants.{One};
ghost use Rattle.interp_eval.specs.Seen.{branch_seen, finish_seen, node_seen, operands_seen, waiting_seen};
ghost use Rattle.interp_eval.specs.Step.{Steps, AreHeldBy, HoldsNext, IsHeldNext};
ghost use Rattle.interp_eval.specs.declared.turn.Turn.TheVariants.{Perform};
ghost use Rattle.interp_eval.specs.Turns.{after_seen, IsOrderly, turn_seen};
ghost use Rattle.interp_eval.specs.Weight.{after_weight, finish_weight, no_values, LeavesLess};
ghost use Rattle.interp_eval.specs.Values.{behind_values};

use crate::frames::{EvalFrames, EvalNext, Frame};
use crate::node::{Branch, Code, Finish, Next, Node, Operands, code_node};
use crate::performing::{Came, make_op, perform};
use crate::turn::{After, Order, Turn};
use prov_base::{Memory, Pos};
use py_model::{Answer, Args, Doer, Watch};
use py_tree::{Expr, Script};
use py_value::Value;
use std::alloc::Global;

/// The first of some values; None where there is none.
fn first(have: &[Value]) -> Value
    ensures means { (table : ValuesView) → contents table result ≡ first_of (map (contents table) have.now) }
    ensures named { (table : ValuesView) → AreAllNamed table have.now → IsNamed table result }
{
    match have.first() {
        None => Value::None,
        Some(v) => *v,
    }
}

/// A copy of some values, or of all but the first of them.
fn behind(alloc: Global, have: &[Value], skip: bool) -> Result<Vec<Value>, Memory>
    ensures { IfOk result (λ vs. vs.items ≡ behind_values have.now skip) }
{
    let Some((_, others)) = have.split_first() else {
        return Ok(Vec::new(alloc));
    };
    if skip {
        return Ok(Vec::from_slice(alloc, others)?);
    }
    Ok(Vec::from_slice(alloc, have)?)
}

/// The values of the operation of a node.
fn values_of(alloc: Global, frame: &Frame<'_>, skip: bool) -> Result<Vec<Value>, Memory>
    ensures means { IfOk result (λ vs. (table : ValuesView) → map (contents table) vs.items ≡ values_by (finish_seen table frame.now.node.finish) (map (contents table) frame.now.have.items) skip) }
    ensures named { IfOk result (λ vs. (table : ValuesView) → IsHeldFrame table frame.now → AreAllNamed table vs.items) }
{
    let have = frame.have.as_slice();
    match frame.node.finish {
        Finish::Giving(value) => {
            let mut values = Vec::new(alloc);
            values.push(value)?;
            Ok(values)
        }
        Finish::Do(_) => behind(alloc, have, skip),
        Finish::Test(_, _) => behind(alloc, have, skip),
        Finish::Find(_, _, _) => behind(alloc, have, skip),
        Finish::Call => behind(alloc, have, skip),
        Finish::Method => behind(alloc, have, skip),
    }
}

/// Whether this is True.
fn is_true(value: Value) -> bool
    ensures { (table : ValuesView) → result ≡ is_true (contents table value) }
{
    match value {
        Value::Bool(b) => b,
        Value::None => false,
        Value::Int(_) => false,
        Value::Text(_) => false,
        Value::Tuple(_) => false,
        Value::Range(_, _, _) => false,
        Value::Fn(_) => false,
        Value::Class(_) => false,
        Value::Exc(_) => false,
        Value::Builtin(_) => false,
        Value::Object(_) => false,
    }
}

/// The node after a test of a value.
fn after_test<'a>(at: Pos, branch: Branch<'a>, value: Value, holds: bool) -> Node<'a>
    ensures means { (table : ValuesView) → node_seen table result ≡ after_test at (branch_seen branch.entry) (contents table value) holds }
    ensures named { (table : ValuesView) → IsNamed table value → IsHeldFinish table result.finish }
{
    let itself = Node {
        at,
        finish: Finish::Giving(value),
        rest: Operands::Nothing,
    };
    match branch {
        Branch::And(right) => {
            if holds {
                code_node(at, Code::Give, Operands::One(right))
            } else {
                itself
            }
        }
        Branch::Or(right) => {
            if holds {
                itself
            } else {
                code_node(at, Code::Give, Operands::One(right))
            }
        }
        Branch::Choose(chosen, other) => {
            let next = if holds { chosen } else { other };
            code_node(at, Code::Give, Operands::One(next))
        }
    }
}

/// Whether this is a method of a value of the language.
fn is_method(value: Value) -> bool
    ensures { (table : ValuesView) → result ≡ is_method (contents table value) }
{
    match value {
        Value::Builtin(number) => !(number < 80),
        Value::None => false,
        Value::Bool(_) => false,
        Value::Int(_) => false,
        Value::Text(_) => false,
        Value::Tuple(_) => false,
        Value::Range(_, _, _) => false,
        Value::Fn(_) => false,
        Value::Class(_) => false,
        Value::Exc(_) => false,
        Value::Object(_) => false,
    }
}

/// Whether a method walk found a method of this instance.
fn is_instance(owner: Value, method: Option<Pos>) -> bool
    ensures { (table : ValuesView) → result ≡ is_instance (contents table owner) method }
{
    match owner {
        Value::Object(_) => method.is_some(),
        Value::None => false,
        Value::Bool(_) => false,
        Value::Int(_) => false,
        Value::Text(_) => false,
        Value::Tuple(_) => false,
        Value::Range(_, _, _) => false,
        Value::Fn(_) => false,
        Value::Class(_) => false,
        Value::Exc(_) => false,
        Value::Builtin(_) => false,
    }
}

/// Whether what is called gets what it was looked up on.
fn takes_receiver(callee: Value, owner: Value, method: Option<Pos>) -> bool
    ensures { (table : ValuesView) → result ≡ takes_receiver (contents table callee) (contents table owner) method }
{
    match callee {
        Value::Builtin(number) => !(number < 80),
        Value::None => is_instance(owner, method),
        Value::Bool(_) => is_instance(owner, method),
        Value::Int(_) => is_instance(owner, method),
        Value::Text(_) => is_instance(owner, method),
        Value::Tuple(_) => is_instance(owner, method),
        Value::Range(_, _, _) => is_instance(owner, method),
        Value::Fn(_) => is_instance(owner, method),
        Value::Class(_) => is_instance(owner, method),
        Value::Exc(_) => is_instance(owner, method),
        Value::Object(_) => is_instance(owner, method),
    }
}

/// What is called, and what it was looked up on where it gets that.
fn with_owner(alloc: Global, callee: Value, owner: Value, takes: bool) -> Result<Vec<Value>, Memory>
    ensures { IfOk result (λ vs. vs.items ≡ callee ∷ (if takes then owner ∷ [] else [])) }
{
    let mut have = Vec::new(alloc);
    have.push(callee)?;
    if !takes {
        return Ok(have);
    }
    have.push(owner)?;
    Ok(have)
}

/// How a call ends: of a method of a value of the language, or of anything else.
fn call_finish<'a>(is_method: bool) -> Finish<'a>
    ensures means { (table : ValuesView) → finish_seen table result ≡ (if is_method then calls_method else calls_one) }
    ensures named { (table : ValuesView) → IsHeldFinish table result }
{
    if is_method {
        Finish::Method
    } else {
        Finish::Call
    }
}

/// The node after the look-up of what is called.
fn found<'a>(
    alloc: Global,
    at: Pos,
    arguments: &'a [Expr],
    owner: Value,
    callee: Value,
    method: Option<Pos>,
) -> Result<Frame<'a>, Memory>
    ensures means { IfOk result (λ f. (table : ValuesView) → waiting_seen table f ≡ after_find at (exprs_list (map expr_of arguments.entry.now)) (contents table owner) (contents table callee) method) }
    ensures named { IfOk result (λ f. (table : ValuesView) → IsNamed table owner → IsNamed table callee → IsHeldFrame table f) }
{
    let takes = takes_receiver(callee, owner, method);
    let have = with_owner(alloc, callee, owner, takes)?;
    let node = Node {
        at,
        finish: call_finish(is_method(callee)),
        rest: Operands::Items(arguments),
    };
    Ok(Frame { node, have })
}

impl<'a> EvalFrames<'a> {
    /// Goes on with the value of an operation, and with the method that its walk found.
    fn go_on(
        &mut self,
        alloc: Global,
        after: After<'a>,
        value: Value,
        method: Option<Pos>,
    ) -> Result<EvalNext, Memory>
        ensures scope { self.new.scope ≡ self.old.scope }
        ensures means { HasGoneOn after.entry value method self.old self.new result }
        ensures held { (table : ValuesView) → AreHeld table self.old → IsNamed table value → IsHeldNext table self.new result }
        ensures falls { after_weight (after_seen after.entry) < finish_weight (finish_seen no_values self.old.top.node.finish) → LeavesLess self.old self.new result }
    {
        let at = self.top.node.at;
        let had = first(self.top.have.as_slice());
        match after {
            After::Pop => self.deliver(value),
            After::Branch(branch) => {
                let node = after_test(at, branch, had, is_true(value));
                self.top = Frame {
                    node,
                    have: Vec::new(alloc),
                };
                Ok(EvalNext::More)
            }
            After::Bind(arguments) => {
                self.top = found(alloc, at, arguments, had, value, method)?;
                Ok(EvalNext::More)
            }
            After::Never => Ok(EvalNext::Ended),
        }
    }
}

/// A node performs an operation on its values, and the evaluation goes on with the answer.
fn order_step<'a, D: Doer, W: Watch>(
    alloc: Global,
    frames: &mut EvalFrames<'a>,
    order: Order<'a>,
    script: &'a Script,
    doer: &mut D,
    watch: &mut W,
    left: &mut u32,
) -> Result<EvalNext, Memory>
    requires orderly { IsOrderly order }
    requires whole { operands_seen frames.old.top.node.rest ≡ [] }
    requires turn { (table : ValuesView) → turn_seen table (Perform order) ≡ turn_by frames.old.top.node.at (finish_seen table frames.old.top.node.finish) (map (contents table) frames.old.top.have.items) }
    requires state { HasState (D.fits doer.old) (D.stands doer.old) }
    requires held { AreHeldBy (D.fits doer.old) frames.old }
    ensures knew { Knew (D.fits doer.old) (D.fits doer.new) }
    ensures scope { frames.new.scope ≡ frames.old.scope }
    ensures held { HoldsNext (D.fits doer.new) frames.new result }
    ensures falls { LeavesLess frames.old frames.new result }
    ensures step { Steps (script_of script.entry.now) frames.old frames.new left.old left.new (D.fits doer.new) (D.stands doer.old) (D.stands doer.new) (W.history watch.old) (W.history watch.new) result }
{
    let Ok(values) = values_of(alloc, &frames.top, order.skip) else {
        return Err(Memory);
    };
    let op = match make_op(alloc, script, frames.scope, doer, order.no, order.want) {
        Ok(op) => op,
        Err(refused) => return Err(refused),
    };
    let came = match perform(alloc, doer, watch, left, order.at, op, values) {
        Ok(came) => came,
        Err(refused) => return Err(refused),
    };
    match came {
        Came::TooDear => Ok(EvalNext::Spent),
        Came::Unanswered => Ok(EvalNext::Unanswered),
        Came::Did(answer, method) => match answer {
            Answer::Raised(o) => Ok(EvalNext::Raised(o)),
            Answer::End => Ok(EvalNext::Ended),
            Answer::Value(value) => frames.go_on(alloc, order.after, value, method),
        },
    }
}

/// A node with all its operands takes its turn: it performs an operation, or a call is answered.
fn turn_step<'a, D: Doer, W: Watch>(
    alloc: Global,
    frames: &mut EvalFrames<'a>,
    script: &'a Script,
    doer: &mut D,
    watch: &mut W,
    left: &mut u32,
) -> Result<EvalNext, Memory>
    requires whole { operands_seen frames.old.top.node.rest ≡ [] }
    requires state { HasState (D.fits doer.old) (D.stands doer.old) }
    requires held { AreHeldBy (D.fits doer.old) frames.old }
    ensures knew { Knew (D.fits doer.old) (D.fits doer.new) }
    ensures scope { frames.new.scope ≡ frames.old.scope }
    ensures held { HoldsNext (D.fits doer.new) frames.new result }
    ensures falls { LeavesLess frames.old frames.new result }
    ensures step { Steps (script_of script.entry.now) frames.old frames.new left.old left.new (D.fits doer.new) (D.stands doer.old) (D.stands doer.new) (W.history watch.old) (W.history watch.new) result }
{
    match frames.top.turn() {
        Turn::Perform(order) => order_step(alloc, frames, order, script, doer, watch, left),
        Turn::Call(callee) => match behind(alloc, frames.top.have.as_slice(), true) {
            Err(refused) => Err(refused),
            Ok(arguments) => {
                let at = frames.top.node.at;
                Ok(EvalNext::Call(callee, Args::of(arguments), at))
            }
        },
    }
}

/// One step: one operand is begun, or one moment is performed and told; or the evaluation comes to its end, to a call, or to what ends it.
pub fn eval_step<'a, D: Doer, W: Watch>(
    alloc: Global,
    frames: &mut EvalFrames<'a>,
    script: &'a Script,
    doer: &mut D,
    watch: &mut W,
    left: &mut u32,
) -> Result<EvalNext, Memory>
    requires state { HasState (D.fits doer.old) (D.stands doer.old) }
    requires held { AreHeldBy (D.fits doer.old) frames.old }
    ensures knew { Knew (D.fits doer.old) (D.fits doer.new) }
    ensures state { HasState (D.fits doer.new) (D.stands doer.new) }
    ensures scope { frames.new.scope ≡ frames.old.scope }
    ensures held { HoldsNext (D.fits doer.new) frames.new result }
    ensures falls { LeavesLess frames.old frames.new result }
    ensures step { Steps (script_of script.entry.now) frames.old frames.new left.old left.new (D.fits doer.new) (D.stands doer.old) (D.stands doer.new) (W.history watch.old) (W.history watch.new) result }
{
    match frames.top.node.rest.split() {
        Next::Done => turn_step(alloc, frames, script, doer, watch, left),
        Next::Absent(rest) => match frames.skip(rest) {
            Ok(()) => Ok(EvalNext::More),
            Err(refused) => Err(refused),
        },
        Next::Begin(operand, rest) => match frames.begin(alloc, operand, rest) {
            Ok(()) => Ok(EvalNext::More),
            Err(refused) => Err(refused),
        },
    }
}
