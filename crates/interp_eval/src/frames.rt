// Frames: nodes that wait for a value, one inside the other.
ghost use Rattle.std.specs.Prelude.{◌≡◌, IfOk, OnOk, [], ◌∷◌, None as Nothing};
ghost use Rattle.py_tree.specs.Erasure.{expr_of};
ghost use Rattle.py_value.specs.Values.{ValuesView};
ghost use Rattle.std.specs.Prelude.{map, ◌++◌};
ghost use Rattle.py_value.specs.Contents.{Contents, contents, nothing};
ghost use Rattle.py_value.specs.Values.{IsNamed};
ghost use Rattle.interp_eval.specs.Held.{AreHeld};
ghost use Rattle.interp_eval.specs.Step.{given, remaining};
ghost use Rattle.py_tree.specs.Tree.{ScriptTree};
ghost use Rattle.py_model.specs.Act.{Act};
ghost use Rattle.py_model.specs.Expressions.{Here, Task, eval};
ghost use Rattle.interp_eval.specs.Machine.{node_for, node, machine, waiting};
ghost use Rattle.interp_eval.specs.Delivery.{IsDelivered};
ghost use Rattle.interp_eval.specs.Seen.{finish_seen, operands_seen};
ghost use Rattle.interp_eval.specs.Seen.{waiting_seen, machine_seen};

use crate::node::{Finish, Next, Node, Operands, node_for};
use prov_base::{Memory, Pos};
use py_model::Args;
use py_tree::Expr;
use py_value::Value;
use std::alloc::Global;
use std::mem;

/// What a step of an evaluation came to.
#[derive(Drop)]
pub enum EvalNext {
    /// It goes on.
    More,
    /// It is done, with this value.
    Value(Value),
    /// A function or a class is called with these arguments, at this place. The caller makes the call and gives its value.
    Call(Value, Args, Pos),
    /// This exception was raised.
    Raised(u32),
    /// An operation answered as only those of statements do. No operation of an expression is known to; the statement ends.
    Ended,
    /// An operation costs more than is left.
    Spent,
    /// An operation asked for what is not there.
    Unanswered,
}

/// Where an expression is evaluated: the activation, and the number of the statement of its `def`; 0 and `None` at module level.
#[derive(Clone, Copy)]
pub struct Scope {
    /// The number of the activation.
    pub activation: u32,
    /// The number of the `def`.
    pub function: Option<u32>,
}

/// A node with the values of the operands before those that are left.
#[derive(Drop)]
pub(crate) struct Frame<'a> {
    pub node: Node<'a>,
    pub have: Vec<Value>,
}

/// An expression that is being evaluated: the innermost node, and those around it, the outermost first.
#[derive(Drop)]
pub struct EvalFrames<'a> {
    pub(crate) scope: Scope,
    pub(crate) top: Frame<'a>,
    pub(crate) below: Vec<Frame<'a>>,
}

impl<'a> EvalFrames<'a> {
    /// An expression of which nothing is evaluated yet.
    pub fn start(alloc: Global, expr: &'a Expr, scope: Scope) -> Result<EvalFrames<'a>, Memory>
        ensures scope { IfOk result (λ frames. frames.scope ≡ scope) }
        ensures held { IfOk result (λ frames. (table : ValuesView) → AreHeld table frames) }
        ensures means { IfOk result (λ frames. (script : ScriptTree) (next : Task → Act) (here : Here) (go : Contents → Act) (table : ValuesView)
            → remaining script next here go table frames ≡ eval script next here (expr_of expr.entry.now) go) }
    {
        Ok(EvalFrames {
            scope,
            top: Frame {
                node: node_for(expr),
                have: Vec::new(alloc),
            },
            below: Vec::new(alloc),
        })
    }

    /// An operand is begun: its node goes above the one that waits for it, which has these operands left.
    pub(crate) fn begin(
        &mut self,
        alloc: Global,
        operand: &'a Expr,
        rest: Operands<'a>,
    ) -> Result<(), Memory>
        ensures scope { self.new.scope ≡ self.old.scope }
        ensures held { OnOk result ((table : ValuesView) → AreHeld table self.old → AreHeld table self.new) }
        ensures means { OnOk result ((table : ValuesView) → machine_seen table self.new ≡ machine (node_for (expr_of operand.entry.now)) []
            (map (waiting_seen table) self.old.below.items ++ waiting (node self.old.top.node.at (finish_seen table self.old.top.node.finish) (operands_seen rest.entry)) (map (contents table) self.old.top.have.items) ∷ [])) }
    {
        let top = Frame {
            node: node_for(operand),
            have: Vec::new(alloc),
        };
        let waiting = mem::replace(&mut self.top, top);
        let node = Node {
            at: waiting.node.at,
            finish: waiting.node.finish,
            rest,
        };
        self.below.push(Frame {
            node,
            have: waiting.have,
        })?;
        Ok(())
    }

    /// An operand is absent: the innermost node has None for it, and these operands left.
    pub(crate) fn skip(&mut self, rest: Operands<'a>) -> Result<(), Memory>
        ensures scope { self.new.scope ≡ self.old.scope }
        ensures held { OnOk result ((table : ValuesView) → AreHeld table self.old → AreHeld table self.new) }
        ensures means { OnOk result ((table : ValuesView) → machine_seen table self.new ≡ machine (node self.old.top.node.at (finish_seen table self.old.top.node.finish) (operands_seen rest.entry))
            (map (contents table) self.old.top.have.items ++ nothing ∷ []) (map (waiting_seen table) self.old.below.items)) }
    {
        self.top.have.push(Value::None)?;
        self.top.node = Node {
            at: self.top.node.at,
            finish: self.top.node.finish,
            rest,
        };
        Ok(())
    }

    /// The innermost node has this value, and is left: the one around it has it for its operand. Where there is none, it is the value of the
    /// expression.
    pub(crate) fn deliver(&mut self, value: Value) -> Result<EvalNext, Memory>
        ensures scope { self.new.scope ≡ self.old.scope }
        ensures means { IsDelivered value self.old self.new result }
    {
        let Some(frame) = self.below.pop() else {
            return Ok(EvalNext::Value(value));
        };
        self.top = frame;
        self.top.have.push(value)?;
        Ok(EvalNext::More)
    }

    /// The call that the last step answered has this value: the next step performs the operation `give` with it.
    pub fn give(&mut self, v: Value)
        ensures given { self.new ≡ given v self.old }
        ensures held { (table : ValuesView) → AreHeld table self.old → IsNamed table v → AreHeld table self.new }
    {
        self.top.node = Node {
            at: self.top.node.at,
            finish: Finish::Giving(v),
            rest: Operands::Nothing,
        };
    }
}
