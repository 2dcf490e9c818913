// What is done now: parts of statements, and what gives their values.
ghost use Rattle.std.specs.Prelude.{◌≡◌, [], ◌∷◌, IfOk, map, slice_get};
ghost use Rattle.std.specs.Option.{option_map};
ghost use Rattle.py_tree.specs.Erasure.{expr_of, form_of, target_of};
ghost use Rattle.py_tree.specs.Tree.{ScriptTree};
ghost use Rattle.py_value.specs.Contents.{contents};
ghost use Rattle.py_value.specs.Values.{ValuesView, IsNamed};
ghost use Rattle.py_model.specs.Act.{Act};
ghost use Rattle.py_model.specs.Expressions.{Here, Task, doing, eval};
ghost use Rattle.interp_eval.specs.Held.{AreAllNamed};
ghost use Rattle.interp_eval.specs.Machine.{is_true};
ghost use Rattle.flow_frames.specs.Codes.{code_number, code_value, code_want};
ghost use Rattle.interp_eval.specs.declared.frames.Scope.{Scope as OneScope};
ghost use Rattle.flow_frames.specs.Held.{IsHeldNow, IsHeldStage};
ghost use Rattle.flow_frames.specs.Machine.{flow_op, now_act, target_in, then_act};
ghost use Rattle.flow_frames.specs.Seen.{now_seen, stage_seen};

use crate::codes::Code;
use interp_eval::{EvalFrames, Scope};
use prov_base::{Memory, Pos};
use py_model::Args;
use py_tree::{Expr, Form, Stmt, Suite, Target};
use py_value::Value;
use std::alloc::Global;

/// How a suite or a statement ended: normally, by a jump, or by an exception, with the line of the statement that raised it.
#[derive(Clone, Copy)]
pub enum End {
    /// Normally.
    Normal,
    /// By `break`.
    Broke,
    /// By `continue`.
    Continued,
    /// By `return`, with its value.
    Returned(Value),
    /// By an exception: its object, and the line.
    Threw(u32, u32),
}

/// What follows a value that is stored in a target.
#[derive(Clone, Copy)]
pub enum Goal {
    /// The end of the statement.
    Finishes,
    /// The suite of a turn of a `for`: its items, the number of turns before it, and their size.
    Turns(Value, u32, Value),
    /// The next of several targets, of which this is the one with a number.
    Breaks(usize),
}

/// How far a statement is.
#[derive(Clone, Copy)]
pub enum Stage {
    /// The value of its expression is awaited.
    Valued,
    /// The value of the test with this number.
    Tested(usize),
    /// The answer whether that is true.
    Answered(usize),
    /// The answer of its last operation.
    Done,
    /// Its suite is next.
    Body,
    /// The message of an assertion that failed is awaited.
    Failed,
    /// This value is to be stored in its target.
    Stores(Goal, Value),
    /// The container of the target of this value is awaited.
    Holder(Goal, Value),
    /// The index in this container is awaited.
    Index(Goal, Value, Value),
    /// The answer of the operation that stores a value is awaited.
    Stored(Goal),
    /// A value is taken apart for several targets.
    Unpacked(Goal),
    /// The items of this are stored, from the target with a number on.
    Spreads(Goal, usize, Value),
    /// The size of what a `for` goes over is awaited.
    Sized(Value),
    /// A turn of a `for` is next: its items, the number of turns before it, and their size.
    Turn(Value, u32, Value),
    /// The item of a turn is awaited.
    Item(Value, u32, Value),
    /// The suite of a turn is next.
    Repeats(Value, u32, Value),
    /// The container of a target with no value is awaited.
    Owner,
    /// The index in this container is awaited.
    Key(Value),
    /// The container of the target of an augmented assignment is awaited.
    Based,
    /// The index in this container is awaited.
    Slotted(Value),
    /// What stands there is awaited, for this container and index; None where the target has none.
    Loaded(Value, Value),
    /// The value of the right side is awaited, for this container, index, and what stood there.
    Sided(Value, Value, Value),
    /// The new value is awaited, for this container and index.
    Changed(Value, Value),
    /// The file of a `with`, or a class, is awaited.
    Entered,
    /// The binding of this file is awaited.
    Named(Value),
    /// The suite of a `with` or a class is next, with this file or class.
    Inside(Value),
    /// The answer of an operation after an end is awaited.
    Closes(End),
    /// The handler with a number is next, for this exception and its line.
    Handler(usize, u32, u32),
    /// The class of a handler is awaited.
    Sought(usize, u32, u32),
    /// The answer whether the exception is of it is awaited.
    Matched(usize, u32, u32),
    /// The binding of the exception is awaited.
    Catches(usize, u32),
    /// The suite of a handler is next.
    Handles(usize, u32),
}

/// A statement from a stage on.
#[derive(Clone, Copy)]
pub struct Part<'a> {
    /// The statement.
    pub stmt: &'a Stmt,
    /// How far it is.
    pub stage: Stage,
}

/// What is called.
#[derive(Clone, Copy)]
pub enum Callee {
    /// A function, by its place.
    Function(Pos),
    /// A class or an exception class, of which an object is made.
    Class(Value),
}

/// An expression that waits for a call.
#[derive(Drop)]
pub struct Caller<'a> {
    /// The expression.
    pub eval: EvalFrames<'a>,
    /// The object that was made for the call, which is its value; None where that is what the function returns.
    pub made: Option<Value>,
}

/// What gives a value: an expression that is being evaluated, an operation on values, or a call.
#[derive(Drop)]
pub enum Work<'a> {
    /// An expression.
    Evaluates(EvalFrames<'a>),
    /// An operation at a place.
    Operation(Pos, Code<'a>, Vec<Value>),
    /// A call at a place with these values, that an expression waits for.
    Calls(Box<Caller<'a>>, Pos, Callee, Args),
}

/// What gives a value, and the part of a statement that follows it.
#[derive(Drop)]
pub struct Giving<'a> {
    /// What gives the value.
    pub work: Work<'a>,
    /// What follows it.
    pub part: Part<'a>,
}

/// What is done now.
#[derive(Drop)]
pub enum Now<'a> {
    /// These statements, one after the other.
    InSuite(&'a [Stmt]),
    /// A part of a statement is opened.
    Opens(Part<'a>),
    /// A value is made.
    Gives(Box<Giving<'a>>),
    /// A suite or a statement has ended.
    Ended(End),
}

impl<'a> Part<'a> {
    /// The statement at another stage.
    pub fn to(self, stage: Stage) -> Part<'a>
        ensures { result ≡ record { stmt = self.entry.stmt; stage = stage } }
    {
        Part {
            stmt: self.stmt,
            stage,
        }
    }
}

/// An expression is begun, and a part of a statement follows its value.
#[inline(always)]
pub fn start<'a>(
    alloc: Global,
    expr: &'a Expr,
    scope: Scope,
    part: Part<'a>,
) -> Result<Now<'a>, Memory>
    ensures means { IfOk result (λ now. (script : ScriptTree) (next : Task → Act) (here : Here) (table : ValuesView)
        → now_act script next here (now_seen table now) ≡ eval script next here (expr_of expr.entry.now) (then_act script next here part.entry.stmt.now.pos (form_of part.entry.stmt.now.form.value) (stage_seen table part.entry.stage))) }
    ensures held { IfOk result (λ now. (table : ValuesView) → IsHeldStage table part.entry.stage → IsHeldNow table scope now) }
{
    let work = Work::Evaluates(EvalFrames::start(alloc, expr, scope)?);
    Ok(Now::Gives(Box::new(alloc, Giving { work, part })?))
}

/// An operation on some values, and the part that follows its answer.
#[inline(always)]
fn operates<'a>(
    alloc: Global,
    at: Pos,
    code: Code<'a>,
    values: Vec<Value>,
    part: Part<'a>,
) -> Result<Now<'a>, Memory>
    ensures means { IfOk result (λ now. (script : ScriptTree) (next : Task → Act) (here : Here) (table : ValuesView)
        → now_act script next here (now_seen table now) ≡ doing here at (flow_op here (code_number code.entry) (code_want code.entry) (code_value code.entry)) (map (contents table) values.items) (then_act script next here part.entry.stmt.now.pos (form_of part.entry.stmt.now.form.value) (stage_seen table part.entry.stage))) }
    ensures held { IfOk result (λ now. (table : ValuesView) (scope : OneScope) → AreAllNamed table values.items → IsHeldStage table part.entry.stage → IsHeldNow table scope now) }
{
    let work = Work::Operation(at, code, values);
    Ok(Now::Gives(Box::new(alloc, Giving { work, part })?))
}

/// An operation on no value.
pub fn on_none<'a>(
    alloc: Global,
    at: Pos,
    code: Code<'a>,
    part: Part<'a>,
) -> Result<Now<'a>, Memory>
    ensures means { IfOk result (λ now. (script : ScriptTree) (next : Task → Act) (here : Here) (table : ValuesView)
        → now_act script next here (now_seen table now) ≡ doing here at (flow_op here (code_number code.entry) (code_want code.entry) (code_value code.entry)) [] (then_act script next here part.entry.stmt.now.pos (form_of part.entry.stmt.now.form.value) (stage_seen table part.entry.stage))) }
    ensures held { IfOk result (λ now. (table : ValuesView) (scope : OneScope) → IsHeldStage table part.entry.stage → IsHeldNow table scope now) }
{
    operates(alloc, at, code, Vec::new(alloc), part)
}

/// An operation on one value.
#[inline(always)]
pub fn on_one<'a>(
    alloc: Global,
    at: Pos,
    code: Code<'a>,
    value: Value,
    part: Part<'a>,
) -> Result<Now<'a>, Memory>
    ensures means { IfOk result (λ now. (script : ScriptTree) (next : Task → Act) (here : Here) (table : ValuesView)
        → now_act script next here (now_seen table now) ≡ doing here at (flow_op here (code_number code.entry) (code_want code.entry) (code_value code.entry)) (contents table value ∷ []) (then_act script next here part.entry.stmt.now.pos (form_of part.entry.stmt.now.form.value) (stage_seen table part.entry.stage))) }
    ensures held { IfOk result (λ now. (table : ValuesView) (scope : OneScope) → IsNamed table value → IsHeldStage table part.entry.stage → IsHeldNow table scope now) }
{
    let mut values = Vec::new(alloc);
    values.push(value)?;
    operates(alloc, at, code, values, part)
}

/// An operation on two values.
#[inline(always)]
pub fn on_two<'a>(
    alloc: Global,
    at: Pos,
    code: Code<'a>,
    first: Value,
    second: Value,
    part: Part<'a>,
) -> Result<Now<'a>, Memory>
    ensures means { IfOk result (λ now. (script : ScriptTree) (next : Task → Act) (here : Here) (table : ValuesView)
        → now_act script next here (now_seen table now) ≡ doing here at (flow_op here (code_number code.entry) (code_want code.entry) (code_value code.entry)) (contents table first ∷ contents table second ∷ []) (then_act script next here part.entry.stmt.now.pos (form_of part.entry.stmt.now.form.value) (stage_seen table part.entry.stage))) }
    ensures held { IfOk result (λ now. (table : ValuesView) (scope : OneScope) → IsNamed table first → IsNamed table second → IsHeldStage table part.entry.stage → IsHeldNow table scope now) }
{
    let mut values = Vec::new(alloc);
    values.push(first)?;
    values.push(second)?;
    operates(alloc, at, code, values, part)
}

/// An operation on three values.
#[inline(always)]
pub fn on_three<'a>(
    alloc: Global,
    at: Pos,
    code: Code<'a>,
    first: Value,
    second: Value,
    third: Value,
    part: Part<'a>,
) -> Result<Now<'a>, Memory>
    ensures means { IfOk result (λ now. (script : ScriptTree) (next : Task → Act) (here : Here) (table : ValuesView)
        → now_act script next here (now_seen table now) ≡ doing here at (flow_op here (code_number code.entry) (code_want code.entry) (code_value code.entry)) (contents table first ∷ contents table second ∷ contents table third ∷ []) (then_act script next here part.entry.stmt.now.pos (form_of part.entry.stmt.now.form.value) (stage_seen table part.entry.stage))) }
    ensures held { IfOk result (λ now. (table : ValuesView) (scope : OneScope) → IsNamed table first → IsNamed table second → IsNamed table third → IsHeldStage table part.entry.stage → IsHeldNow table scope now) }
{
    let mut values = Vec::new(alloc);
    values.push(first)?;
    values.push(second)?;
    values.push(third)?;
    operates(alloc, at, code, values, part)
}

/// Whether this is True.
pub fn is_true(value: Value) -> bool
    ensures { (table : ValuesView) → result ≡ is_true (contents table value) }
{
    match value {
        Value::Bool(b) => b,
        Value::None => false,
        Value::Int(_) => false,
        Value::Text(_) => false,
        Value::Tuple(_) => false,
        Value::Range(_, _, _) => false,
        Value::Fn(_) => false,
        Value::Class(_) => false,
        Value::Exc(_) => false,
        Value::Builtin(_) => false,
        Value::Object(_) => false,
    }
}

/// The branch with a number.
pub fn branch_at<'a>(branches: &'a [(Expr, Suite)], number: usize) -> Option<&'a (Expr, Suite)>
    ensures { option_map (λ b. b.now) result ≡ slice_get branches.entry.now number }
{
    branches.get(number)
}

/// The target of a statement.
#[tactic(auto, using(py_tree::proofs::StmtTrees::form_trees))]
pub fn target_in<'a>(stmt: &'a Stmt) -> Option<&'a Target>
    ensures { option_map (λ t. target_of t.now) result ≡ target_in (form_of stmt.entry.now.form.value) }
{
    match &*stmt.form {
        Form::Assign(target, _) => Some(target),
        Form::Aug(target, _, _, _) => Some(target),
        Form::Del(target) => Some(target),
        Form::For(target, _, _) => Some(target),
        Form::Do(_) => None,
        Form::Pass => None,
        Form::Break => None,
        Form::Continue => None,
        Form::Return(_) => None,
        Form::Raise(_) => None,
        Form::Assert(_, _) => None,
        Form::Import(_) => None,
        Form::If(_, _) => None,
        Form::While(_, _) => None,
        Form::Try(_, _) => None,
        Form::With(_, _, _) => None,
        Form::Def(_, _, _, _) => None,
        Form::Class(_, _, _) => None,
    }
}
