// How a part of a statement is opened.
ghost use Rattle.std.specs.Prelude.{◌≡◌, IfOk, pos};
ghost use Rattle.py_tree.specs.Erasure.{form_of};
ghost use Rattle.py_tree.specs.Tree.{ScriptTree};
ghost use Rattle.py_value.specs.Contents.{contents, int};
ghost use Rattle.py_value.specs.Values.{ValuesView, IsNamed, Keeps};
ghost use Rattle.py_model.specs.Act.{Act};
ghost use Rattle.py_model.specs.Expressions.{Here, Task};
ghost use Rattle.py_model.specs.Statements.{suite};
ghost use Rattle.interp_eval.specs.declared.frames.Scope.{Scope as OneScope};
ghost use Rattle.flow_frames.specs.Held.{IsHeldClass, IsHeldGoal, IsHeldNow, IsHeldStage};
ghost use Rattle.flow_frames.specs.Machine.{handled_act, handler_in, inside_here, now_act, suite_act, suite_in, turn_act};
ghost use Rattle.flow_frames.specs.Seen.{here_seen, now_seen, stmts_seen};
ghost use Rattle.flow_suites.specs.Running.{HoldsOpened, OpensBy};
ghost use Rattle.flow_frames.specs.declared.control.End.TheVariants.{Normal};
ghost use Rattle.flow_frames.specs.declared.control.Now.TheVariants.{Ended, InSuite};
ghost use Rattle.flow_suites.specs.declared.running.Way.TheVariants.{Becomes, Runs};
ghost use Rattle.flow_frames.specs.declared.control.Stage.TheVariants.{Spreads};

use flow_frames::{Code, End, Goal, Now, Part, Spot, Stage, on_three};
use flow_openings::{handler_in, suite_in, test_opened};
use flow_stages::handled;
use flow_targets::{item_at, reached, several_in, stored, target_at};
use prov_base::Memory;
use py_tree::{Form, Stmt};
use py_value::{Value, Values};
use std::alloc::Global;

/// How a part of a statement is opened.
#[derive(Clone, Copy)]
pub enum Way {
    /// What is done now stands where the part stands.
    Becomes,
    /// It stands at this spot, and the part waits for its end.
    Runs(Spot),
}

/// What a part of a statement is opened as.
#[derive(Drop)]
pub struct Opened<'a> {
    /// What is done now.
    pub now: Now<'a>,
    /// How.
    pub way: Way,
}

/// A number of turns, as a value.
fn counted(number: u32) -> Value
    ensures means { (table : ValuesView) → contents table result ≡ int (pos number) }
    ensures named { (table : ValuesView) → IsNamed table result }
{
    Value::Int(i64::from(number))
}

/// The next item of a `for` is asked for.
#[tactic(auto, using(py_tree::proofs::StmtTrees::form_trees))]
fn turned<'a>(
    alloc: Global,
    part: Part<'a>,
    items: Value,
    number: u32,
    size: Value,
) -> Result<Now<'a>, Memory>
    ensures means { IfOk result (λ now. (script : ScriptTree) (next : Task → Act) (here : Here) (table : ValuesView)
        → now_act script next here (now_seen table now) ≡ turn_act script next here part.entry.stmt.now.pos (form_of part.entry.stmt.now.form.value) (contents table items) number (contents table size)) }
    ensures held { IfOk result (λ now. (table : ValuesView) (scope : OneScope) → IsNamed table items → IsNamed table size → IsHeldNow table scope now) }
{
    match &*part.stmt.form {
        Form::For(_, _, _) => on_three(
            alloc,
            part.stmt.pos,
            Code::Next,
            items,
            counted(number),
            size,
            part.to(Stage::Item(items, number, size)),
        ),
        Form::Do(_) => Ok(Now::Ended(End::Normal)),
        Form::Assign(_, _) => Ok(Now::Ended(End::Normal)),
        Form::Aug(_, _, _, _) => Ok(Now::Ended(End::Normal)),
        Form::Del(_) => Ok(Now::Ended(End::Normal)),
        Form::Pass => Ok(Now::Ended(End::Normal)),
        Form::Break => Ok(Now::Ended(End::Normal)),
        Form::Continue => Ok(Now::Ended(End::Normal)),
        Form::Return(_) => Ok(Now::Ended(End::Normal)),
        Form::Raise(_) => Ok(Now::Ended(End::Normal)),
        Form::Assert(_, _) => Ok(Now::Ended(End::Normal)),
        Form::Import(_) => Ok(Now::Ended(End::Normal)),
        Form::If(_, _) => Ok(Now::Ended(End::Normal)),
        Form::While(_, _) => Ok(Now::Ended(End::Normal)),
        Form::Try(_, _) => Ok(Now::Ended(End::Normal)),
        Form::With(_, _, _) => Ok(Now::Ended(End::Normal)),
        Form::Def(_, _, _, _) => Ok(Now::Ended(End::Normal)),
        Form::Class(_, _, _) => Ok(Now::Ended(End::Normal)),
    }
}

/// Where the suite of a `with` or a class stands.
#[tactic(auto, using(py_tree::proofs::StmtTrees::form_trees))]
fn inside_spot(stmt: &Stmt, value: Value, spot: Spot) -> Spot
    ensures means { (script : ScriptTree) (table : ValuesView) → here_seen script table result ≡ inside_here (form_of stmt.now.form.value) (contents table value) (here_seen script table spot) }
    ensures held { (table : ValuesView) → IsNamed table value → IsHeldClass table spot.in_class → IsHeldClass table result.in_class }
{
    match &*stmt.form {
        Form::Class(_, _, _) => Spot {
            in_class: Some(value),
            ..spot
        },
        Form::Do(_) => spot,
        Form::Assign(_, _) => spot,
        Form::Aug(_, _, _, _) => spot,
        Form::Del(_) => spot,
        Form::Pass => spot,
        Form::Break => spot,
        Form::Continue => spot,
        Form::Return(_) => spot,
        Form::Raise(_) => spot,
        Form::Assert(_, _) => spot,
        Form::Import(_) => spot,
        Form::If(_, _) => spot,
        Form::While(_, _) => spot,
        Form::For(_, _, _) => spot,
        Form::Try(_, _) => spot,
        Form::With(_, _, _) => spot,
        Form::Def(_, _, _, _) => spot,
    }
}

/// The statements of the suite of a statement; none where it has no suite.
fn stmts_in<'a>(stmt: &'a Stmt) -> &'a [Stmt]
    ensures { (script : ScriptTree) (next : Task → Act) (here : Here) → suite script next here (stmts_seen result.now) ≡ suite_act script next here (suite_in (form_of stmt.entry.now.form.value)) }
{
    match suite_in(stmt) {
        None => &[],
        Some(suite) => suite.list.as_slice(),
    }
}

/// The statements of the suite of a handler; none where there is no handler.
fn handler_stmts<'a>(stmt: &'a Stmt, number: usize) -> &'a [Stmt]
    ensures { (script : ScriptTree) (next : Task → Act) (here : Here) → suite script next here (stmts_seen result.now) ≡ handled_act script next here (handler_in (form_of stmt.entry.now.form.value) number) }
{
    match handler_in(stmt, number) {
        None => &[],
        Some(handler) => handler.2.list.as_slice(),
    }
}

/// Something is done now in place of a part.
fn becomes<'a>(now: Now<'a>) -> Opened<'a>
    ensures { result ≡ record { now = now.entry; way = Becomes } }
{
    let way = Way::Becomes;
    Opened { now, way }
}

/// A part that is no test, no turn, no handler, no suite and no store is not opened: it is at its end.
fn ended<'a>() -> Opened<'a>
    ensures { result ≡ record { now = Ended Normal; way = Becomes } }
{
    Opened {
        now: Now::Ended(End::Normal),
        way: Way::Becomes,
    }
}

/// Statements run at a spot.
fn runs<'a>(stmts: &'a [Stmt], spot: Spot) -> Opened<'a>
    ensures { result ≡ record { now = InSuite stmts.entry; way = Runs spot } }
{
    Opened {
        now: Now::InSuite(stmts),
        way: Way::Runs(spot),
    }
}

/// The item of one of several targets is stored, and what is left of them waits for that; behind the last what follows them all is next.
fn spread_opened<'a>(
    part: Part<'a>,
    goal: Goal,
    number: usize,
    value: Value,
    spot: Spot,
    values: &Values,
) -> Opened<'a>
    requires { IsNamed values.now value }
    ensures means { part.entry.stage ≡ Spreads goal number value → OpensBy values.now part.entry spot result.now result.way }
    ensures held { (table : ValuesView) → Keeps values.now.texts table.texts → Keeps values.now.tuples table.tuples → IsHeldGoal table goal → IsHeldClass table spot.in_class → HoldsOpened table spot result.now result.way }
{
    let Some(targets) = several_in(goal, part.stmt) else {
        return ended();
    };
    let targets = targets.list.as_slice();
    match target_at(targets, number) {
        None => becomes(reached(part, goal)),
        Some(_) => {
            let item = item_at(values, value, number);
            let stores = part.to(Stage::Stores(Goal::Breaks(number), item));
            Opened {
                now: Now::Opens(stores),
                way: Way::Runs(spot),
            }
        }
    }
}

/// A part of a statement is opened at its spot. The texts and tuples are those of the values that it holds.
pub fn part_opened<'a>(
    alloc: Global,
    part: Part<'a>,
    spot: Spot,
    values: &Values,
) -> Result<Opened<'a>, Memory>
    requires { IsHeldStage values.now part.stage }
    ensures means { IfOk result (λ opened. OpensBy values.now part.entry spot opened.now opened.way) }
    ensures held { IfOk result (λ opened. (table : ValuesView) → Keeps values.now.texts table.texts → Keeps values.now.tuples table.tuples → IsHeldStage table part.entry.stage → IsHeldClass table spot.in_class → HoldsOpened table spot opened.now opened.way) }
{
    let stmt = part.stmt;
    match part.stage {
        Stage::Tested(number) => {
            let now = test_opened(alloc, stmt, number, spot.scope)?;
            Ok(becomes(now))
        }
        Stage::Turn(items, number, size) => {
            let now = turned(alloc, part, items, number, size)?;
            Ok(becomes(now))
        }
        Stage::Handler(number, o, line) => {
            let now = handled(alloc, part, number, o, line, spot.scope)?;
            Ok(becomes(now))
        }
        Stage::Handles(number, o) => {
            let handled = Some(o);
            let inner = Spot { handled, ..spot };
            Ok(runs(handler_stmts(stmt, number), inner))
        }
        Stage::Inside(value) => {
            let inner = inside_spot(stmt, value, spot);
            Ok(runs(stmts_in(stmt), inner))
        }
        Stage::Stores(goal, value) => {
            let now = stored(alloc, part, goal, value, spot.scope)?;
            Ok(becomes(now))
        }
        Stage::Spreads(goal, number, value) => {
            Ok(spread_opened(part, goal, number, value, spot, values))
        }
        Stage::Body => Ok(runs(stmts_in(stmt), spot)),
        Stage::Repeats(_, _, _) => Ok(runs(stmts_in(stmt), spot)),
        Stage::Valued => Ok(ended()),
        Stage::Answered(_) => Ok(ended()),
        Stage::Done => Ok(ended()),
        Stage::Failed => Ok(ended()),
        Stage::Holder(_, _) => Ok(ended()),
        Stage::Index(_, _, _) => Ok(ended()),
        Stage::Stored(_) => Ok(ended()),
        Stage::Unpacked(_) => Ok(ended()),
        Stage::Sized(_) => Ok(ended()),
        Stage::Item(_, _, _) => Ok(ended()),
        Stage::Owner => Ok(ended()),
        Stage::Key(_) => Ok(ended()),
        Stage::Based => Ok(ended()),
        Stage::Slotted(_) => Ok(ended()),
        Stage::Loaded(_, _) => Ok(ended()),
        Stage::Sided(_, _, _) => Ok(ended()),
        Stage::Changed(_, _) => Ok(ended()),
        Stage::Entered => Ok(ended()),
        Stage::Named(_) => Ok(ended()),
        Stage::Closes(_) => Ok(ended()),
        Stage::Sought(_, _, _) => Ok(ended()),
        Stage::Matched(_, _, _) => Ok(ended()),
        Stage::Catches(_, _) => Ok(ended()),
    }
}
