// One operation is performed: its words are made, the doer does it, its cost is paid, and the watch is told.
ghost use Rattle.std.specs.Prelude.{◌≡◌, ◌+◌, ◌-◌, ◌<◌, ◌≤◌, true, length, OnOk};
ghost use Rattle.py_tree.specs.Erasure.{script_of};
ghost use Rattle.py_value.specs.Values.{ValuesView};
ghost use Rattle.py_model.specs.Capture.{Capture};
ghost use Rattle.py_model.specs.Doing.{Knew};
ghost use Rattle.py_model.specs.Told.{moment_seen, is_operation, IsTellable, IsToldNow, TellsOn};
ghost use Rattle.interp_eval.specs.Performing.{HasState, AreNamedBy, MakesOp, HasPerformed};
ghost use Rattle.interp_eval.specs.SomeWord.{IsSomeWord};
ghost use Rattle.interp_eval.specs.Turns.{IsWanted};

use crate::frames::Scope;
use crate::turn::Want;
use prov_base::{Memory, Pos};
use py_model::{Answer, Args, Deed, Doer, Done, Moment, Op, Watch};
use py_tree::Script;
use py_value::{Value, contents_stay};
use script_names::activation_of;
use std::alloc::Global;

/// What an operation came to: its answer, with the method that its walk found; or why it did not happen.
#[derive(Clone, Copy)]
pub enum Came {
    /// It happened, and answers this; a method walk of it found this method.
    Did(Answer, Option<Pos>),
    /// It costs more than is left.
    TooDear,
    /// It asks for what is not there.
    Unanswered,
}

/// An operation with what it names. Names and texts get their numbers from the doer.
#[inline(always)]
pub fn make_op<D: Doer>(
    alloc: Global,
    script: &Script,
    scope: Scope,
    doer: &mut D,
    no: u8,
    want: Want<'_>,
) -> Result<Op, Memory>
    requires { IsWanted no want }
    ensures knew { Knew (D.fits doer.old) (D.fits doer.new) }
    ensures makes { MakesOp (script_of script.now) scope no want.entry (D.fits doer.new) (D.stands doer.old) (D.stands doer.new) result }
{
    let plain = Op {
        no,
        scope: 0,
        name: 0,
        value: Value::None,
    };
    match want {
        Want::Plain => Ok(plain),
        Want::Name(name) => {
            let name = doer.word(alloc, name.as_str())?;
            Ok(Op { name, ..plain })
        }
        Want::Variable(name) => {
            let scope = activation_of(script, scope.function, scope.activation, name.as_str());
            let name = doer.word(alloc, name.as_str())?;
            Ok(Op {
                scope,
                name,
                ..plain
            })
        }
        Want::Value(value) => Ok(Op { value, ..plain }),
        Want::Text(text) => {
            let value = Value::Text(doer.word(alloc, text.as_str())?);
            Ok(Op { value, ..plain })
        }
    }
}

/// What is left when an operation that happened is paid for: 1 step, 1 for each access, and its weight.
fn pay<D: Doer>(doer: &D, deed: &Deed, left: u32) -> u32
    requires { (table : ValuesView) (capture : Capture) → D.fits doer.now table capture → 1 + length deed.now.accesses + deed.now.weight ≤ left }
    ensures { result ≡ left - (1 + length deed.now.accesses + deed.now.weight) }
{
    let _ = doer.values();
    left - 1 - deed.accesses.as_slice().len() as u32 - deed.weight
}

/// The number of some text: of the first one, and else of the empty text, which gets it.
pub fn some_word<D: Doer>(alloc: Global, doer: &mut D) -> Result<u32, Memory>
    ensures knew { Knew (D.fits doer.old) (D.fits doer.new) }
    ensures named { IsSomeWord (D.fits doer.new) (D.stands doer.old) (D.stands doer.new) result }
{
    if doer.values().has(Value::Text(0)) {
        return Ok(0);
    }
    doer.word(alloc, "")
}

/// The watch is told a moment. Some text has a number, so the doer's texts and tuples are known to have one each.
pub fn tell<D: Doer, W: Watch>(
    alloc: Global,
    doer: &D,
    watch: &mut W,
    number: u32,
    moment: &Moment,
) -> Result<(), Memory>
    requires number { (table : ValuesView) (capture : Capture) → D.fits doer.now table capture → number < length table.texts }
    requires tellable { (table : ValuesView) (capture : Capture) → D.fits doer.now table capture → IsTellable table moment.now }
    ensures { (table : ValuesView) (capture : Capture) → D.fits doer.now table capture
        → TellsOn (W.history watch.old) (W.history watch.new) (IsToldNow result (moment_seen table moment.now)) }
{
    contents_stay();
    let values = doer.values();
    let _ = values.text_of(number);
    watch.told(alloc, moment, values)
}

/// An operation is performed and paid for, and the watch is told.
#[inline(always)]
pub fn perform<D: Doer, W: Watch>(
    alloc: Global,
    doer: &mut D,
    watch: &mut W,
    left: &mut u32,
    at: Pos,
    op: Op,
    values: Vec<Value>,
) -> Result<Came, Memory>
    requires state { HasState (D.fits doer.old) (D.stands doer.old) }
    requires operation { is_operation op.no ≡ true }
    requires named { AreNamedBy (D.fits doer.old) values.items }
    ensures knew { Knew (D.fits doer.old) (D.fits doer.new) }
    ensures performed { HasPerformed at op values.items left.old left.new (D.fits doer.new) (D.stands doer.old) (D.stands doer.new) (W.history watch.old) (W.history watch.new) result }
{
    let number = some_word(alloc, doer)?;
    let deed = match doer.perform(alloc, at, op, values.as_slice(), *left)? {
        Done::Did(deed) => deed,
        Done::TooDear => return Ok(Came::TooDear),
        Done::Unanswered => return Ok(Came::Unanswered),
    };
    let answer = deed.answer;
    let method = deed.method;
    *left = pay(doer, &deed, *left);
    let moment = Moment::Do(
        at,
        op.no,
        Args::of(values),
        answer,
        deed.made,
        deed.accesses,
        deed.weight,
    );
    match tell(alloc, doer, watch, number, &moment) {
        Ok(()) => Ok(Came::Did(answer, method)),
        Err(refused) => Err(refused),
    }
}
