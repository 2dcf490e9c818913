// An activation is entered, and left.
ghost use Rattle.std.specs.Prelude.{◌≡◌, length};
ghost use Rattle.py_value.specs.Values.{ValuesView, IsNamed};
ghost use Rattle.py_model.specs.Capture.{Capture};
ghost use Rattle.py_model.specs.Doing.{AreGivenValues, Knew};
ghost use Rattle.interp_eval.specs.Performing.{HasState};
ghost use Rattle.flow_calls.specs.Calling.{HasEntered, HasLeft};

use interp_eval::{some_word, tell};
use prov_base::{Memory, Name, Pos};
use py_model::{Args, Doer, Entered, Moment, Watch};
use py_value::Value;
use std::alloc::Global;

/// The next activation is entered by a call at a place, of the function at a place, with a value for each of its parameters: 1 step and 1 for each
/// parameter are paid, and the watch is told. Its number is answered; `None` where that costs more than is left.
pub fn enter<D: Doer, W: Watch>(
    alloc: Global,
    doer: &mut D,
    watch: &mut W,
    left: &mut u32,
    at: Pos,
    def: Pos,
    names: &[Name],
    values: Args,
) -> Result<Option<u32>, Memory>
    requires state { HasState (D.fits doer.old) (D.stands doer.old) }
    requires counted { length values ≡ length names.now }
    requires given { AreGivenValues (D.fits doer.old) values }
    ensures knew { Knew (D.fits doer.old) (D.fits doer.new) }
    ensures entered { HasEntered at def names.now values left.old left.new (D.fits doer.new) (D.stands doer.old) (D.stands doer.new) (W.history watch.old) (W.history watch.new) result }
{
    let word = some_word(alloc, doer)?;
    let count = values.as_slice().len();
    let entered = match doer.enter(alloc, def, names, values.as_slice(), *left) {
        Ok(entered) => entered,
        Err(refused) => return Err(refused),
    };
    let (activation, accesses) = match entered {
        Entered::In(activation, accesses) => (activation, accesses),
        Entered::TooDear => return Ok(None),
    };
    *left = *left - 1 - count as u32;
    let moment = Moment::Enter(at, def, values, accesses);
    match tell(alloc, doer, watch, word, &moment) {
        Ok(()) => Ok(Some(activation)),
        Err(refused) => Err(refused),
    }
}

/// The watch is told that an activation is left, with its value. That costs nothing.
pub fn leave<D: Doer, W: Watch>(
    alloc: Global,
    doer: &mut D,
    watch: &mut W,
    value: Value,
) -> Result<(), Memory>
    requires state { HasState (D.fits doer.old) (D.stands doer.old) }
    requires named { (table : ValuesView) (capture : Capture) → D.fits doer.old table capture → IsNamed table value }
    ensures knew { Knew (D.fits doer.old) (D.fits doer.new) }
    ensures left { HasLeft value (D.fits doer.new) (D.stands doer.old) (D.stands doer.new) (W.history watch.old) (W.history watch.new) result }
{
    let word = some_word(alloc, doer)?;
    let moment = Moment::Leave(value);
    match tell(alloc, doer, watch, word, &moment) {
        Ok(()) => Ok(()),
        Err(refused) => Err(refused),
    }
}
