// The begin and the end of a statement are told.
ghost use Rattle.std.specs.Prelude.{◌≡◌};
ghost use Rattle.py_value.specs.Values.{ValuesView};
ghost use Rattle.py_model.specs.Act.{ending};
ghost use Rattle.py_model.specs.Doing.{Knew};
ghost use Rattle.py_model.specs.Told.{how_seen};
ghost use Rattle.interp_eval.specs.Performing.{HasState};
ghost use Rattle.flow_frames.specs.Seen.{end_seen};
ghost use Rattle.flow_frames.specs.Telling.{HasBegun, HasClosed};

use crate::control::End;
use interp_eval::{some_word, tell};
use prov_base::Memory;
use py_model::{Doer, How, Moment, Watch};
use std::alloc::Global;

/// A statement begins, by its number: a step is paid for, and the watch is told. Not where no step is left.
pub fn begin<D: Doer, W: Watch>(
    alloc: Global,
    doer: &mut D,
    watch: &mut W,
    left: &mut u32,
    number: u32,
) -> Result<bool, Memory>
    requires state { HasState (D.fits doer.old) (D.stands doer.old) }
    ensures knew { Knew (D.fits doer.old) (D.fits doer.new) }
    ensures begun { HasBegun number left.old left.new (D.fits doer.new) (D.stands doer.old) (D.stands doer.new) (W.history watch.old) (W.history watch.new) result }
{
    let word = some_word(alloc, doer)?;
    if *left == 0 {
        return Ok(false);
    }
    *left -= 1;
    let moment = Moment::Begin(number);
    match tell(alloc, doer, watch, word, &moment) {
        Ok(()) => Ok(true),
        Err(refused) => Err(refused),
    }
}

/// How a statement ended, as it is told.
fn how_of(end: End) -> How
    ensures { (table : ValuesView) → how_seen result ≡ ending (end_seen table end) }
{
    match end {
        End::Normal => How::Normal,
        End::Broke => How::Break,
        End::Continued => How::Continue,
        End::Returned(_) => How::Return,
        End::Threw(_, _) => How::Raise,
    }
}

/// The watch is told that a statement ended, by its number, and how.
pub fn close<D: Doer, W: Watch>(
    alloc: Global,
    doer: &mut D,
    watch: &mut W,
    number: u32,
    end: End,
) -> Result<(), Memory>
    requires state { HasState (D.fits doer.old) (D.stands doer.old) }
    ensures knew { Knew (D.fits doer.old) (D.fits doer.new) }
    ensures closed { (table : ValuesView) → HasClosed number (ending (end_seen table end)) (D.fits doer.new) (D.stands doer.old) (D.stands doer.new) (W.history watch.old) (W.history watch.new) result }
{
    let word = some_word(alloc, doer)?;
    let moment = Moment::End(number, how_of(end));
    match tell(alloc, doer, watch, word, &moment) {
        Ok(()) => Ok(()),
        Err(refused) => Err(refused),
    }
}
