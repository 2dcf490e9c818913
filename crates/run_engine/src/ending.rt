// A run that is over.
ghost use Rattle.std.specs.Prelude.{◌≡◌, IfOk, OnOk};
ghost use Rattle.op_state.specs.Held.{GoesOn};
ghost use Rattle.op_work.specs.Work.{Extends};
ghost use Rattle.run_engine.specs.Over.{CanEnd, IsOverOf, IsToldBy};

use capture::{Capture, Ended, RunEnd};
use interp_flow::FlowNext;
use op_state::Held;
use prov_base::{Bytes, Memory};
use py_value::Value;
use std::alloc::Global;

/// What a run came to that is over, with what is held at its end. A run that did not come to an end is out of memory.
pub(crate) fn over(
    alloc: Global,
    held: &mut Held,
    capture: Capture,
    end: Result<FlowNext, Memory>,
    steps: u32,
) -> Result<Ended, Memory>
    ensures capture { IfOk result (λ over. over.capture ≡ capture) }
    ensures over { IfOk result (λ over. IsOverOf held.old end steps over) }
{
    let end = match end {
        Ok(end) => end_told(alloc, held, end)?,
        Err(refused) => return Err(refused),
    };
    let _ = held.values().has(Value::None);
    let finals = held.finals(alloc)?;
    let output = Vec::from_slice(alloc, held.output())?;
    Ok(Ended {
        end,
        steps,
        output: Bytes::of(output),
        finals,
        capture,
    })
}

// How a run ended, with what is said of an exception.
fn end_told(alloc: Global, held: &mut Held, end: FlowNext) -> Result<RunEnd, Memory>
    ensures told { IfOk result (IsToldBy held.new end) }
    ensures end { OnOk result (CanEnd end) }
    ensures goes_on { GoesOn held.old held.new }
    ensures extends { Extends held.old.work.values held.new.work.values }
{
    match end {
        FlowNext::Finished => Ok(RunEnd::Finished),
        FlowNext::Raised(o, line) => {
            let (class, text) = held.uncaught(alloc, o)?;
            Ok(RunEnd::Raised { class, line, text })
        }
        FlowNext::Spent => Ok(RunEnd::Spent),
        _ => Err(Memory),
    }
}
