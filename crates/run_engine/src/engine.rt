// The loop of a run.
ghost use Rattle.std.specs.Prelude.{◌≡◌, false, IsTrue};
ghost use Rattle.flow_values.specs.declared.next.FlowNext.TheVariants.{More};
ghost use Rattle.interp_eval.specs.Performing.{HasState};
ghost use Rattle.py_model.specs.Doing.{Knew};
ghost use Rattle.py_tree.specs.Erasure.{script_of};
ghost use Rattle.run_engine.specs.Run.{Runs};

use interp_flow::{FlowFrames, FlowNext, flow_step};
use prov_base::Memory;
use py_model::{Doer, Watch};
use py_tree::Script;
use std::alloc::Global;

/// Runs a script to its end, with so many steps left. It fails where memory runs out. That steps never rise is a law of runs, which no clause of
/// a step says: a doer that raised them would be refused.
pub fn run<'a, D: Doer, W: Watch>(
    alloc: Global,
    script: &'a Script,
    doer: &mut D,
    watch: &mut W,
    left: &mut u32,
) -> Result<FlowNext, Memory>
    requires { HasState (D.fits doer.old) (D.stands doer.old) }
    ensures knew { Knew (D.fits doer.old) (D.fits doer.new) }
    ensures runs { Runs (script_of script.entry.now) left.old left.new (D.fits doer.new) (D.stands doer.old) (D.stands doer.new) (W.history watch.old) (W.history watch.new) result }
{
    let steps = *left;
    let mut frames = match FlowFrames::start(alloc, script) {
        Ok(frames) => frames,
        Err(refused) => return Err(refused),
    };
    for _ in 0..u64::MAX {
        let next = match flow_step(alloc, &mut frames, script, doer, watch, left) {
            Ok(next) => next,
            Err(refused) => return Err(refused),
        };
        if !goes_on(next) {
            return Ok(next);
        }
        if *left > steps {
            return Err(Memory);
        }
    }
    Err(Memory)
}

// Whether the run goes on.
fn goes_on(next: FlowNext) -> bool
    ensures more { IsTrue result → next ≡ More }
    ensures other { result ≡ false → next ≡ More → ⊥ }
{
    match next {
        FlowNext::More => true,
        _ => false,
    }
}
