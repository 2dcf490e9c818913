// The run of the slice of an evaluation of a loaded trial.
ghost use Rattle.std.specs.Prelude.{◌≡◌, None, Err, IfOk};
ghost use Rattle.py_model.specs.Occurrences.{up_to_evaluation};
ghost use Rattle.py_tree.specs.Erasure.{script_of};
ghost use Rattle.py_tree.specs.Numbering.{IsNumbered};
ghost use Rattle.row_checks.specs.KeptRows.{AreKeptRows};
ghost use Rattle.row_moments.specs.Moments.{moments_in};
ghost use Rattle.slicer.specs.declared.least.SliceFault.TheVariants.{NoEvaluation};
ghost use Rattle.trial_replay.specs.Replays.{IsReplayAt};

use prov_base::{Bytes, Pos};
use py_tree::{delete, drop_script};
use replays::{ReplayFault, replay_text};
use slicer::SliceFault;
use std::alloc::Global;
use trial_loading::Trial;
use trial_slice::extract;
use trial_value::value_lines;

/// What the run of a slice tells of its evaluation.
#[derive(Drop)]
pub enum Replayed {
    /// The two lines of the value there: its graph text, and the steps that the run of the slice had spent.
    Lines(Bytes),
    /// The run of the slice does not come to the evaluation.
    NotReached,
}

/// What the run of the slice of an evaluation tells of it: the k-th at a place, counted from 1 in the order of the run. The slice runs with the answers that the trial keeps
/// and with the steps that the trial took, and it is stopped behind the evaluation. `NoEvaluation` comes exactly where the trial's rows have none.
pub fn replay_slice(alloc: Global, trial: &Trial, at: Pos, k: u32) -> Result<Replayed, SliceFault>
    requires numbered { IsNumbered (script_of trial.now.script) }
    requires kept { AreKeptRows trial.now.script.count trial.now.rows }
    ensures replay { IfOk result (λ told. IsReplayAt at k trial.now told) }
    ensures absent { result ≡ Err NoEvaluation → up_to_evaluation at k (moments_in trial.now.rows) ≡ None }
{
    let slice = match extract(alloc, trial, at, k) {
        Ok(slice) => slice,
        Err(fault) => return Err(fault),
    };
    let script = match delete(alloc, &trial.script, &slice.kept) {
        Ok(script) => script,
        Err(_) => return Err(SliceFault::Memory),
    };
    let path = trial.head.path.as_str();
    let steps = trial.head.steps;
    let told = replay_text(
        alloc,
        &script,
        path,
        trial.arguments.as_slice(),
        &trial.capture,
        steps,
        at,
        k,
    );
    drop_script(script);
    match told {
        Ok((graph, cost)) => match value_lines(alloc, graph.as_str(), cost) {
            Ok(text) => Ok(Replayed::Lines(text)),
            Err(_) => Err(SliceFault::Memory),
        },
        Err(ReplayFault::NotReached) => Ok(Replayed::NotReached),
        Err(ReplayFault::Memory) => Err(SliceFault::Memory),
    }
}
