// The slice of a loaded trial.
ghost use Rattle.std.specs.Prelude.{◌≡◌, None, Err, IfOk};
ghost use Rattle.py_model.specs.Occurrences.{up_to_evaluation};
ghost use Rattle.py_tree.specs.Erasure.{script_of};
ghost use Rattle.py_tree.specs.Numbering.{IsNumbered};
ghost use Rattle.py_tree.specs.StmtSet.{has};
ghost use Rattle.row_checks.specs.KeptRows.{AreKeptRows};
ghost use Rattle.row_moments.specs.Moments.{moments_in};
ghost use Rattle.trial_slice.specs.Sliced.{IsSliceOf};

use prov_base::{Bytes, Pos};
use py_tree::StmtSet;
use slice_text::cut;
use slicer::{SliceFault, least_set};
use std::alloc::Global;
use trial_loading::Trial;

/// A slice of a script.
#[derive(Drop)]
pub struct Slice {
    /// The statements that are kept: the least closed set.
    pub kept: StmtSet,
    /// The script's text, cut to them. It may be longer than a script may be, by a `pass` in place of a shorter statement.
    pub text: Bytes,
}

/// The slice of the evaluation that is the k-th at a place, counted from 1 in the order of the run. `NoEvaluation` comes exactly where the trial's rows have none.
pub fn extract(alloc: Global, trial: &Trial, at: Pos, k: u32) -> Result<Slice, SliceFault>
    requires numbered { IsNumbered (script_of trial.now.script) }
    requires kept { AreKeptRows trial.now.script.count trial.now.rows }
    ensures slice { IfOk result (λ slice. IsSliceOf trial.now at k (has slice.kept) slice.text) }
    ensures absent { result ≡ Err SliceFault.NoEvaluation → up_to_evaluation at k (moments_in trial.now.rows) ≡ None }
{
    let words = trial.arguments.as_slice().len() as u64 + 1;
    let kept = match least_set(alloc, &trial.script, trial.rows.as_slice(), words, at, k) {
        Ok(kept) => kept,
        Err(fault) => return Err(fault),
    };
    match cut(alloc, trial.text.as_slice(), &trial.script, &kept) {
        Ok(text) => Ok(Slice { kept, text }),
        Err(_) => Err(SliceFault::Memory),
    }
}
