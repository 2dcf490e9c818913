// The value of an evaluation of a loaded trial.
ghost use Rattle.std.specs.Prelude.{◌≡◌, None, Err, IfOk};
ghost use Rattle.held_rows.specs.declared.printing.ValueFault.TheVariants.{NoEvaluation};
ghost use Rattle.py_model.specs.Occurrences.{up_to_evaluation};
ghost use Rattle.row_checks.specs.KeptRows.{AreKeptRows};
ghost use Rattle.row_moments.specs.Moments.{moments_in};
ghost use Rattle.trial_value.specs.Values.{IsValueAt};

use crate::lines::value_lines;
use held_rows::{ValueFault, value_text, words_of};
use prov_base::{Bytes, Pos};
use std::alloc::Global;
use trial_loading::Trial;

/// The graph text of the value of the k-th evaluation at a place, counted from 1 in the order of the run, and the steps up to it, as two lines. `NoEvaluation` comes
/// exactly where the trial's rows have none.
pub fn recorded_value(alloc: Global, trial: &Trial, at: Pos, k: u32) -> Result<Bytes, ValueFault>
    requires { AreKeptRows trial.now.script.count trial.now.rows }
    ensures value { IfOk result (λ text. IsValueAt at k trial.now text) }
    ensures absent { result ≡ Err NoEvaluation → up_to_evaluation at k (moments_in trial.now.rows) ≡ None }
{
    let words = match words_of(alloc, trial.arguments.as_slice()) {
        Ok(words) => words,
        Err(_) => return Err(ValueFault::Memory),
    };
    let path = trial.head.path.as_str();
    let rows = trial.rows.as_slice();
    let (graph, steps) = match value_text(
        alloc,
        &trial.script,
        rows,
        path,
        words.as_slice(),
        at,
        k,
    ) {
        Ok(found) => found,
        Err(fault) => return Err(fault),
    };
    match value_lines(alloc, graph.as_str(), steps) {
        Ok(text) => Ok(text),
        Err(_) => Err(ValueFault::Memory),
    }
}
