// A run with kept answers, up to an evaluation, as rows.
ghost use Rattle.std.specs.Prelude.{◌≡◌, IfOk};
ghost use Rattle.answer_source.specs.Kept.{IsExactly};
ghost use Rattle.py_model.specs.Capture.{Capture as CaptureOfRun};
ghost use Rattle.py_tree.specs.Erasure.{script_of};
ghost use Rattle.py_tree.specs.Numbering.{IsNumbered};
ghost use Rattle.row_checks.specs.KeptRows.{AreKeptRows};
ghost use Rattle.slice_law.specs.Slices.{told_by};
ghost use Rattle.replays.specs.Fronts.{IsFrontOf};

use crate::seeker::Seeker;
use answer_source::Kept;
use capture::Capture;
use kept_runs::rows_of_runs_are_kept;
use op_parts::Parts;
use op_state::drop_held;
use prov_base::{Memory, Name, Pos};
use py_model::{Doer, moments_nest};
use py_tree::Script;
use py_value::Value;
use row_moments::interned_rows_tell_their_moments;
use run_engine::run;
use std::alloc::Global;
use trace_rows::Rows;

/// The rows of a run, and whether it came to its end.
#[derive(Drop)]
pub(crate) struct Told {
    pub(crate) rows: Rows,
    pub(crate) is_whole: bool,
}

/// Runs a script with the answers of a capture, until behind the k-th evaluation at a place. It answers the rows of the moments up to there.
pub(crate) fn rows_upto(
    alloc: Global,
    script: &Script,
    path: &str,
    arguments: &[Name],
    capture: &Capture,
    budget: u32,
    at: Pos,
    k: u32,
) -> Result<Told, Memory>
    requires { IsNumbered (script_of script.now) }
    ensures front { IfOk result (λ told. (held : CaptureOfRun) → IsExactly capture.now held
        → IsFrontOf (told_by (script_of script.now) held path.now arguments.now budget) told.rows told.is_whole) }
    ensures kept { IfOk result (λ told. AreKeptRows script.now.count told.rows) }
{
    rows_of_runs_are_kept();
    moments_nest();
    interned_rows_tell_their_moments();
    let mut seeker = match Seeker::new(alloc, at, k) {
        Ok(seeker) => seeker,
        Err(_) => return Err(Memory),
    };
    let mut parts = match Parts::new(alloc, path, arguments, Kept::new(alloc, capture)) {
        Ok(parts) => parts,
        Err(_) => return Err(Memory),
    };
    let mut left = budget;
    let end = run(alloc, script, &mut parts, &mut seeker, &mut left);
    let _ = parts.values().has(Value::None);
    let (held, _) = parts.finish();
    drop_held(held);
    match seeker.recorder.rows() {
        Ok(rows) => Ok(Told {
            rows,
            is_whole: end.is_ok(),
        }),
        Err(_) => Err(Memory),
    }
}
