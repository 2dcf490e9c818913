// The value of an evaluation in a run with kept answers.
ghost use Rattle.std.specs.Prelude.{◌≡◌, Err, IfOk};
ghost use Rattle.std.specs.String.{string_bytes};
ghost use Rattle.answer_source.specs.Kept.{IsExactly};
ghost use Rattle.py_model.specs.Capture.{Capture as CaptureOfRun};
ghost use Rattle.py_tree.specs.Erasure.{script_of};
ghost use Rattle.py_tree.specs.Numbering.{IsNumbered};
ghost use Rattle.replays.specs.Replay.{IsReplayText, LacksEvaluation};
ghost use Rattle.replays.specs.declared.replaying.ReplayFault.TheVariants.{NotReached};

use crate::running::rows_upto;
use capture::Capture;
use held_rows::{ValueFault, value_text, words_of};
use prov_base::{Name, Pos};
use py_tree::Script;
use std::alloc::Global;

/// Why a replay has no text.
#[derive(Clone, Copy, Debug)]
pub enum ReplayFault {
    /// The run lacks the evaluation: it ends before, or its steps do not suffice, or an answer is lacking.
    NotReached,
    /// Out of memory.
    Memory,
}

/// Runs a script with the answers of a capture and so many steps, and stops behind the k-th evaluation at a place, counted from 1. It answers the graph
/// text of the value in the store just after it, and the steps up to it, at most 4294967295. Nothing is asked of a device.
pub fn replay_text(
    alloc: Global,
    script: &Script,
    path: &str,
    arguments: &[Name],
    capture: &Capture,
    budget: u32,
    at: Pos,
    k: u32,
) -> Result<(String, u32), ReplayFault>
    requires { IsNumbered (script_of script.now) }
    ensures text { IfOk result (λ told. (held : CaptureOfRun) → IsExactly capture.now held
        → IsReplayText (script_of script.now) path.now arguments.now held budget at k (string_bytes told.0) told.1) }
    ensures absent { result ≡ Err NotReached → (held : CaptureOfRun) → IsExactly capture.now held
        → LacksEvaluation (script_of script.now) path.now arguments.now held budget at k }
{
    let words = match words_of(alloc, arguments) {
        Ok(words) => words,
        Err(_) => return Err(ReplayFault::Memory),
    };
    let told = match rows_upto(alloc, script, path, arguments, capture, budget, at, k) {
        Ok(told) => told,
        Err(_) => return Err(ReplayFault::Memory),
    };
    let rows = told.rows.as_slice();
    match value_text(alloc, script, rows, path, words.as_slice(), at, k) {
        Ok(text) => Ok(text),
        Err(ValueFault::NoEvaluation) if told.is_whole => Err(ReplayFault::NotReached),
        Err(_) => Err(ReplayFault::Memory),
    }
}
