// A watch that stops a run behind an evaluation.
ghost use Rattle.std.specs.Prelude.{◌≡◌, [], IfOk, Some};
ghost use Rattle.recorder.specs.Recorded.{moments_of};

use prov_base::{Memory, Pos};
use py_model::{Answer, Moment, Watch};
use py_value::Values;
use recorder::Recorder;
use std::alloc::Global;

/// A recorder that takes nothing behind the k-th evaluation at a place.
#[derive(Drop)]
pub(crate) struct Seeker {
    at: Pos,
    // How many evaluations are still to come, with the one that is sought.
    left: u32,
    has_found: bool,
    pub(crate) recorder: Recorder,
}

impl Seeker {
    /// It was told nothing. The evaluations are counted from 1.
    pub(crate) fn new(alloc: Global, at: Pos, k: u32) -> Result<Seeker, Memory>
        ensures { IfOk result (λ seeker. moments_of seeker.recorder ≡ []) }
    {
        Ok(Seeker {
            at,
            left: k,
            has_found: false,
            recorder: Recorder::new(alloc)?,
        })
    }
}

// Whether a moment is an evaluation at a place.
fn is_evaluation(moment: &Moment, at: Pos) -> bool {
    match moment {
        Moment::Do(place, op, _, Answer::Value(_), _, _, _) => *place == at && evaluates(*op),
        Moment::Do(_, _, _, Answer::Raised(_) | Answer::End, _, _, _)
        | Moment::Begin(_)
        | Moment::Enter(..)
        | Moment::Leave(_)
        | Moment::End(..) => false,
    }
}

// Whether an operation with this number is an evaluation.
fn evaluates(op: u8) -> bool {
    (op < 28 && op != 3) || (op == 30 || ((50 <= op && op < 72) || (80 <= op && op < 112)))
}

impl Watch for Seeker {
    ghost history = { λ s. Some (moments_of s.recorder) };

    fn told(&mut self, alloc: Global, moment: &Moment, values: &Values) -> Result<(), Memory> {
        if self.has_found {
            return Err(Memory);
        }
        self.recorder.told(alloc, moment, values)?;
        if is_evaluation(moment, self.at) {
            self.has_found = self.left == 1;
            self.left = self.left.saturating_sub(1);
        }
        Ok(())
    }
}
