// The text of `replay`.
ghost use Rattle.std.specs.Prelude.{◌≡◌, IfErr, IfSome};
ghost use Rattle.prov_outside.specs.Tells.{Tells};
ghost use Rattle.keeper.specs.Keeping.{AreKept, LeavesAmong};
ghost use Rattle.trial_slice.specs.Fault.{has_failed, IsOfQuestion};
ghost use Rattle.trial_slice.specs.Questions.{AnswersSome, AnswersTrial};
ghost use Rattle.trial_tables.specs.Causes.{Causes};
ghost use Rattle.trial_value.specs.Values.{LacksEvaluation};
ghost use Rattle.trial_replay.specs.Replays.{IsReplayAt};

use crate::replaying::{Replayed, replay_slice};
use keeper::Keeper;
use prov_base::Pos;
use slicer::SliceFault;
use std::alloc::Global;
use trial_keeping::TrialFault;
use trial_loading::{drop_trial, load_trial};
use trial_slice::EvaluationFault;

/// The answer of the command `replay`: what the run of the slice of the k-th evaluation at a place, counted from 1, tells of it, in the trial with this number. `NoEvaluation` comes
/// exactly where the trial has none. The fault of the trial is that of its loading: `NoTrial` exactly where there is none, `Damaged` exactly where it is not well kept, with what is
/// amiss first.
pub fn replayed_text<K: Keeper>(
    alloc: Global,
    keeper: &mut K,
    number: u32,
    at: Pos,
    k: u32,
) -> Result<Replayed, EvaluationFault>
    ensures answers { Tells (K.told keeper.old) (K.told keeper.new) (AnswersTrial (IsReplayAt at k) (LacksEvaluation at k) number result) }
    // also over a keeper that tells nothing
    ensures of_trial { AnswersSome (IsReplayAt at k) (LacksEvaluation at k) number result }
    ensures of_question { IfErr result (IsOfQuestion number) }
    ensures kept { IfSome (K.told keeper.new) (AreKept (K.is_open keeper.new)) }
    ensures stops { Tells (K.told keeper.old) (K.told keeper.new) (λ _ _. LeavesAmong (K.may_leave keeper.old) (K.may_leave keeper.new)) }
    ensures batch { K.is_open keeper.new ≡ K.is_open keeper.old }
    ensures cause { Causes (has_failed result) (K.faults keeper.old) (K.faults keeper.new) }
{
    let trial = match load_trial(alloc, keeper, number) {
        Ok(trial) => trial,
        Err(fault) => return Err(EvaluationFault::Trial(fault)),
    };
    let told = replay_slice(alloc, &trial, at, k);
    drop_trial(trial);
    match told {
        Ok(told) => Ok(told),
        Err(SliceFault::NoEvaluation) => Err(EvaluationFault::NoEvaluation),
        Err(SliceFault::Memory) => Err(EvaluationFault::Trial(TrialFault::Memory)),
    }
}
