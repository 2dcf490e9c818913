// The texts of `sources` and `effects`.
ghost use Rattle.std.specs.Prelude.{◌≡◌, IfErr, IfSome};
ghost use Rattle.prov_outside.specs.Tells.{Tells};
ghost use Rattle.keeper.specs.Keeping.{AreKept, LeavesAmong};
ghost use Rattle.trial_slice.specs.Fault.{has_failed, IsOfQuestion};
ghost use Rattle.trial_slice.specs.Questions.{AnswersSome, AnswersTrial};
ghost use Rattle.trial_tables.specs.Causes.{Causes};
ghost use Rattle.dep_query.specs.SiteTexts.{IsFedText, LacksSite};

use crate::fed::feeding;
use feedings::Way;
use keeper::Keeper;
use prov_base::{Bytes, Pos};
use std::alloc::Global;
use trial_keeping::TrialFault;
use trial_loading::{drop_trial, load_trial};
use trial_slice::EvaluationFault;

/// The text of the command `sources` or `effects`: the evaluations that feed the k-th evaluation at a place, counted from 1, in the trial with this number, or those that it
/// feeds. `NoEvaluation` comes exactly where the trial has none. The fault of the trial is that of its loading: `NoTrial` exactly where there is none, `Damaged` exactly where
/// it is not well kept, with what is amiss first.
pub fn feeding_text<K: Keeper>(
    alloc: Global,
    keeper: &mut K,
    way: Way,
    number: u32,
    at: Pos,
    k: u32,
) -> Result<Bytes, EvaluationFault>
    ensures answers { Tells (K.told keeper.old) (K.told keeper.new) (AnswersTrial (IsFedText way at k) (LacksSite at k) number result) }
    // also over a keeper that tells nothing
    ensures of_trial { AnswersSome (IsFedText way at k) (LacksSite at k) number result }
    ensures of_question { IfErr result (IsOfQuestion number) }
    ensures kept { IfSome (K.told keeper.new) (AreKept (K.is_open keeper.new)) }
    ensures stops { Tells (K.told keeper.old) (K.told keeper.new) (λ _ _. LeavesAmong (K.may_leave keeper.old) (K.may_leave keeper.new)) }
    ensures batch { K.is_open keeper.new ≡ K.is_open keeper.old }
    ensures cause { Causes (has_failed result) (K.faults keeper.old) (K.faults keeper.new) }
{
    let trial = match load_trial(alloc, keeper, number) {
        Ok(trial) => trial,
        Err(fault) => return Err(EvaluationFault::Trial(fault)),
    };
    let text = feeding(alloc, &trial, way, at, k);
    drop_trial(trial);
    match text {
        Ok(Some(text)) => Ok(text),
        Ok(None) => Err(EvaluationFault::NoEvaluation),
        Err(_) => Err(EvaluationFault::Trial(TrialFault::Memory)),
    }
}
