// Whether each trial is the current one of its path.
ghost use Rattle.std.specs.Prelude.{◌≡◌, IfErr, IfOk, IfSome, length};
ghost use Rattle.prov_outside.specs.Tells.{Tells};
ghost use Rattle.keeper.specs.Keeping.{AreKept, LeavesAmong};
ghost use Rattle.trial_tables.specs.Causes.{Causes};
ghost use Rattle.trial_keeping.specs.Fault.{has_failed};
ghost use Rattle.trial_keeping.specs.Heads.{IsOfList};
ghost use Rattle.trial_history.specs.History.{is_trial};
ghost use Rattle.trial_history.specs.Stages.{FindsMark, FindsMarks};

use keeper::{Head, Keeper};
use std::alloc::Global;
use trial_keeping::TrialFault;

/// Whether the trial that is current is the one with this number.
fn is_current(current: Option<u32>, number: u64) -> bool
    ensures { result ≡ is_trial current number }
{
    match current {
        Some(current) => u64::from(current) == number,
        None => false,
    }
}

/// Whether the trial with this number is the current one of the path.
fn mark_in<K: Keeper>(
    alloc: Global,
    keeper: &mut K,
    number: u64,
    path: &str,
) -> Result<bool, TrialFault>
    ensures finds { Tells (K.told keeper.old) (K.told keeper.new) (FindsMark number path.now result) }
    ensures of_list { IfErr result IsOfList }
    ensures kept { IfSome (K.told keeper.new) (AreKept (K.is_open keeper.new)) }
    ensures stops { Tells (K.told keeper.old) (K.told keeper.new) (λ _ _. LeavesAmong (K.may_leave keeper.old) (K.may_leave keeper.new)) }
    ensures batch { K.is_open keeper.new ≡ K.is_open keeper.old }
    ensures cause { Causes (has_failed result) (K.faults keeper.old) (K.faults keeper.new) }
{
    match keeper.current(alloc, path) {
        Ok(current) => Ok(is_current(current, number)),
        Err(fault) => Err(TrialFault::from(fault)),
    }
}

/// Whether each of these trials is the current one of its path. The first head is that of trial 1.
pub(crate) fn marks_of<K: Keeper>(
    alloc: Global,
    keeper: &mut K,
    heads: &[Head],
) -> Result<Vec<bool>, TrialFault>
    requires kept { IfSome (K.told keeper.old) (AreKept (K.is_open keeper.old)) }
    ensures finds { Tells (K.told keeper.old) (K.told keeper.new) (FindsMarks heads.now result) }
    ensures each { IfOk result (λ marks. length marks.items ≡ length heads.now) }
    ensures of_list { IfErr result IsOfList }
    ensures kept { IfSome (K.told keeper.new) (AreKept (K.is_open keeper.new)) }
    ensures stops { Tells (K.told keeper.old) (K.told keeper.new) (λ _ _. LeavesAmong (K.may_leave keeper.old) (K.may_leave keeper.new)) }
    ensures batch { K.is_open keeper.new ≡ K.is_open keeper.old }
    ensures cause { Causes (has_failed result) (K.faults keeper.old) (K.faults keeper.new) }
{
    let mut marks: Vec<bool> = Vec::new(alloc);
    for earlier in 0..heads.len() {
        let number = earlier as u64 + 1;
        let marked = match mark_in(alloc, keeper, number, heads[earlier].path.as_str()) {
            Ok(marked) => marked,
            Err(fault) => return Err(fault),
        };
        if marks.push(marked).is_err() {
            return Err(TrialFault::Memory);
        }
    }
    Ok(marks)
}
