// Heads of kept trials: one, and all.
ghost use Rattle.std.specs.Prelude.{◌≡◌, IfErr, IfSome};
ghost use Rattle.prov_outside.specs.Tells.{Tells};
ghost use Rattle.keeper.specs.Keeping.{AreKept, LeavesAmong};
ghost use Rattle.trial_tables.specs.Causes.{Causes};
ghost use Rattle.trial_keeping.specs.Fault.{has_failed};
ghost use Rattle.trial_keeping.specs.Heads.{FindsCounted, FindsFirst, FindsHead, FindsHeads, IsOfHead, IsOfList};

use crate::fault::TrialFault;
use keeper::{Head, Keeper};
use std::alloc::Global;

/// The head of the trial with this number, which counts from 1: `NoTrial` where there is none, `Keeper` where the keeper failed, `Memory` where memory ran out.
pub fn head<K: Keeper>(alloc: Global, keeper: &mut K, number: u32) -> Result<Head, TrialFault>
    ensures finds { Tells (K.told keeper.old) (K.told keeper.new) (FindsHead number result) }
    ensures of_head { IfErr result (IsOfHead number) }
    ensures kept { IfSome (K.told keeper.new) (AreKept (K.is_open keeper.new)) }
    ensures stops { Tells (K.told keeper.old) (K.told keeper.new) (λ _ _. LeavesAmong (K.may_leave keeper.old) (K.may_leave keeper.new)) }
    ensures batch { K.is_open keeper.new ≡ K.is_open keeper.old }
    ensures cause { Causes (has_failed result) (K.faults keeper.old) (K.faults keeper.new) }
{
    match keeper.head(alloc, number) {
        Ok(Some(head)) => Ok(head),
        Ok(None) => Err(TrialFault::NoTrial(number)),
        Err(fault) => Err(TrialFault::from(fault)),
    }
}

/// The head of a trial that was counted. A keeper that tells its tables has each of the heads that it counts.
fn counted_head<K: Keeper>(alloc: Global, keeper: &mut K, number: u32) -> Result<Head, TrialFault>
    ensures finds { Tells (K.told keeper.old) (K.told keeper.new) (FindsCounted number result) }
    ensures of_list { IfErr result IsOfList }
    ensures kept { IfSome (K.told keeper.new) (AreKept (K.is_open keeper.new)) }
    ensures stops { Tells (K.told keeper.old) (K.told keeper.new) (λ _ _. LeavesAmong (K.may_leave keeper.old) (K.may_leave keeper.new)) }
    ensures batch { K.is_open keeper.new ≡ K.is_open keeper.old }
    ensures cause { Causes (has_failed result) (K.faults keeper.old) (K.faults keeper.new) }
{
    match keeper.head(alloc, number) {
        Ok(Some(head)) => Ok(head),
        Ok(None) => Err(TrialFault::Memory),
        Err(fault) => Err(TrialFault::from(fault)),
    }
}

/// The heads of the first so many trials, in the order of their numbers.
fn first_heads<K: Keeper>(
    alloc: Global,
    keeper: &mut K,
    count: u32,
) -> Result<Vec<Head>, TrialFault>
    requires kept { IfSome (K.told keeper.old) (AreKept (K.is_open keeper.old)) }
    ensures finds { Tells (K.told keeper.old) (K.told keeper.new) (FindsFirst count result) }
    ensures of_list { IfErr result IsOfList }
    ensures kept { IfSome (K.told keeper.new) (AreKept (K.is_open keeper.new)) }
    ensures stops { Tells (K.told keeper.old) (K.told keeper.new) (λ _ _. LeavesAmong (K.may_leave keeper.old) (K.may_leave keeper.new)) }
    ensures batch { K.is_open keeper.new ≡ K.is_open keeper.old }
    ensures cause { Causes (has_failed result) (K.faults keeper.old) (K.faults keeper.new) }
{
    let mut heads: Vec<Head> = Vec::new(alloc);
    for earlier in 0..count {
        let next = match counted_head(alloc, keeper, earlier + 1) {
            Ok(next) => next,
            Err(fault) => return Err(fault),
        };
        if heads.push(next).is_err() {
            return Err(TrialFault::Memory);
        }
    }
    Ok(heads)
}

/// The heads of all trials, in the order of their numbers: `Keeper` where the keeper failed, `Memory` where memory ran out.
pub fn list<K: Keeper>(alloc: Global, keeper: &mut K) -> Result<Vec<Head>, TrialFault>
    ensures finds { Tells (K.told keeper.old) (K.told keeper.new) (FindsHeads result) }
    ensures of_list { IfErr result IsOfList }
    ensures kept { IfSome (K.told keeper.new) (AreKept (K.is_open keeper.new)) }
    ensures stops { Tells (K.told keeper.old) (K.told keeper.new) (λ _ _. LeavesAmong (K.may_leave keeper.old) (K.may_leave keeper.new)) }
    ensures batch { K.is_open keeper.new ≡ K.is_open keeper.old }
    ensures cause { Causes (has_failed result) (K.faults keeper.old) (K.faults keeper.new) }
{
    match keeper.trials(alloc) {
        Ok(count) => first_heads(alloc, keeper, count),
        Err(fault) => Err(TrialFault::from(fault)),
    }
}
