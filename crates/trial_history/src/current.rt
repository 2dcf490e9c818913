// The current trial of a path, set in one batch.
ghost use Rattle.std.specs.Prelude.{◌≡◌, ◌≤◌, false, IfErr, IfOk, IfSome, IsTrue};
ghost use Rattle.prov_outside.specs.Tells.{Tells};
ghost use Rattle.keeper.specs.Keeping.{AreKept, Drops, LeavesAmong};
ghost use Rattle.keeper.specs.Tables.{HasTrial, with_current};
ghost use Rattle.trial_tables.specs.Causes.{Causes};
ghost use Rattle.trial_keeping.specs.Fault.{has_failed};
ghost use Rattle.trial_keeping.specs.Heads.{IsOfList};
ghost use Rattle.trial_history.specs.Current.{Commits, SetLeaves, Sets};

use keeper::Keeper;
use std::alloc::Global;
use trial_keeping::TrialFault;

/// Makes a trial the current one of a path in the open batch, and commits it.
fn set_and_commit<K: Keeper>(
    alloc: Global,
    keeper: &mut K,
    path: &str,
    number: u32,
) -> Result<(), TrialFault>
    requires batch { IsTrue (K.is_open keeper.old) }
    requires trial { IfSome (K.told keeper.old) (λ kept. HasTrial kept.seen number) }
    ensures commits { Tells (K.told keeper.old) (K.told keeper.new) (Commits (with_current path.now number) result) }
    ensures stops { Tells (K.told keeper.old) (K.told keeper.new) (λ before _. SetLeaves (with_current path.now number) result (K.may_leave keeper.old) (K.may_leave keeper.new) before.seen) }
    ensures of_list { IfErr result IsOfList }
    ensures kept { IfSome (K.told keeper.new) (AreKept (K.is_open keeper.new)) }
    ensures batch { IfOk result (λ _. K.is_open keeper.new ≡ false) }
    ensures cause { Causes (has_failed result) (K.faults keeper.old) (K.faults keeper.new) }
{
    if let Err(fault) = keeper.set_current(alloc, path, number) {
        return Err(TrialFault::from(fault));
    }
    match keeper.commit(alloc) {
        Ok(()) => Ok(()),
        Err(fault) => Err(TrialFault::from(fault)),
    }
}

/// Drops the open batch.
fn drop_batch<K: Keeper>(alloc: Global, keeper: &mut K)
    ensures drops { Tells (K.told keeper.old) (K.told keeper.new) Drops }
    ensures kept { IfSome (K.told keeper.new) (AreKept (K.is_open keeper.new)) }
    ensures stops { Tells (K.told keeper.old) (K.told keeper.new) (λ _ _. LeavesAmong (K.may_leave keeper.old) (K.may_leave keeper.new)) }
    ensures batch { K.is_open keeper.new ≡ false }
    ensures never_falls { K.faults keeper.old ≤ K.faults keeper.new }
{
    match keeper.undo(alloc) {
        Ok(()) => (),
        Err(_) => (),
    }
}

/// Makes a trial that is there the current one of a path, in one batch. After an `Err` the tables are as before.
pub(crate) fn make_current<K: Keeper>(
    alloc: Global,
    keeper: &mut K,
    path: &str,
    number: u32,
) -> Result<(), TrialFault>
    requires batch { K.is_open keeper.old ≡ false }
    requires kept { IfSome (K.told keeper.old) (AreKept (K.is_open keeper.old)) }
    requires trial { IfSome (K.told keeper.old) (λ kept. HasTrial kept.committed number) }
    ensures sets { Tells (K.told keeper.old) (K.told keeper.new) (Sets (with_current path.now number) result) }
    ensures stops { Tells (K.told keeper.old) (K.told keeper.new) (λ before _. SetLeaves (with_current path.now number) result (K.may_leave keeper.old) (K.may_leave keeper.new) before.committed) }
    ensures of_list { IfErr result IsOfList }
    ensures kept { IfSome (K.told keeper.new) (AreKept (K.is_open keeper.new)) }
    ensures batch { K.is_open keeper.new ≡ false }
    ensures cause { Causes (has_failed result) (K.faults keeper.old) (K.faults keeper.new) }
{
    if let Err(fault) = keeper.begin(alloc) {
        return Err(TrialFault::from(fault));
    }
    match set_and_commit(alloc, keeper, path, number) {
        Ok(()) => Ok(()),
        Err(fault) => {
            drop_batch(alloc, keeper);
            Err(fault)
        }
    }
}
