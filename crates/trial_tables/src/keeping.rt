// A trial kept: written in one batch, or not at all.
ghost use Rattle.std.specs.Prelude.{◌≡◌, ◌<◌, ◌≤◌, false, IsTrue, IfSome, IfOk, map, length};
ghost use Rattle.prov_outside.specs.Tells.{Tells};
ghost use Rattle.keeper.specs.Keeping.{AreKept, Drops, LeavesAmong};
ghost use Rattle.keeper.specs.Tables.{most_trials};
ghost use Rattle.trial_tables.specs.Causes.{Causes};
ghost use Rattle.trial_tables.specs.WriteFault.{has_failed};
ghost use Rattle.trial_tables.specs.Kept.{Commits, Keeps, StopLeaves};
ghost use Rattle.trial_tables.specs.Written.{next_trial, write_in};

use crate::write_fault::WriteFault;
use crate::writing::write_trial;
use keeper::{Head, Keeper};
use prov_base::Bytes;
use std::alloc::Global;

/// Writes a trial into the open batch and commits it.
fn write_and_commit<K: Keeper>(
    alloc: Global,
    keeper: &mut K,
    contents: &[&[u8]],
    head: &Head,
    pages: &[Bytes],
) -> Result<u32, WriteFault>
    requires few { length pages.now < 4294967296 }
    requires batch { IsTrue (K.is_open keeper.old) }
    requires kept { IfSome (K.told keeper.old) (AreKept (K.is_open keeper.old)) }
    requires room { IfSome (K.told keeper.old) (λ kept. length kept.seen.heads < most_trials) }
    ensures commits { Tells (K.told keeper.old) (K.told keeper.new) (Commits (write_in (map (λ bytes. bytes.now) contents.now) head.now pages.now) result) }
    ensures number { Tells (K.told keeper.old) (K.told keeper.new) (λ before _. IfOk result (λ number. number ≡ next_trial before.seen)) }
    ensures stops { Tells (K.told keeper.old) (K.told keeper.new) (λ before after. StopLeaves (write_in (map (λ bytes. bytes.now) contents.now) head.now pages.now) result
        (K.may_leave keeper.old) (K.may_leave keeper.new) before.seen after.committed) }
    ensures kept { IfSome (K.told keeper.new) (AreKept (K.is_open keeper.new)) }
    ensures batch { IfOk result (λ _. K.is_open keeper.new ≡ false) }
    ensures cause { Causes (has_failed result) (K.faults keeper.old) (K.faults keeper.new) }
{
    let number = match write_trial(alloc, keeper, contents, head, pages) {
        Ok(number) => number,
        Err(fault) => return Err(fault),
    };
    match keeper.commit(alloc) {
        Ok(()) => Ok(number),
        Err(fault) => Err(WriteFault::from(fault)),
    }
}

/// Drops the open batch.
fn drop_batch<K: Keeper>(alloc: Global, keeper: &mut K)
    ensures drops { Tells (K.told keeper.old) (K.told keeper.new) Drops }
    ensures kept { IfSome (K.told keeper.new) (AreKept (K.is_open keeper.new)) }
    ensures stops { Tells (K.told keeper.old) (K.told keeper.new) (λ _ _. LeavesAmong (K.may_leave keeper.old) (K.may_leave keeper.new)) }
    ensures batch { K.is_open keeper.new ≡ false }
    ensures never_falls { K.faults keeper.old ≤ K.faults keeper.new }
{
    match keeper.undo(alloc) {
        Ok(()) => (),
        Err(_) => (),
    }
}

/// Keeps a trial: its contents in their order, its head, its pages, and that it is the current trial of its path, in one batch. Answers its
/// number. After an `Err` the tables are as before.
pub fn keep<K: Keeper>(
    alloc: Global,
    keeper: &mut K,
    contents: &[&[u8]],
    head: &Head,
    pages: &[Bytes],
) -> Result<u32, WriteFault>
    requires few { length pages.now < 4294967296 }
    requires batch { K.is_open keeper.old ≡ false }
    requires kept { IfSome (K.told keeper.old) (AreKept (K.is_open keeper.old)) }
    requires room { IfSome (K.told keeper.old) (λ kept. length kept.committed.heads < most_trials) }
    ensures keeps { Tells (K.told keeper.old) (K.told keeper.new) (Keeps (write_in (map (λ bytes. bytes.now) contents.now) head.now pages.now) result) }
    ensures number { Tells (K.told keeper.old) (K.told keeper.new) (λ before _. IfOk result (λ number. number ≡ next_trial before.committed)) }
    ensures stops { Tells (K.told keeper.old) (K.told keeper.new) (λ before after. StopLeaves (write_in (map (λ bytes. bytes.now) contents.now) head.now pages.now) result
        (K.may_leave keeper.old) (K.may_leave keeper.new) before.committed after.committed) }
    ensures kept { IfSome (K.told keeper.new) (AreKept (K.is_open keeper.new)) }
    ensures batch { K.is_open keeper.new ≡ false }
    ensures cause { Causes (has_failed result) (K.faults keeper.old) (K.faults keeper.new) }
{
    if let Err(fault) = keeper.begin(alloc) {
        return Err(WriteFault::from(fault));
    }
    match write_and_commit(alloc, keeper, contents, head, pages) {
        Ok(number) => Ok(number),
        Err(fault) => {
            drop_batch(alloc, keeper);
            Err(fault)
        }
    }
}
