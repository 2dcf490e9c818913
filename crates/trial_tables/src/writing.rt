// A trial written into an open batch.
ghost use Rattle.std.specs.Prelude.{◌≡◌, ◌<◌, IsTrue, IfSome, IfOk, map, length};
ghost use Rattle.prov_outside.specs.Tells.{Tells};
ghost use Rattle.keeper.specs.Keeping.{AreKept, LeavesAmong};
ghost use Rattle.keeper.specs.Tables.{most_trials};
ghost use Rattle.trial_tables.specs.Causes.{Causes};
ghost use Rattle.trial_tables.specs.WriteFault.{has_failed};
ghost use Rattle.trial_tables.specs.Stages.{Writes};
ghost use Rattle.trial_tables.specs.Written.{put, next_trial, with_whole, write_in};

use crate::paging::add_pages;
use crate::putting::put_contents;
use crate::write_fault::WriteFault;
use keeper::{Head, Keeper};
use prov_base::Bytes;
use std::alloc::Global;

/// Adds a trial, its pages, and makes it current for its path, in the open batch. Answers its number.
fn add_whole<K: Keeper>(
    alloc: Global,
    keeper: &mut K,
    head: &Head,
    pages: &[Bytes],
) -> Result<u32, WriteFault>
    requires few { length pages.now < 4294967296 }
    requires batch { IsTrue (K.is_open keeper.old) }
    requires kept { IfSome (K.told keeper.old) (AreKept (K.is_open keeper.old)) }
    requires room { IfSome (K.told keeper.old) (λ kept. length kept.seen.heads < most_trials) }
    ensures writes { Tells (K.told keeper.old) (K.told keeper.new) (Writes (λ tables. put (with_whole head.now pages.now tables)) result) }
    ensures number { Tells (K.told keeper.old) (K.told keeper.new) (λ before _. IfOk result (λ number. number ≡ next_trial before.seen)) }
    ensures kept { IfSome (K.told keeper.new) (AreKept (K.is_open keeper.new)) }
    ensures stops { Tells (K.told keeper.old) (K.told keeper.new) (λ _ _. LeavesAmong (K.may_leave keeper.old) (K.may_leave keeper.new)) }
    ensures batch { K.is_open keeper.new ≡ K.is_open keeper.old }
    ensures cause { Causes (has_failed result) (K.faults keeper.old) (K.faults keeper.new) }
{
    let number = match keeper.add_trial(alloc, head) {
        Ok(number) => number,
        Err(fault) => return Err(WriteFault::from(fault)),
    };
    if let Err(fault) = add_pages(alloc, keeper, number, pages) {
        return Err(fault);
    }
    match keeper.set_current(alloc, head.path.as_str(), number) {
        Ok(()) => Ok(number),
        Err(fault) => Err(WriteFault::from(fault)),
    }
}

/// Writes a trial into the open batch: its contents in their order, its head, its pages, and that it is the current trial of its path. Answers
/// its number. After an `Err` the batch may hold anything.
pub(crate) fn write_trial<K: Keeper>(
    alloc: Global,
    keeper: &mut K,
    contents: &[&[u8]],
    head: &Head,
    pages: &[Bytes],
) -> Result<u32, WriteFault>
    requires few { length pages.now < 4294967296 }
    requires batch { IsTrue (K.is_open keeper.old) }
    requires kept { IfSome (K.told keeper.old) (AreKept (K.is_open keeper.old)) }
    requires room { IfSome (K.told keeper.old) (λ kept. length kept.seen.heads < most_trials) }
    ensures writes { Tells (K.told keeper.old) (K.told keeper.new) (Writes (write_in (map (λ bytes. bytes.now) contents.now) head.now pages.now) result) }
    ensures number { Tells (K.told keeper.old) (K.told keeper.new) (λ before _. IfOk result (λ number. number ≡ next_trial before.seen)) }
    ensures kept { IfSome (K.told keeper.new) (AreKept (K.is_open keeper.new)) }
    ensures stops { Tells (K.told keeper.old) (K.told keeper.new) (λ _ _. LeavesAmong (K.may_leave keeper.old) (K.may_leave keeper.new)) }
    ensures batch { K.is_open keeper.new ≡ K.is_open keeper.old }
    ensures cause { Causes (has_failed result) (K.faults keeper.old) (K.faults keeper.new) }
{
    if let Err(fault) = put_contents(alloc, keeper, contents) {
        return Err(fault);
    }
    add_whole(alloc, keeper, head, pages)
}
