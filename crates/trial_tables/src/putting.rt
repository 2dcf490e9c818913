// The contents of a trial, put one by one.
ghost use Rattle.std.specs.Prelude.{◌≡◌, IsTrue, IfSome, IfOk, map};
ghost use Rattle.prov_outside.specs.Tells.{Tells};
ghost use Rattle.keeper.specs.Keeping.{AreKept, LeavesAmong};
ghost use Rattle.trial_tables.specs.Causes.{Causes};
ghost use Rattle.trial_tables.specs.WriteFault.{has_failed};
ghost use Rattle.trial_tables.specs.Stages.{Writes};
ghost use Rattle.trial_tables.specs.Written.{put_one, put_each};

use crate::write_fault::WriteFault;
use content_store::put;
use keeper::Keeper;
use std::alloc::Global;

/// Puts one content, in the open batch.
fn put_content<K: Keeper>(alloc: Global, keeper: &mut K, bytes: &[u8]) -> Result<(), WriteFault>
    requires { IsTrue (K.is_open keeper.old) }
    ensures writes { Tells (K.told keeper.old) (K.told keeper.new) (Writes (put_one bytes.now) result) }
    ensures heads { Tells (K.told keeper.old) (K.told keeper.new) (λ before after. IfOk result (λ _. after.seen.heads ≡ before.seen.heads)) }
    ensures kept { IfSome (K.told keeper.new) (AreKept (K.is_open keeper.new)) }
    ensures stops { Tells (K.told keeper.old) (K.told keeper.new) (λ _ _. LeavesAmong (K.may_leave keeper.old) (K.may_leave keeper.new)) }
    ensures batch { K.is_open keeper.new ≡ K.is_open keeper.old }
    ensures cause { Causes (has_failed result) (K.faults keeper.old) (K.faults keeper.new) }
{
    match put(alloc, keeper, bytes) {
        Ok(_) => Ok(()),
        Err(fault) => Err(WriteFault::from(fault)),
    }
}

/// Puts contents in their order, in the open batch, up to the first that is refused.
pub(crate) fn put_contents<K: Keeper>(
    alloc: Global,
    keeper: &mut K,
    contents: &[&[u8]],
) -> Result<(), WriteFault>
    requires batch { IsTrue (K.is_open keeper.old) }
    requires kept { IfSome (K.told keeper.old) (AreKept (K.is_open keeper.old)) }
    ensures writes { Tells (K.told keeper.old) (K.told keeper.new) (Writes (put_each (map (λ bytes. bytes.now) contents.now)) result) }
    ensures heads { Tells (K.told keeper.old) (K.told keeper.new) (λ before after. IfOk result (λ _. after.seen.heads ≡ before.seen.heads)) }
    ensures kept { IfSome (K.told keeper.new) (AreKept (K.is_open keeper.new)) }
    ensures stops { Tells (K.told keeper.old) (K.told keeper.new) (λ _ _. LeavesAmong (K.may_leave keeper.old) (K.may_leave keeper.new)) }
    ensures batch { K.is_open keeper.new ≡ K.is_open keeper.old }
    ensures cause { Causes (has_failed result) (K.faults keeper.old) (K.faults keeper.new) }
{
    for bytes in contents {
        if let Err(fault) = put_content(alloc, keeper, bytes) {
            return Err(fault);
        }
    }
    Ok(())
}
