// The script of a kept trial.
ghost use Rattle.std.specs.Prelude.{◌≡◌, IfSome};
ghost use Rattle.prov_outside.specs.Tells.{Tells};
ghost use Rattle.keeper.specs.Keeping.{AreKept, LeavesAmong};
ghost use Rattle.trial_tables.specs.Causes.{Causes};
ghost use Rattle.trial_tables.specs.Found.{Finds};
ghost use Rattle.trial_tables.specs.ReadFault.{has_failed};
ghost use Rattle.trial_loading.specs.Rest.{script_in};

use keeper::{Head, Keeper};
use prov_base::{Bytes, is_path};
use std::alloc::Global;
use trial_tables::{Damage, ReadFault, content};

/// The text of a trial's script: its path must be one that a script may open, and the text is there with its digest.
pub fn script_of<K: Keeper>(alloc: Global, keeper: &mut K, head: &Head) -> Result<Bytes, ReadFault>
    requires kept { IfSome (K.told keeper.old) (AreKept (K.is_open keeper.old)) }
    ensures finds { Tells (K.told keeper.old) (K.told keeper.new) (Finds (λ tables. script_in tables head.now) result) }
    ensures kept { IfSome (K.told keeper.new) (AreKept (K.is_open keeper.new)) }
    ensures stops { Tells (K.told keeper.old) (K.told keeper.new) (λ _ _. LeavesAmong (K.may_leave keeper.old) (K.may_leave keeper.new)) }
    ensures batch { K.is_open keeper.new ≡ K.is_open keeper.old }
    ensures cause { Causes (has_failed result) (K.faults keeper.old) (K.faults keeper.new) }
{
    if !is_path(head.path.as_str()) {
        return Err(ReadFault::Damaged(Damage::Path));
    }
    content(alloc, keeper, &head.script)
}
