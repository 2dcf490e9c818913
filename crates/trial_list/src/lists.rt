// The text of `list`.
ghost use Rattle.std.specs.Prelude.{◌≡◌, IfErr, IfOk, IfSome, List};
ghost use Rattle.prov_outside.specs.Tells.{Tells};
ghost use Rattle.keeper.specs.declared.records.Head.{Head as OneHead};
ghost use Rattle.keeper.specs.Keeping.{AreKept, LeavesAmong};
ghost use Rattle.trial_tables.specs.Causes.{Causes};
ghost use Rattle.trial_keeping.specs.Fault.{has_failed};
ghost use Rattle.trial_keeping.specs.Heads.{IsOfList};
ghost use Rattle.trial_list.specs.Lines.{list_bytes};
ghost use Rattle.trial_list.specs.Lists.{ListsTrials};

use crate::lines::lines_of;
use keeper::Keeper;
use prov_base::Bytes;
use std::alloc::Global;
use trial_keeping::{TrialFault, list};

/// The text of the command `list`: a line for each trial, by number. `Keeper` comes where the keeper failed, `Memory` where memory ran out.
pub fn list_text<K: Keeper>(alloc: Global, keeper: &mut K) -> Result<Bytes, TrialFault>
    ensures lists { Tells (K.told keeper.old) (K.told keeper.new) (ListsTrials result) }
    // also over a keeper that tells nothing
    ensures of_heads { IfOk result (λ text. (heads : List OneHead) × (text ≡ list_bytes heads)) }
    ensures of_list { IfErr result IsOfList }
    ensures kept { IfSome (K.told keeper.new) (AreKept (K.is_open keeper.new)) }
    ensures stops { Tells (K.told keeper.old) (K.told keeper.new) (λ _ _. LeavesAmong (K.may_leave keeper.old) (K.may_leave keeper.new)) }
    ensures batch { K.is_open keeper.new ≡ K.is_open keeper.old }
    ensures cause { Causes (has_failed result) (K.faults keeper.old) (K.faults keeper.new) }
{
    let heads = match list(alloc, keeper) {
        Ok(heads) => heads,
        Err(fault) => return Err(fault),
    };
    match lines_of(alloc, heads.as_slice()) {
        Ok(text) => Ok(text),
        Err(_) => Err(TrialFault::Memory),
    }
}
