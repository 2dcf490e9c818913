// The text of `history`.
ghost use Rattle.std.specs.Prelude.{◌≡◌, IfErr, IfOk, IfSome};
ghost use Rattle.prov_outside.specs.Tells.{Tells};
ghost use Rattle.keeper.specs.Keeping.{AreKept, LeavesAmong};
ghost use Rattle.trial_tables.specs.Causes.{Causes};
ghost use Rattle.trial_keeping.specs.Fault.{has_failed};
ghost use Rattle.trial_keeping.specs.Heads.{IsOfList};
ghost use Rattle.trial_history.specs.History.{AreSomeLines, TellsHistory, history_bytes};
ghost use Rattle.trial_history.specs.Worked.{four_lines, four_trials};

use crate::lines::lines_of;
use crate::marks::marks_of;
use keeper::Keeper;
use prov_base::Bytes;
use std::alloc::Global;
use trial_keeping::{TrialFault, list};

/// The text of the command `history`: a line for each trial, by number, with its parent, and marked where it is the current one of its path. `Keeper` comes where the keeper
/// failed, `Memory` where memory ran out.
pub fn history<K: Keeper>(alloc: Global, keeper: &mut K) -> Result<Bytes, TrialFault>
    ensures tells { Tells (K.told keeper.old) (K.told keeper.new) (TellsHistory result) }
    // also over a keeper that tells nothing
    ensures of_heads { IfOk result AreSomeLines }
    ensures of_list { IfErr result IsOfList }
    ensures kept { IfSome (K.told keeper.new) (AreKept (K.is_open keeper.new)) }
    ensures stops { Tells (K.told keeper.old) (K.told keeper.new) (λ _ _. LeavesAmong (K.may_leave keeper.old) (K.may_leave keeper.new)) }
    ensures batch { K.is_open keeper.new ≡ K.is_open keeper.old }
    ensures cause { Causes (has_failed result) (K.faults keeper.old) (K.faults keeper.new) }
{
    let heads = match list(alloc, keeper) {
        Ok(heads) => heads,
        Err(fault) => return Err(fault),
    };
    let marks = match marks_of(alloc, keeper, heads.as_slice()) {
        Ok(marks) => marks,
        Err(fault) => return Err(fault),
    };
    match lines_of(alloc, heads.as_slice(), marks.as_slice()) {
        Ok(text) => Ok(text),
        Err(_) => Err(TrialFault::Memory),
    }
}

/// How a history is written: a script that ran twice, was restored to its first trial and ran again, and another script.
pub fn history_is_written()
    ensures { history_bytes four_trials ≡ four_lines }
{}
