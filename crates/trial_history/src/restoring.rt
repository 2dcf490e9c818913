// A trial, restored.
ghost use Rattle.std.specs.Prelude.{◌≡◌, ◌≤◌, false, IfErr, IfSome};
ghost use Rattle.prov_outside.specs.Tells.{Tells};
ghost use Rattle.keeper.specs.Keeping.{AreKept};
ghost use Rattle.keeper.specs.Tables.{HasTrial};
ghost use Rattle.trial_tables.specs.Causes.{Causes};
ghost use Rattle.trial_loading.specs.Loading.{IsLoaded, IsTrial};
ghost use Rattle.trial_history.specs.Fault.{has_failed, IsOfRestoring};
ghost use Rattle.trial_history.specs.Restoring.{RestoreLeaves, Restores};

use crate::current::make_current;
use crate::fault::RestoreFault;
use crate::puts::put_files;
use keeper::Keeper;
use prov_outside::Folder;
use std::alloc::Global;
use trial_loading::{Trial, drop_trial, load_trial};

/// Puts the files of a loaded trial, and then makes it the current one of its path.
fn restore_loaded<K: Keeper, F: Folder>(
    alloc: Global,
    keeper: &mut K,
    folder: &mut F,
    number: u32,
    trial: &Trial,
    told: &mut Vec<u8>,
) -> Result<(), RestoreFault>
    requires batch { K.is_open keeper.old ≡ false }
    requires kept { IfSome (K.told keeper.old) (AreKept (K.is_open keeper.old)) }
    requires is_trial { IsTrial number trial.now }
    requires loaded { IfSome (K.told keeper.old) (λ kept. IsLoaded kept.seen number trial.now) }
    requires there { IfSome (K.told keeper.old) (λ kept. HasTrial kept.committed number) }
    ensures restores { Restores number result (K.told keeper.old) (K.told keeper.new) told.old.items told.new.items (F.put_faults folder.old) (F.put_faults folder.new) (F.told folder.old) (F.told folder.new) }
    ensures of_restoring { IfErr result (IsOfRestoring number) }
    ensures stops { Tells (K.told keeper.old) (K.told keeper.new) (RestoreLeaves number result (K.may_leave keeper.old) (K.may_leave keeper.new)) }
    ensures kept { IfSome (K.told keeper.new) (AreKept (K.is_open keeper.new)) }
    ensures batch { K.is_open keeper.new ≡ false }
    ensures cause { Causes (has_failed result) (K.faults keeper.old) (K.faults keeper.new) }
    ensures put_faults { F.put_faults folder.old ≤ F.put_faults folder.new }
    ensures get_faults { F.get_faults folder.new ≡ F.get_faults folder.old }
    ensures source_faults { F.source_faults folder.new ≡ F.source_faults folder.old }
{
    let path = trial.head.path.as_str();
    let files = trial.capture.files();
    if let Err(fault) = put_files(alloc, folder, told, path, trial.text.as_slice(), files) {
        return Err(fault);
    }
    match make_current(alloc, keeper, path, number) {
        Ok(()) => Ok(()),
        Err(fault) => Err(RestoreFault::Trial(fault)),
    }
}

/// The command `restore`: loads the trial with this number, which counts from 1. It puts its script at its path, and then each file that its run found with bytes, by path, into the folder.
/// Then it makes the trial the current one of its path. It stops at the first put that is refused, and the trial that was current stays so. Behind `told` it writes a line `restored PATH` for each file
/// that was put, in their order, whatever is answered. `Trial` comes as `load_trial` answers, or where the keeper failed or memory ran out; `Folder` where the folder failed, with the path.
pub fn restore<K: Keeper, F: Folder>(
    alloc: Global,
    keeper: &mut K,
    folder: &mut F,
    number: u32,
    told: &mut Vec<u8>,
) -> Result<(), RestoreFault>
    requires batch { K.is_open keeper.old ≡ false }
    ensures restores { Restores number result (K.told keeper.old) (K.told keeper.new) told.old.items told.new.items (F.put_faults folder.old) (F.put_faults folder.new) (F.told folder.old) (F.told folder.new) }
    ensures of_restoring { IfErr result (IsOfRestoring number) }
    ensures stops { Tells (K.told keeper.old) (K.told keeper.new) (RestoreLeaves number result (K.may_leave keeper.old) (K.may_leave keeper.new)) }
    ensures kept { IfSome (K.told keeper.new) (AreKept (K.is_open keeper.new)) }
    ensures batch { K.is_open keeper.new ≡ false }
    ensures cause { Causes (has_failed result) (K.faults keeper.old) (K.faults keeper.new) }
    ensures put_faults { F.put_faults folder.old ≤ F.put_faults folder.new }
    ensures get_faults { F.get_faults folder.new ≡ F.get_faults folder.old }
    ensures source_faults { F.source_faults folder.new ≡ F.source_faults folder.old }
{
    let trial = match load_trial(alloc, keeper, number) {
        Ok(trial) => trial,
        Err(fault) => return Err(RestoreFault::Trial(fault)),
    };
    let done = restore_loaded(alloc, keeper, folder, number, &trial, told);
    drop_trial(trial);
    done
}
