// `restore`: the files of a trial are put back, and told.
ghost use Rattle.std.specs.Prelude.{◌≡◌, false};
ghost use Rattle.delivery.specs.Ending.{ending_of};
ghost use Rattle.now_top.specs.Kept.{stored};
ghost use Rattle.now_top.specs.Planned.{plan_of};
ghost use Rattle.now_top.specs.Restored.{EndsBy, RestoresWith};

use crate::asking::planned_trial;
use crate::planned::{Planned, ending_after, ending_without};
use answer_source::{Devices, Exposes};
use delivery::{Ending, deliver};
use keeper::Keeper;
use prov_outside::{ClockAndRandom, Console, Folder};
use std::alloc::Global;
use trial_history::{RestoreFault, restore};

/// What a restoring comes to, besides the lines of the files that were put.
fn planned_restored<'w>(alloc: Global, came: &'w Result<(), RestoreFault>) -> Planned<'w>
    ensures { EndsBy came.now (plan_of result).ending }
{
    match came {
        Ok(()) => Planned::Closes(Ending::Done),
        Err(RestoreFault::Folder(path)) => Planned::Closes(Ending::FolderFailed(path.as_str())),
        Err(RestoreFault::Trial(fault)) => planned_trial(alloc, Err(*fault)),
    }
}

/// How the command ends by what was planned.
fn ending_in<'p>(planned: &'p Planned<'p>) -> Ending<'p>
    ensures { ending_of result ≡ (plan_of planned.now).ending }
{
    match planned {
        Planned::Closes(ending) => *ending,
        Planned::Text(_) => Ending::Done,
        Planned::DamagedTrial(trial, words) => Ending::DamagedTrial {
            trial: *trial,
            detail: words.as_str(),
        },
        Planned::Ran(over) => ending_after(&over.end),
        Planned::Unkept(_, fault) => ending_without(*fault),
    }
}

/// Restores the trial with this number over the devices, which it gives back, writes a line for each file that was put and a closing line, and answers the status.
pub fn restore_trial<C: Console + Drop, F: Folder + Drop, M: ClockAndRandom + Drop, K: Keeper>(
    alloc: Global,
    keeper: &mut K,
    number: u32,
    mut devices: Devices<C, F, M>,
) -> (u8, Devices<C, F, M>)
    requires batch { K.is_open keeper.old ≡ false }
    ensures restores { RestoresWith number (⟦<Devices<C, F, M> as Exposes>⟧.seen devices) (⟦<Devices<C, F, M> as Exposes>⟧.seen result.1) (stored K.told K.faults keeper.old) (stored K.told K.faults keeper.new) (K.may_leave keeper.old) (K.may_leave keeper.new) result.0 }
    ensures batch { K.is_open keeper.new ≡ false }
{
    let mut told = Vec::new(alloc);
    let came = restore(alloc, keeper, &mut devices.folder, number, &mut told);
    let planned = planned_restored(alloc, &came);
    let status = deliver(
        alloc,
        &mut devices.console,
        &mut devices.folder,
        ending_in(&planned),
        told.as_slice(),
        &[],
    );
    (status, devices)
}
