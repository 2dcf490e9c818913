// `run`: a script that is read, run and kept as a trial.
ghost use Rattle.std.specs.Prelude.{◌≡◌, false, Some};
ghost use Rattle.now_words.specs.Command.{run_kept as run_kept_command};
ghost use Rattle.now_top.specs.KeepingRun.{KeepsText};
ghost use Rattle.now_top.specs.Kept.{stored};
ghost use Rattle.now_top.specs.Planned.{plan_of, plan_of_run};
ghost use Rattle.now_top.specs.Replies.{PlansWith};
ghost use Rattle.now_top.specs.Unkept.{with_keeping};

use crate::planned::Planned;
use crate::run::script_at;
use crate::source::read_source;
use answer_source::{Devices, Exposes};
use delivery::Ending;
use keeper::Keeper;
use prov_base::{Memory, Name};
use prov_outside::{ClockAndRandom, Console, Folder};
use py_tree::drop_script;
use recorded_runs::{KeptRun, Recorded, keep_run};
use std::alloc::Global;
use trial_keeping::TrialFault;

/// What a run comes to by what came of its keeping. A fault there loses nothing of it; out of memory loses all.
fn planned_kept<'w>(kept: KeptRun) -> Planned<'w>
    ensures { plan_of result ≡ with_keeping kept.number (plan_of_run kept.recorded.ended) }
{
    let KeptRun {
        recorded,
        number,
        ..
    } = kept;
    let Recorded { ended, .. } = recorded;
    match number {
        Ok(_) => Planned::Ran(ended),
        Err(TrialFault::Memory) => Planned::Closes(Ending::OutOfMemory),
        Err(fault) => Planned::Unkept(ended, fault),
    }
}

/// What a text at FILE comes to: its script is run over the devices, which are given back, and the run is kept.
fn keep_text<'w, K: Keeper, C: Console + Drop, F: Folder + Drop, M: ClockAndRandom + Drop>(
    alloc: Global,
    keeper: &mut K,
    file: &'w str,
    text: &[u8],
    steps: u32,
    arguments: &[Name],
    devices: Devices<C, F, M>,
) -> (Planned<'w>, Devices<C, F, M>)
    requires batch { K.is_open keeper.old ≡ false }
    ensures keeps { KeepsText file.now text.now steps arguments.now (⟦<Devices<C, F, M> as Exposes>⟧.seen devices) (⟦<Devices<C, F, M> as Exposes>⟧.seen result.1) (stored K.told K.faults keeper.old) (stored K.told K.faults keeper.new) (K.may_leave keeper.old) (K.may_leave keeper.new) (plan_of result.0) }
    ensures batch { K.is_open keeper.new ≡ false }
{
    let script = match script_at(alloc, file, text) {
        Ok(script) => script,
        Err(ending) => return (Planned::Closes(ending), devices),
    };
    let (kept, devices) = keep_run(
        alloc, keeper, text, &script, file, arguments, steps, devices,
    );
    drop_script(script);
    match kept {
        Ok(kept) => (planned_kept(kept), devices),
        Err(Memory) => (Planned::Closes(Ending::OutOfMemory), devices),
    }
}

/// What `run` comes to over the devices, which it gives back. The run is kept. Nothing is written, and no file is put.
pub fn plan_kept<'w, K: Keeper, C: Console + Drop, F: Folder + Drop, M: ClockAndRandom + Drop>(
    alloc: Global,
    keeper: &mut K,
    file: &'w str,
    steps: u32,
    arguments: &[Name],
    mut devices: Devices<C, F, M>,
) -> (Planned<'w>, Devices<C, F, M>)
    requires batch { K.is_open keeper.old ≡ false }
    ensures plans { PlansWith (Some (run_kept_command steps file.now arguments.now)) (⟦<Devices<C, F, M> as Exposes>⟧.seen devices) (⟦<Devices<C, F, M> as Exposes>⟧.seen result.1) (stored K.told K.faults keeper.old) (stored K.told K.faults keeper.new) (K.may_leave keeper.old) (K.may_leave keeper.new) (plan_of result.0) }
    ensures batch { K.is_open keeper.new ≡ false }
{
    match read_source(alloc, file, &mut devices.folder) {
        Ok(text) => keep_text(
            alloc,
            keeper,
            file,
            text.as_slice(),
            steps,
            arguments,
            devices,
        ),
        Err(ending) => (Planned::Closes(ending), devices),
    }
}
