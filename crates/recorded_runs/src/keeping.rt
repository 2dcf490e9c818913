// A run that is kept as a trial, with its times of start and end.
ghost use Rattle.std.specs.Prelude.{◌≡◌, false, IfOk, IfErr, OnErr, IfSome};
ghost use Rattle.answer_source.specs.Live.{told_by};
ghost use Rattle.keeper.specs.Keeping.{AreKept};
ghost use Rattle.prov_outside.specs.Tells.{Tells};
ghost use Rattle.py_tree.specs.Erasure.{script_of};
ghost use Rattle.trial_keeping.specs.Fault.{has_failed};
ghost use Rattle.trial_keeping.specs.Keeping.{KeepsTrial, IsOfKeeping, StopLeaves};
ghost use Rattle.trial_tables.specs.Causes.{Causes};
ghost use Rattle.recorded_runs.specs.KeptRun.{ClockGives, clock_faults, TimesRun, TimedRuns, run_in};

use crate::recording::{Recorded, record_run};
use answer_source::{Devices, Exposes};
use keeper::Keeper;
use prov_base::{Memory, Name};
use prov_outside::{ClockAndRandom, Console, Folder};
use py_tree::Script;
use std::alloc::Global;
use trial_keeping::{TrialFault, keep_trial};

/// A run that was recorded, when it began and ended, and what came of keeping it.
#[derive(Drop)]
pub struct KeptRun {
    /// The run and its pages.
    pub recorded: Recorded,
    /// When it began and ended, in nanoseconds since 1970 began, where the clock told that.
    pub times: (Option<i64>, Option<i64>),
    /// The number of its trial, counted from 1, or why none is kept.
    pub number: Result<u32, TrialFault>,
}

/// A run that was recorded, and when it began and ended.
#[derive(Drop)]
pub(crate) struct Timed {
    recorded: Recorded,
    times: (Option<i64>, Option<i64>),
}

/// The time, where the clock gives it.
fn time_of<M: ClockAndRandom>(moments: &mut M) -> Option<i64>
    ensures time { Tells (M.told moments.old) (M.told moments.new) (ClockGives result) }
    ensures faults { M.time_faults moments.new ≡ clock_faults result (M.time_faults moments.old) }
    ensures words { M.word_faults moments.new ≡ M.word_faults moments.old }
{
    match moments.now_ns() {
        Ok(time) => Some(time),
        Err(_) => None,
    }
}

/// Asks for the start time, records the run, and asks for the end time. Where memory runs out the end time is not asked for.
fn time_run<C: Console + Drop, F: Folder + Drop, M: ClockAndRandom + Drop>(
    alloc: Global,
    script: &Script,
    path: &str,
    arguments: &[Name],
    budget: u32,
    mut devices: Devices<C, F, M>,
) -> (Result<Timed, Memory>, Devices<C, F, M>)
    ensures { TimedRuns (script_of script.now) path.now arguments.now budget (told_by (⟦<Devices<C, F, M> as Exposes>⟧.seen devices)) (told_by (⟦<Devices<C, F, M> as Exposes>⟧.seen result.1)) result.0 }
{
    let started = time_of(&mut devices.moments);
    let (ran, mut devices) = record_run(alloc, script, path, arguments, budget, devices);
    match ran {
        Ok(recorded) => {
            let times = (started, time_of(&mut devices.moments));
            (Ok(Timed { recorded, times }), devices)
        }
        Err(refused) => (Err(refused), devices),
    }
}

/// Runs and records the script at a path over devices, which it gives back, and keeps the run as a trial with the script's text, its start time and its end
/// time. A fault in keeping loses nothing of the run: it is told beside it. Where memory runs out before the keeping, the keeper is not called.
pub fn keep_run<K: Keeper, C: Console + Drop, F: Folder + Drop, M: ClockAndRandom + Drop>(
    alloc: Global,
    keeper: &mut K,
    text: &[u8],
    script: &Script,
    path: &str,
    arguments: &[Name],
    budget: u32,
    devices: Devices<C, F, M>,
) -> (Result<KeptRun, Memory>, Devices<C, F, M>)
    requires batch { K.is_open keeper.old ≡ false }
    ensures runs { TimesRun (script_of script.now) path.now arguments.now budget (told_by (⟦<Devices<C, F, M> as Exposes>⟧.seen devices)) (told_by (⟦<Devices<C, F, M> as Exposes>⟧.seen result.1)) result.0 }
    ensures keeps { IfOk result.0 (λ it. Tells (K.told keeper.old) (K.told keeper.new) (KeepsTrial (run_in text.now path.now arguments.now budget it) it.number)) }
    ensures of_keeping { IfOk result.0 (λ it. IfErr it.number IsOfKeeping) }
    ensures stops { IfOk result.0 (λ it. Tells (K.told keeper.old) (K.told keeper.new)
        (StopLeaves (run_in text.now path.now arguments.now budget it) it.number (K.may_leave keeper.old) (K.may_leave keeper.new))) }
    ensures kept { IfOk result.0 (λ _. IfSome (K.told keeper.new) (AreKept (K.is_open keeper.new))) }
    ensures cause { IfOk result.0 (λ it. Causes (has_failed it.number) (K.faults keeper.old) (K.faults keeper.new)) }
    ensures batch { K.is_open keeper.new ≡ false }
    ensures untouched { OnErr result.0 (keeper.new ≡ keeper.old) }
{
    let (timed, devices) = time_run(alloc, script, path, arguments, budget, devices);
    match timed {
        Ok(timed) => {
            let Timed { recorded, times } = timed;
            let number = keep_trial(
                alloc,
                keeper,
                text,
                path,
                arguments,
                budget,
                &recorded.ended,
                recorded.pages.as_slice(),
                times,
            );
            let kept = KeptRun {
                recorded,
                times,
                number,
            };
            (Ok(kept), devices)
        }
        Err(refused) => (Err(refused), devices),
    }
}
