// A run over devices, with a watch or none.
ghost use Rattle.answer_source.specs.Live.{told_by};
ghost use Rattle.py_tree.specs.Erasure.{script_of};
ghost use Rattle.run_engine.specs.Bare.{RunsBare, RunsRecorded};

use crate::ending::over;
use crate::engine::run;
use answer_source::{Devices, Exposes, Live};
use capture::{Capture, Ended};
use op_parts::Parts;
use prov_base::{Memory, Name};
use prov_outside::{ClockAndRandom, Console, Folder};
use py_model::{Doer, NoWatch, Watch};
use py_tree::Script;
use py_value::Value;
use std::alloc::Global;

/// Runs the script at a path, with these arguments and so many steps, over devices, which it gives back. What it answers is the run of the script in
/// the capture that it answers, and that capture is what the devices gave, in the order of asking. Nothing is written and no file is put.
pub fn run_bare<C: Console + Drop, F: Folder + Drop, M: ClockAndRandom + Drop>(
    alloc: Global,
    script: &Script,
    path: &str,
    arguments: &[Name],
    budget: u32,
    devices: Devices<C, F, M>,
) -> (Result<Ended, Memory>, Devices<C, F, M>)
    ensures { RunsBare (script_of script.now) path.now arguments.now budget (told_by (⟦<Devices<C, F, M> as Exposes>⟧.seen devices)) (told_by (⟦<Devices<C, F, M> as Exposes>⟧.seen result.1)) result.0 }
{
    run_recorded(
        alloc,
        script,
        path,
        arguments,
        budget,
        devices,
        &mut NoWatch,
    )
}

/// Runs the script at a path, with these arguments and so many steps, over devices, which it gives back, and tells the watch each moment of the run
/// before the next. Its answer is the run in the capture that it answers, as that of [`run_bare`] is, whatever the watch. Where the watch tells what it
/// was told, that has grown by exactly the moments of that run.
pub fn run_recorded<C: Console + Drop, F: Folder + Drop, M: ClockAndRandom + Drop, W: Watch>(
    alloc: Global,
    script: &Script,
    path: &str,
    arguments: &[Name],
    budget: u32,
    devices: Devices<C, F, M>,
    watch: &mut W,
) -> (Result<Ended, Memory>, Devices<C, F, M>)
    ensures { RunsRecorded (script_of script.now) path.now arguments.now budget (told_by (⟦<Devices<C, F, M> as Exposes>⟧.seen devices)) (told_by (⟦<Devices<C, F, M> as Exposes>⟧.seen result.1)) (W.history watch.old) (W.history watch.new) result.0 }
{
    let capture = match Capture::new(alloc) {
        Ok(capture) => capture,
        Err(refused) => return (Err(refused), devices),
    };
    let mut parts = match Parts::new(alloc, path, arguments, Live::new(capture, devices)) {
        Ok(parts) => parts,
        Err(source) => {
            let (_, devices) = source.finish();
            return (Err(Memory), devices);
        }
    };
    let mut left = budget;
    let end = run(alloc, script, &mut parts, watch, &mut left);
    let _ = parts.values().has(Value::None);
    let (mut held, source) = parts.finish();
    let (capture, devices) = source.finish();
    let ended = over(alloc, &mut held, capture, end, budget.saturating_sub(left));
    (ended, devices)
}
