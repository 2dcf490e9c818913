// `run --bare`: a script that is read and run.
ghost use Rattle.std.specs.Prelude.{◌≡◌, Option, Some, IfOk, IfErr};
ghost use Rattle.now_words.specs.Command.{run_bare as run_bare_command};
ghost use Rattle.delivery.specs.Ending.{ending_of};
ghost use Rattle.keeper.specs.Tables.{TablesView};
ghost use Rattle.now_top.specs.Planned.{plan_of};
ghost use Rattle.now_top.specs.Reading.{IsRefusedAs};
ghost use Rattle.now_top.specs.Replies.{Prepares};
ghost use Rattle.now_top.specs.Running.{RunsOver};
ghost use Rattle.py_tree.specs.Erasure.{script_of};
ghost use Rattle.py_parser.specs.Reading.{HasScript};

use crate::planned::Planned;
use crate::source::read_source;
use answer_source::{Devices, Exposes};
use delivery::Ending;
use prov_base::{Memory, Name};
use prov_outside::{ClockAndRandom, Console, Folder};
use py_parser::{Refusal, read_script};
use py_tree::{Script, drop_script};
use run_engine::run_bare;
use std::alloc::Global;

/// The script of a text at FILE, or how the command ends where it has none.
pub(crate) fn script_at<'w>(alloc: Global, file: &'w str, text: &[u8]) -> Result<Script, Ending<'w>>
    ensures script { IfOk result (λ script. HasScript text.now (script_of script)) }
    ensures refused { IfErr result (λ ending. IsRefusedAs file.now text.now (ending_of ending)) }
{
    match read_script(alloc, text) {
        Ok(script) => Ok(script),
        Err(Refusal::At(at)) => Err(Ending::Refused {
            file,
            line: at.line,
            column: at.col,
        }),
        Err(Refusal::Memory) => Err(Ending::OutOfMemory),
    }
}

/// What a text at FILE comes to: its script is run over the devices, which are given back.
fn run_text<'w, C: Console + Drop, F: Folder + Drop, M: ClockAndRandom + Drop>(
    alloc: Global,
    file: &'w str,
    text: &[u8],
    steps: u32,
    arguments: &[Name],
    devices: Devices<C, F, M>,
) -> (Planned<'w>, Devices<C, F, M>)
    ensures { RunsOver file.now text.now steps arguments.now (⟦<Devices<C, F, M> as Exposes>⟧.seen devices) (⟦<Devices<C, F, M> as Exposes>⟧.seen result.1) (plan_of result.0) }
{
    let script = match script_at(alloc, file, text) {
        Ok(script) => script,
        Err(ending) => return (Planned::Closes(ending), devices),
    };
    let (ran, devices) = run_bare(alloc, &script, file, arguments, steps, devices);
    drop_script(script);
    match ran {
        Ok(over) => (Planned::Ran(over), devices),
        Err(Memory) => (Planned::Closes(Ending::OutOfMemory), devices),
    }
}

/// What `run --bare` comes to over the devices, which it gives back. Nothing is written, and no file is put.
pub fn plan_run<'w, C: Console + Drop, F: Folder + Drop, M: ClockAndRandom + Drop>(
    alloc: Global,
    file: &'w str,
    steps: u32,
    arguments: &[Name],
    mut devices: Devices<C, F, M>,
) -> (Planned<'w>, Devices<C, F, M>)
    ensures { (tables : Option TablesView) → Prepares (Some (run_bare_command steps file.now arguments.now)) tables (⟦<Devices<C, F, M> as Exposes>⟧.seen devices) (⟦<Devices<C, F, M> as Exposes>⟧.seen result.1) (plan_of result.0) }
{
    match read_source(alloc, file, &mut devices.folder) {
        Ok(text) => run_text(alloc, file, text.as_slice(), steps, arguments, devices),
        Err(ending) => (Planned::Closes(ending), devices),
    }
}
