// The files of a command, put into the folder.
ghost use Rattle.std.specs.Prelude.{◌≡◌, ◌≤◌, if◌then◌else◌, map, option_copied};
ghost use Rattle.delivery.specs.Ending.{ending_of, out_of_memory};
ghost use Rattle.delivery.specs.PutsAll.{file_out, or_failed};
ghost use Rattle.delivery.specs.Stages.{PutsFiles, first_with, short_with};

use crate::Ending;
use crate::ending::of_store;
use capture::FileOut;
use prov_outside::{Folder, Trouble};
use std::alloc::Global;

/// Puts the files in their order, each whatever became of those before it, and answers how the command ends by that.
pub(crate) fn put_files<'t, F: Folder>(
    alloc: Global,
    folder: &mut F,
    planned: Ending<'t>,
    files: &'t [FileOut],
) -> Ending<'t>
    ensures puts { PutsFiles (ending_of planned.entry) (map file_out files.now) (F.put_faults folder.old) (F.put_faults folder.new)
        (F.told folder.old) (F.told folder.new) (ending_of result) }
    ensures never_falls { F.put_faults folder.old ≤ F.put_faults folder.new }
    ensures get_faults { F.get_faults folder.new ≡ F.get_faults folder.old }
    ensures source_faults { F.source_faults folder.new ≡ F.source_faults folder.old }
{
    let mut first: Option<&str> = None;
    let mut short = false;
    for file in files {
        let path = file.path.as_str();
        let outcome = folder.put(alloc, path, file.bytes.as_slice());
        first = first_fault(first, path, outcome);
        short = lacked(short, outcome);
    }
    ending_by(planned, first, short)
}

/// The first path whose put failed, after one more put.
fn first_fault<'t>(
    first: Option<&'t str>,
    path: &'t str,
    outcome: Result<(), Trouble>,
) -> Option<&'t str>
    ensures { option_copied result ≡ first_with (option_copied first.entry) path.now outcome }
{
    match outcome {
        Ok(()) => first,
        Err(Trouble::Failed) => first.or(Some(path)),
        Err(Trouble::Memory) => first,
    }
}

/// Whether a call lacked memory, after one more.
fn lacked(short: bool, outcome: Result<(), Trouble>) -> bool
    ensures { result ≡ short_with short outcome }
{
    match outcome {
        Ok(()) => short,
        Err(Trouble::Failed) => short,
        Err(Trouble::Memory) => true,
    }
}

/// How the command ends by its puts.
fn ending_by<'t>(planned: Ending<'t>, first: Option<&'t str>, short: bool) -> Ending<'t>
    ensures { ending_of result ≡ if short then out_of_memory else or_failed (ending_of planned.entry) (option_copied first.entry) }
{
    if short {
        return Ending::OutOfMemory;
    }
    match first {
        Some(path) if !of_store(planned) => Ending::FolderFailed(path),
        _ => planned,
    }
}
