// What a command leaves: its files, its text and its closing line, and the status.
ghost use Rattle.std.specs.Prelude.{◌≡◌, ◌≤◌, ◌⊎◌, ℕ, false, List, [], if◌then◌else◌, map, IsOk};
ghost use Rattle.prov_outside.specs.Console.{Writes};
ghost use Rattle.prov_outside.specs.Count.{Rose, faults_after};
ghost use Rattle.prov_outside.specs.Tells.{Tells};
ghost use Rattle.delivery.specs.Ending.{ending_of, done, console_failed, folder_failed, tells_of_store};
ghost use Rattle.delivery.specs.PutsAll.{file_out};
ghost use Rattle.delivery.specs.Shown.{outlasts_console, after_text};
ghost use Rattle.delivery.specs.Stages.{ClosesWith};
ghost use Rattle.delivery.specs.Delivered.{Delivered};
ghost use Rattle.delivery.specs.Stands.{WentWell, DidAsPlanned};

use crate::Ending;
use crate::last_line::close;
use crate::puts::put_files;
use capture::FileOut;
use prov_outside::{Console, Folder, Trouble};
use std::alloc::Global;

/// Puts the files in their order, each whatever became of those before it, writes the text and then the closing line, and
/// answers the status: 0 done, 1 not caught, 2 usage, 3 refused, 4 nothing there, 5 the console failed at the text, 6 the folder
/// failed, 7 the store failed, 8 memory ran out, 9 out of steps, 10 a collision, 11 a damaged
/// trial, 13 the store is full.
pub fn deliver<C: Console, F: Folder>(
    alloc: Global,
    console: &mut C,
    folder: &mut F,
    planned: Ending<'_>,
    text: &[u8],
    files: &[FileOut],
) -> u8
    // What stands, the counts and the status are functions of what was planned and of what each call answered.
    ensures delivered { Delivered (ending_of planned.entry) text.now (map file_out files.now)
        (F.put_faults folder.old) (F.put_faults folder.new) (F.told folder.old) (F.told folder.new)
        (C.out_faults console.old) (C.out_faults console.new) (C.told console.old) (C.told console.new) result }

    // Where no count rose and memory sufficed, all stands and the status is the planned one. With status 0 that is so.
    ensures went_well { (Rose (F.put_faults folder.old) (F.put_faults folder.new) → ⊥) → (Rose (C.out_faults console.old) (C.out_faults console.new) → ⊥)
        → (result ≡ 8 → ⊥) → WentWell (ending_of planned.entry) text.now (map file_out files.now)
        (F.put_faults folder.old) (F.put_faults folder.new) (F.told folder.old) (F.told folder.new)
        (C.out_faults console.old) (C.out_faults console.new) (C.told console.old) (C.told console.new) result }
    ensures all_done { result ≡ 0 → (ending_of planned.entry ≡ done) × WentWell (ending_of planned.entry) text.now (map file_out files.now)
        (F.put_faults folder.old) (F.put_faults folder.new) (F.told folder.old) (F.told folder.new)
        (C.out_faults console.old) (C.out_faults console.new) (C.told console.old) (C.told console.new) result }

    // With a status other than 5, 6 and 8, and where no fault of the store was planned, the folder has all files, the console the whole text, and the status
    // is the planned one.
    ensures as_planned { tells_of_store (ending_of planned.entry) ≡ false → (result ≡ 5 → ⊥) → (result ≡ 6 → ⊥) → (result ≡ 8 → ⊥) → DidAsPlanned (ending_of planned.entry) text.now (map file_out files.now)
        (F.put_faults folder.old) (F.put_faults folder.new) (F.told folder.old) (F.told folder.new) (C.told console.old) (C.told console.new) result }

    // Status 5 and 6 have their causes.
    ensures console_failed { result ≡ 5 → Rose (C.out_faults console.old) (C.out_faults console.new) }
    ensures folder_failed { result ≡ 6 → Rose (F.put_faults folder.old) (F.put_faults folder.new)
        ⊎ ((path : List ℕ) × (ending_of planned.entry ≡ folder_failed path)) }

    // Nothing else is touched.
    ensures get_faults { F.get_faults folder.new ≡ F.get_faults folder.old }
    ensures source_faults { F.source_faults folder.new ≡ F.source_faults folder.old }
    ensures in_faults { C.in_faults console.new ≡ C.in_faults console.old }
    ensures put_faults { F.put_faults folder.old ≤ F.put_faults folder.new }
    ensures out_faults { C.out_faults console.old ≤ C.out_faults console.new }
{
    let ending = put_files(alloc, folder, planned, files);
    let outcome = write_text(alloc, console, text);
    close_behind(alloc, console, ending, outcome)
}

/// Writes the text, where it is not empty.
fn write_text<C: Console>(alloc: Global, console: &mut C, text: &[u8]) -> Result<(), Trouble>
    ensures no_text { text.now ≡ [] → IsOk result }
    ensures written { Tells (C.told console.old) (C.told console.new) (Writes text.now result) }
    ensures counted { C.out_faults console.new ≡ faults_after result (C.out_faults console.old) }
    ensures never_falls { C.out_faults console.old ≤ C.out_faults console.new }
    ensures in_faults { C.in_faults console.new ≡ C.in_faults console.old }
{
    if text.is_empty() {
        return Ok(());
    }
    console.write(alloc, text)
}

/// Closes behind a text whose write answered so.
fn close_behind<C: Console>(
    alloc: Global,
    console: &mut C,
    ending: Ending<'_>,
    outcome: Result<(), Trouble>,
) -> u8
    ensures closes { ClosesWith (after_text outcome (ending_of ending.entry)) (C.out_faults console.old) (C.out_faults console.new)
        (C.told console.old) (C.told console.new) result }
    ensures never_falls { C.out_faults console.old ≤ C.out_faults console.new }
    ensures in_faults { C.in_faults console.new ≡ C.in_faults console.old }
{
    match outcome {
        Ok(()) => close(alloc, console, ending),
        Err(Trouble::Failed) => close_failed(alloc, console, ending),
        Err(Trouble::Memory) => close(alloc, console, Ending::OutOfMemory),
    }
}

/// Closes behind a text at which the console failed.
fn close_failed<C: Console>(alloc: Global, console: &mut C, ending: Ending<'_>) -> u8
    ensures closes { ClosesWith (if outlasts_console (ending_of ending.entry) then ending_of ending.entry else console_failed)
        (C.out_faults console.old) (C.out_faults console.new) (C.told console.old) (C.told console.new) result }
    ensures never_falls { C.out_faults console.old ≤ C.out_faults console.new }
    ensures in_faults { C.in_faults console.new ≡ C.in_faults console.old }
{
    if outlasts(ending) {
        return close(alloc, console, ending);
    }
    5
}

/// A fault at the text does not change the ending.
fn outlasts(ending: Ending<'_>) -> bool
    ensures { result ≡ outlasts_console (ending_of ending.entry) }
{
    match ending {
        Ending::FolderFailed(_) => true,
        Ending::StoreFailed => true,
        Ending::Collision { .. } => true,
        Ending::StoreFull => true,
        Ending::OutOfMemory => true,
        Ending::Done => false,
        Ending::Uncaught { .. } => false,
        Ending::Usage => false,
        Ending::Refused { .. } => false,
        Ending::NothingThere => false,
        Ending::OutOfSteps => false,
        Ending::NotReached => false,
        Ending::DamagedTrial { .. } => false,
    }
}
