// The files of a kept trial, read.
ghost use Rattle.std.specs.Prelude.{◌≡◌, [], None, IfSome, OnOk};
ghost use Rattle.prov_outside.specs.Tells.{Tells};
ghost use Rattle.prov_outside.specs.declared.folder.Found.{Found as FoundThere};
ghost use Rattle.capture.specs.Files.{file_at, with_file};
ghost use Rattle.keeper.specs.Keeping.{AreKept, LeavesAmong};
ghost use Rattle.trial_tables.specs.Causes.{Causes};
ghost use Rattle.trial_tables.specs.Found.{Finds};
ghost use Rattle.trial_tables.specs.ReadFault.{has_failed};
ghost use Rattle.trial_keeping.specs.RecordFits.{AreAscending};
ghost use Rattle.trial_loading.specs.Checks.{filled};
ghost use Rattle.trial_loading.specs.Rest.{found_in, file_with, files_in};

use capture::Capture;
use keeper::Keeper;
use prov_outside::Found;
use std::alloc::Global;
use trial_keeping::{FileRecord, FoundRecord};
use trial_tables::{ReadFault, content};

/// What was found, as its record says it: the bytes of a file stand under their digest.
fn read_found<K: Keeper>(
    alloc: Global,
    keeper: &mut K,
    found: &FoundRecord,
) -> Result<Found, ReadFault>
    requires kept { IfSome (K.told keeper.old) (AreKept (K.is_open keeper.old)) }
    ensures finds { Tells (K.told keeper.old) (K.told keeper.new) (Finds (λ tables. found_in tables found.now) result) }
    ensures kept { IfSome (K.told keeper.new) (AreKept (K.is_open keeper.new)) }
    ensures stops { Tells (K.told keeper.old) (K.told keeper.new) (λ _ _. LeavesAmong (K.may_leave keeper.old) (K.may_leave keeper.new)) }
    ensures batch { K.is_open keeper.new ≡ K.is_open keeper.old }
    ensures cause { Causes (has_failed result) (K.faults keeper.old) (K.faults keeper.new) }
{
    match found {
        FoundRecord::Content(digest) => match content(alloc, keeper, digest) {
            Ok(bytes) => Ok(Found::Bytes(bytes)),
            Err(fault) => Err(fault),
        },
        FoundRecord::Absent => Ok(Found::Absent),
        FoundRecord::TooLarge => Ok(Found::TooLarge),
        FoundRecord::Failed => Ok(Found::Failed),
    }
}

/// Reads one file and keeps it. After an `Err` the capture may hold anything of it.
fn keep_file<K: Keeper>(
    alloc: Global,
    keeper: &mut K,
    capture: &mut Capture,
    file: &FileRecord,
) -> Result<(), ReadFault>
    requires kept { IfSome (K.told keeper.old) (AreKept (K.is_open keeper.old)) }
    requires absent { file_at capture.old.files file.now.path ≡ None }
    ensures finds { Tells (K.told keeper.old) (K.told keeper.new) (Finds (λ tables. file_with tables file.now capture.old.files) (filled capture.new.files result)) }
    ensures put { OnOk result ((found : FoundThere) × (capture.new.files ≡ with_file file.now.path found capture.old.files)) }
    ensures others { capture.new ≡ record capture.old { files = capture.new.files } }
    ensures kept { IfSome (K.told keeper.new) (AreKept (K.is_open keeper.new)) }
    ensures stops { Tells (K.told keeper.old) (K.told keeper.new) (λ _ _. LeavesAmong (K.may_leave keeper.old) (K.may_leave keeper.new)) }
    ensures batch { K.is_open keeper.new ≡ K.is_open keeper.old }
    ensures cause { Causes (has_failed result) (K.faults keeper.old) (K.faults keeper.new) }
{
    let found = match read_found(alloc, keeper, &file.found) {
        Ok(found) => found,
        Err(fault) => return Err(fault),
    };
    match capture.keep_file(alloc, file.path.as_str(), &found) {
        Ok(()) => Ok(()),
        Err(_) => Err(ReadFault::Memory),
    }
}

/// Reads the files that were found, in ascending order of their paths, and keeps them. After an `Err` the capture may hold the first of them.
pub(crate) fn keep_files<K: Keeper>(
    alloc: Global,
    keeper: &mut K,
    capture: &mut Capture,
    files: &[FileRecord],
) -> Result<(), ReadFault>
    requires kept { IfSome (K.told keeper.old) (AreKept (K.is_open keeper.old)) }
    requires none { capture.old.files ≡ [] }
    requires ascend { AreAscending files.now }
    ensures finds { Tells (K.told keeper.old) (K.told keeper.new) (Finds (λ tables. files_in tables files.now) (filled capture.new.files result)) }
    ensures others { capture.new ≡ record capture.old { files = capture.new.files } }
    ensures kept { IfSome (K.told keeper.new) (AreKept (K.is_open keeper.new)) }
    ensures stops { Tells (K.told keeper.old) (K.told keeper.new) (λ _ _. LeavesAmong (K.may_leave keeper.old) (K.may_leave keeper.new)) }
    ensures batch { K.is_open keeper.new ≡ K.is_open keeper.old }
    ensures cause { Causes (has_failed result) (K.faults keeper.old) (K.faults keeper.new) }
{
    for file in files {
        if let Err(fault) = keep_file(alloc, keeper, capture, file) {
            return Err(fault);
        }
    }
    Ok(())
}
