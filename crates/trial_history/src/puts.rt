// The files of a trial, put into a folder.
ghost use Rattle.std.specs.Prelude.{◌≡◌, ◌≤◌, [], ◌∷◌, ◌++◌, Err, IfOk, OnErr, OnOk};
ghost use Rattle.std.specs.String.{string_bytes};
ghost use Rattle.prov_outside.specs.Tells.{Tells};
ghost use Rattle.trial_history.specs.Puts.{Answers, Puts, restored_line, refused};
ghost use Rattle.trial_history.specs.Restoring.{found_files};
ghost use Rattle.prov_outside.specs.declared.trouble.Trouble.TheVariants.{Failed as folder_failed};

use crate::fault::RestoreFault;
use prov_base::Name;
use prov_outside::{Folder, Found, Trouble};
use std::alloc::{AllocError, Global};
use trial_keeping::TrialFault;

/// The line that tells of a file.
fn restored_text(alloc: Global, path: &str) -> Result<String, AllocError>
    ensures { IfOk result (λ line. string_bytes line ≡ restored_line path.now) }
{
    format!(in alloc; "restored {path}\n")
}

/// Tells of a file. After an `Err` nothing more is told.
fn tell(told: &mut Vec<u8>, alloc: Global, path: &str) -> Result<(), AllocError>
    ensures tells { OnOk result (told.new.items ≡ told.old.items ++ restored_line path.now) }
    ensures err { OnErr result (told.new.items ≡ told.old.items) }
{
    let line = match restored_text(alloc, path) {
        Ok(line) => line,
        Err(fault) => return Err(fault),
    };
    told.extend_from_slice(line.as_bytes())
}

/// That the folder failed at this path, or that memory ran out for the path.
fn failed_at(alloc: Global, path: &str) -> RestoreFault
    ensures { Answers (refused path.now folder_failed) (Err result) }
{
    match String::from_str(alloc, path) {
        Ok(text) => RestoreFault::Folder(Name::of(text)),
        Err(_) => RestoreFault::Trial(TrialFault::Memory),
    }
}

/// What is answered where the put of the file at this path was refused.
fn refusal(alloc: Global, path: &str, trouble: Trouble) -> Result<(), RestoreFault>
    ensures { Answers (refused path.now trouble) result }
{
    match trouble {
        Trouble::Failed => Err(failed_at(alloc, path)),
        Trouble::Memory => Err(RestoreFault::Trial(TrialFault::Memory)),
    }
}

/// Puts one file, and tells of it. It is told of before it is put, so that memory cannot run out behind its put; a refused put takes its line back.
fn put_file<F: Folder>(
    alloc: Global,
    folder: &mut F,
    told: &mut Vec<u8>,
    path: &str,
    bytes: &[u8],
) -> Result<(), RestoreFault>
    ensures puts { Puts ((path.now, bytes.now) ∷ []) result told.old.items told.new.items (F.put_faults folder.old) (F.put_faults folder.new) (F.told folder.old) (F.told folder.new) }
    ensures put_faults { F.put_faults folder.old ≤ F.put_faults folder.new }
    ensures get_faults { F.get_faults folder.new ≡ F.get_faults folder.old }
    ensures source_faults { F.source_faults folder.new ≡ F.source_faults folder.old }
{
    let before = told.len();
    if tell(told, alloc, path).is_err() {
        return Err(RestoreFault::Trial(TrialFault::Memory));
    }
    match folder.put(alloc, path, bytes) {
        Ok(()) => Ok(()),
        Err(trouble) => {
            told.truncate(before);
            refusal(alloc, path, trouble)
        }
    }
}

/// Puts a file that a run looked for, if it was found with bytes, and tells of it.
fn put_found<F: Folder>(
    alloc: Global,
    folder: &mut F,
    told: &mut Vec<u8>,
    path: &Name,
    found: &Found,
) -> Result<(), RestoreFault>
    ensures puts { Puts (found_files ((path.now, found.now) ∷ [])) result told.old.items told.new.items (F.put_faults folder.old) (F.put_faults folder.new) (F.told folder.old) (F.told folder.new) }
    ensures put_faults { F.put_faults folder.old ≤ F.put_faults folder.new }
    ensures get_faults { F.get_faults folder.new ≡ F.get_faults folder.old }
    ensures source_faults { F.source_faults folder.new ≡ F.source_faults folder.old }
{
    match found {
        Found::Bytes(bytes) => put_file(alloc, folder, told, path.as_str(), bytes.as_slice()),
        Found::Absent => Ok(()),
        Found::TooLarge => Ok(()),
        Found::Failed => Ok(()),
    }
}

/// Puts each file that was found with bytes, in their order, up to the first that is refused.
fn put_inputs<F: Folder>(
    alloc: Global,
    folder: &mut F,
    told: &mut Vec<u8>,
    files: &[(Name, Found)],
) -> Result<(), RestoreFault>
    ensures puts { Puts (found_files files.now) result told.old.items told.new.items (F.put_faults folder.old) (F.put_faults folder.new) (F.told folder.old) (F.told folder.new) }
    ensures put_faults { F.put_faults folder.old ≤ F.put_faults folder.new }
    ensures get_faults { F.get_faults folder.new ≡ F.get_faults folder.old }
    ensures source_faults { F.source_faults folder.new ≡ F.source_faults folder.old }
{
    for file in files {
        if let Err(fault) = put_found(alloc, folder, told, &file.0, &file.1) {
            return Err(fault);
        }
    }
    Ok(())
}

/// Puts a script at its path, and then each file that was found with bytes, in their order, up to the first put that is refused.
pub(crate) fn put_files<F: Folder>(
    alloc: Global,
    folder: &mut F,
    told: &mut Vec<u8>,
    path: &str,
    text: &[u8],
    files: &[(Name, Found)],
) -> Result<(), RestoreFault>
    ensures puts { Puts ((path.now, text.now) ∷ found_files files.now) result told.old.items told.new.items (F.put_faults folder.old) (F.put_faults folder.new) (F.told folder.old) (F.told folder.new) }
    ensures put_faults { F.put_faults folder.old ≤ F.put_faults folder.new }
    ensures get_faults { F.get_faults folder.new ≡ F.get_faults folder.old }
    ensures source_faults { F.source_faults folder.new ≡ F.source_faults folder.old }
{
    if let Err(fault) = put_file(alloc, folder, told, path, text) {
        return Err(fault);
    }
    put_inputs(alloc, folder, told, files)
}
