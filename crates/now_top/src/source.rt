// The reading of FILE.
ghost use Rattle.std.specs.Prelude.{◌≡◌};
ghost use Rattle.prov_outside.specs.Tells.{Tells};
ghost use Rattle.now_top.specs.Reading.{ReadsFile, read_as};

use delivery::Ending;
use prov_base::{Bytes, is_path};
use prov_outside::{Folder, Found, Trouble};
use std::alloc::Global;

/// The text that stands at FILE, or how the command ends where there is none. The folder is asked once, and only for a path.
pub fn read_source<'w, F: Folder>(
    alloc: Global,
    file: &'w str,
    folder: &mut F,
) -> Result<Bytes, Ending<'w>>
    ensures read { ReadsFile file.now (F.told folder.new) (F.source_faults folder.old) (F.source_faults folder.new) (read_as result) }
    ensures files { Tells (F.told folder.old) (F.told folder.new) (λ before after. after ≡ before) }
    ensures get_faults { F.get_faults folder.new ≡ F.get_faults folder.old }
    ensures put_faults { F.put_faults folder.new ≡ F.put_faults folder.old }
{
    if !is_path(file) {
        return Err(Ending::NothingThere);
    }
    match folder.get_source(alloc, file) {
        Ok(Found::Bytes(text)) => Ok(text),
        Ok(Found::Absent) => Err(Ending::NothingThere),
        Ok(Found::TooLarge) => Err(Ending::Refused {
            file,
            line: 1,
            column: 1,
        }),
        Ok(Found::Failed) => unreachable!(),
        Err(Trouble::Failed) => Err(Ending::FolderFailed(file)),
        Err(Trouble::Memory) => Err(Ending::OutOfMemory),
    }
}
