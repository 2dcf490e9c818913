// The current folder of the process. A path is handed to the system as it is given, so a relative one is looked up
// from where the user stands.
ghost use Rattle.std.specs.Prelude.{◌≡◌, None, IfOk, IfErr};
ghost use Rattle.prov_outside.specs.declared.trouble.Trouble.TheVariants.{Failed};
ghost use Rattle.prov_outside.specs.Folder.{IsAnswer};

use crate::faults::counted;
use crate::stream::{read_whole, write_whole};
use prov_outside::{Folder, Found, Trouble};
use std::alloc::Global;
use std::fs;
use std::io::ErrorKind;

/// The current folder. It tells nothing of what stands in it, and counts the faults of each of its calls.
#[derive(Drop)]
pub struct RealFolder<'a> {
    rt: &'a HostRuntime,
    get_faults: u64,
    source_faults: u64,
    put_faults: u64,
}

impl<'a> RealFolder<'a> {
    /// The current folder, with no fault so far. It opens nothing and takes no memory.
    pub fn new(rt: &'a HostRuntime) -> RealFolder<'a>
        ensures get_faults { ⟦<RealFolder<'a> as Folder>⟧.get_faults result ≡ 0 }
        ensures source_faults { ⟦<RealFolder<'a> as Folder>⟧.source_faults result ≡ 0 }
        ensures put_faults { ⟦<RealFolder<'a> as Folder>⟧.put_faults result ≡ 0 }
    {
        RealFolder {
            rt,
            get_faults: 0,
            source_faults: 0,
            put_faults: 0,
        }
    }
}

impl Folder for RealFolder<'_> {
    ghost told = { λ _. None };

    ghost get_faults = { λ folder. folder.get_faults };

    ghost source_faults = { λ folder. folder.source_faults };

    ghost put_faults = { λ folder. folder.put_faults };

    fn get(&mut self, alloc: Global, path: &str) -> Result<Found, Trouble> {
        let found = find(self.rt, alloc, path);
        counted(&mut self.get_faults, found)
    }

    fn get_source(&mut self, alloc: Global, path: &str) -> Result<Found, Trouble> {
        let found = find(self.rt, alloc, path);
        counted(&mut self.source_faults, found)
    }

    /// Makes the file or empties it, and writes the bytes. It makes no folder: below one that is not there it fails.
    /// It takes no memory.
    fn put(&mut self, _alloc: Global, path: &str, bytes: &[u8]) -> Result<(), Trouble> {
        let written = overwrite(self.rt, path, bytes);
        counted(&mut self.put_faults, written)
    }
}

/// What stands at the path. A file that is not there is absent, also below a folder that is not there. Every other
/// error of the system is a fault. That memory ran out is one too where the system says so: only an own `Vec` that
/// was refused is out of memory, and opening takes none.
fn find(rt: &HostRuntime, alloc: Global, path: &str) -> Result<Found, Trouble>
    ensures { IfOk result IsAnswer }
{
    match fs::open(rt, path) {
        Ok(mut file) => read_whole(alloc, &mut file),
        Err(error) if error.kind() == ErrorKind::NotFound => Ok(Found::Absent),
        Err(_) => Err(Trouble::Failed),
    }
}

/// Makes the file or empties it, and writes the bytes.
fn overwrite(rt: &HostRuntime, path: &str, bytes: &[u8]) -> Result<(), Trouble>
    ensures { IfErr result (λ trouble. trouble ≡ Failed) }
{
    match fs::create(rt, path) {
        Ok(mut file) => write_whole(&mut file, bytes),
        Err(_) => Err(Trouble::Failed),
    }
}
