// The folder: files by path.
ghost use Rattle.std.specs.Prelude.{◌≡◌, Option, ℕ, IfOk};
ghost use Rattle.prov_outside.specs.Count.{Counts};
ghost use Rattle.prov_outside.specs.Tells.{Tells};
ghost use Rattle.prov_outside.specs.Folder.{Files, IsAnswer, Gets, Puts};

use crate::Trouble;
use prov_base::Bytes;
use std::alloc::Global;

/// What was found at a path. A file of more than 16,777,216 bytes is too large. `Failed` is no answer of a folder:
/// it is what a run keeps of a refused `get`.
#[derive(Drop, Debug)]
pub enum Found {
    /// The file's whole content.
    Bytes(Bytes),
    /// No file.
    Absent,
    /// A file of more than 16,777,216 bytes.
    TooLarge,
    /// A refused call.
    Failed,
}

/// Files by path.
pub trait Folder {
    /// What stands at each path, where it tells that.
    ghost told: { Self → Option Files };

    /// How often `get` has failed.
    ghost get_faults: { Self → ℕ };

    /// How often `get_source` has failed.
    ghost source_faults: { Self → ℕ };

    /// How often `put` has failed.
    ghost put_faults: { Self → ℕ };

    /// What stands at the path. The files stay as they are.
    fn get(&mut self, alloc: Global, path: &str) -> Result<Found, Trouble>
        ensures answer { IfOk result IsAnswer }
        ensures found { Tells (told self.old) (told self.new) (Gets path.now result) }
        ensures cause { Counts (get_faults self.old) (get_faults self.new) result }
        ensures source_faults { source_faults self.new ≡ source_faults self.old }
        ensures put_faults { put_faults self.new ≡ put_faults self.old };

    /// As `get`, for a script's own text: its faults have a count of their own.
    fn get_source(&mut self, alloc: Global, path: &str) -> Result<Found, Trouble>
        ensures answer { IfOk result IsAnswer }
        ensures found { Tells (told self.old) (told self.new) (Gets path.now result) }
        ensures cause { Counts (source_faults self.old) (source_faults self.new) result }
        ensures get_faults { get_faults self.new ≡ get_faults self.old }
        ensures put_faults { put_faults self.new ≡ put_faults self.old };

    /// Sets the file at the path. After an `Err` any bytes or none stand there. All other paths stay as they are.
    fn put(&mut self, alloc: Global, path: &str, bytes: &[u8]) -> Result<(), Trouble>
        ensures put { Tells (told self.old) (told self.new) (Puts path.now bytes.now result) }
        ensures cause { Counts (put_faults self.old) (put_faults self.new) result }
        ensures get_faults { get_faults self.new ≡ get_faults self.old }
        ensures source_faults { source_faults self.new ≡ source_faults self.old };
}
