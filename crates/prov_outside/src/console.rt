// The console: lines to read, and bytes to write.
ghost use Rattle.std.specs.Prelude.{◌≡◌, Option, ℕ, IfOk, IfSome};
ghost use Rattle.prov_outside.specs.Count.{Counts};
ghost use Rattle.prov_outside.specs.Tells.{Tells};
ghost use Rattle.prov_outside.specs.Console.{ConsoleView, IsLine, ReadsLine, Writes};

use crate::Trouble;
use prov_base::Bytes;
use std::alloc::Global;

/// Lines that come in, and bytes that go out.
pub trait Console {
    /// The lines left and the bytes written, where it tells them.
    ghost told: { Self → Option ConsoleView };

    /// How often `read_line` has failed.
    ghost in_faults: { Self → ℕ };

    /// How often `write` has failed.
    ghost out_faults: { Self → ℕ };

    /// The next line without its LF, or `None` where no line is left. After an `Err` the lines are as before.
    fn read_line(&mut self, alloc: Global) -> Result<Option<Bytes>, Trouble>
        ensures line { Tells (told self.old) (told self.new) (ReadsLine result) }
        ensures cause { Counts (in_faults self.old) (in_faults self.new) result }
        ensures others { out_faults self.new ≡ out_faults self.old }
        ensures no_lf { IfOk result (λ line. IfSome line IsLine) };

    /// Writes all the bytes. After an `Err` a prefix of them was written.
    fn write(&mut self, alloc: Global, bytes: &[u8]) -> Result<(), Trouble>
        ensures written { Tells (told self.old) (told self.new) (Writes bytes.now result) }
        ensures cause { Counts (out_faults self.old) (out_faults self.new) result }
        ensures others { in_faults self.new ≡ in_faults self.old };
}
