// The console of the process: standard input for lines, standard output for all that is written. Nothing goes to
// standard error.
ghost use Rattle.std.specs.Prelude.{◌≡◌, None};

use crate::faults::counted;
use crate::lines::Unread;
use crate::stream::write_whole;
use prov_base::Bytes;
use prov_outside::{Console, Trouble};
use std::alloc::Global;

/// Standard input and standard output. It tells nothing of what they give and take, and counts the faults of each.
///
/// Standard input is read in pieces of up to 4,096 bytes. What lies behind a line waits in this value for the next
/// call, so one such value serves a whole run, and nothing beside it reads standard input. Standard output has no
/// buffer: each `write` goes to the system at once, and has reached it at `Ok`.
#[derive(Drop)]
pub struct RealConsole<'a> {
    rt: &'a HostRuntime,
    unread: Unread,
    in_faults: u64,
    out_faults: u64,
}

impl<'a> RealConsole<'a> {
    /// The console of this process, with no fault so far. It opens nothing and takes no memory.
    pub fn new(rt: &'a HostRuntime) -> RealConsole<'a>
        ensures in_faults { ⟦<RealConsole<'a> as Console>⟧.in_faults result ≡ 0 }
        ensures out_faults { ⟦<RealConsole<'a> as Console>⟧.out_faults result ≡ 0 }
    {
        RealConsole {
            rt,
            unread: Unread::new(rt.alloc()),
            in_faults: 0,
            out_faults: 0,
        }
    }
}

impl Console for RealConsole<'_> {
    ghost told = { λ _. None };

    ghost in_faults = { λ console. console.in_faults };

    ghost out_faults = { λ console. console.out_faults };

    /// The next line of standard input. Its last line may lack its LF. A line of more than 1,048,576 bytes is a fault,
    /// and so is every error of the system. After an `Err` the next call goes on with the same line.
    fn read_line(&mut self, alloc: Global) -> Result<Option<Bytes>, Trouble> {
        let line = self.unread.next_line(alloc, &mut self.rt.stdin());
        counted(&mut self.in_faults, line)
    }

    /// Writes all the bytes to standard output. An error of the system is a fault, and so is a piece of which it takes
    /// nothing. It takes no memory.
    fn write(&mut self, _alloc: Global, bytes: &[u8]) -> Result<(), Trouble> {
        let written = write_whole(&mut self.rt.stdout(), bytes);
        counted(&mut self.out_faults, written)
    }
}
