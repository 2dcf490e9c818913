// The program: the top call over the real console, the current folder, the system's clock and random words, and the store of trials in the current folder. Its
// exit status is the call's.
#![tactic(auto)]

ghost use Rattle.std.specs.Prelude.{◌≡◌, false, IfOk};

use answer_source::Devices;
use keeper::Keeper;
use keeper_sqlite::SqliteKeeper;
use now_top::now;
use prov_base::Name;
use prov_outside::Console;
use prov_real::{RealClockAndRandom, RealConsole, RealFolder};
use std::alloc::AllocError;
use std::process::ExitCode;
use std::{env, io};

/// The words behind the program's name.
fn words(rt: &HostRuntime) -> io::Result<Vec<String>> {
    Ok(env::args(rt)?.skip(1).collect(rt.alloc())?)
}

/// The store of trials in the current folder, which nothing opens before its first call.
fn store<'a>(rt: &'a HostRuntime) -> Result<SqliteKeeper<'a>, AllocError>
    ensures { IfOk result (λ keeper. ⟦<SqliteKeeper<'a> as Keeper>⟧.is_open keeper ≡ false) }
{
    let path = String::from_str(rt.alloc(), ".noworkflow/db.sqlite")?;
    Ok(SqliteKeeper::at(rt, Name::of(path)))
}

/// The end of the program for lack of memory. The status stands, whether its line comes through or not.
fn out_of_memory(rt: &HostRuntime, console: &mut RealConsole<'_>) -> ExitCode {
    let _ = console.write(rt.alloc(), b"now: out of memory\n");
    ExitCode::from(8)
}

fn main(rt: HostRuntime) -> ExitCode {
    let mut console = RealConsole::new(&rt);
    let words = match words(&rt) {
        Ok(words) => words,
        Err(error) if error.kind() == io::ErrorKind::OutOfMemory => {
            return out_of_memory(&rt, &mut console);
        }
        // Words that are no text are no command, and neither are none.
        Err(_) => Vec::new(rt.alloc()),
    };
    let Ok(mut keeper) = store(&rt) else {
        return out_of_memory(&rt, &mut console);
    };
    let devices = Devices {
        console,
        folder: RealFolder::new(&rt),
        moments: RealClockAndRandom::new(&rt),
    };
    let (status, _) = now(rt.alloc(), &words, devices, &mut keeper);
    ExitCode::from(status)
}
