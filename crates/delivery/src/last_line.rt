// The closing line, written, and the status by it.
ghost use Rattle.std.specs.Prelude.{◌≡◌, ◌≤◌, true, IfOk};
ghost use Rattle.std.specs.String.{string_bytes};
ghost use Rattle.delivery.specs.Ending.{Ending as Meant, ending_of, status_of, closing_line};
ghost use Rattle.delivery.specs.Shown.{has_line, is_made};
ghost use Rattle.delivery.specs.Stages.{TriesLine, ClosesWith, status_with};

use crate::Ending;
use crate::lines::{collision_line, damaged_line, folder_failed_line, refused_line, uncaught_line};
use prov_outside::{Console, Trouble};
use std::alloc::{AllocError, Global};

/// The closing line of status 8.
const OUT_OF_MEMORY: &[u8] = b"now: out of memory\n";

/// Writes the closing line of the ending, if it has one, and answers the status.
pub(crate) fn close<C: Console>(alloc: Global, console: &mut C, ending: Ending<'_>) -> u8
    ensures closes { ClosesWith (ending_of ending.entry) (C.out_faults console.old) (C.out_faults console.new)
        (C.told console.old) (C.told console.new) result }
    ensures never_falls { C.out_faults console.old ≤ C.out_faults console.new }
    ensures in_faults { C.in_faults console.new ≡ C.in_faults console.old }
{
    match ending {
        Ending::Done => 0,
        Ending::Uncaught { class, line, text } => {
            close_made(alloc, console, uncaught_line(alloc, class, line, text), 1)
        }
        Ending::Usage => write_line(alloc, console, b"now: usage\n", 2),
        Ending::Refused { file, line, column } => {
            close_made(alloc, console, refused_line(alloc, file, line, column), 3)
        }
        Ending::NothingThere => write_line(alloc, console, b"now: nothing there\n", 4),
        Ending::FolderFailed(path) => {
            close_made(alloc, console, folder_failed_line(alloc, path), 6)
        }
        Ending::StoreFailed => write_line(alloc, console, b"now: store failed\n", 7),
        Ending::OutOfMemory => write_line(alloc, console, OUT_OF_MEMORY, 8),
        Ending::OutOfSteps => write_line(alloc, console, b"now: out of steps\n", 9),
        Ending::NotReached => write_line(alloc, console, b"now: not reached\n", 12),
        Ending::Collision {
            digest,
            kept,
            given,
        } => close_made(
            alloc,
            console,
            collision_line(alloc, digest, kept, given),
            10,
        ),
        Ending::DamagedTrial { trial, detail } => {
            close_made(alloc, console, damaged_line(alloc, trial, detail), 11)
        }
        Ending::StoreFull => write_line(alloc, console, b"now: store full\n", 13),
    }
}

/// Closes with a line that had to be made: where memory ran out for it, with that of status 8.
fn close_made<C: Console>(
    alloc: Global,
    console: &mut C,
    line: Result<String, AllocError>,
    status: u8,
) -> u8
    ensures closes { (ending : Meant) → IfOk line (λ made. string_bytes made ≡ closing_line ending) → status ≡ status_of ending
        → has_line ending ≡ true → is_made ending ≡ true
        → ClosesWith ending (C.out_faults console.old) (C.out_faults console.new) (C.told console.old) (C.told console.new) result }
    ensures never_falls { C.out_faults console.old ≤ C.out_faults console.new }
    ensures in_faults { C.in_faults console.new ≡ C.in_faults console.old }
{
    match line {
        Ok(line) => write_line(alloc, console, line.as_bytes(), status),
        Err(_) => write_line(alloc, console, OUT_OF_MEMORY, 8),
    }
}

/// Writes a closing line, and answers the status: a console that fails at it changes none, and out of memory makes it 8.
fn write_line<C: Console>(alloc: Global, console: &mut C, line: &[u8], status: u8) -> u8
    ensures tries { TriesLine line.now status (C.out_faults console.old) (C.out_faults console.new)
        (C.told console.old) (C.told console.new) result }
    ensures never_falls { C.out_faults console.old ≤ C.out_faults console.new }
    ensures in_faults { C.in_faults console.new ≡ C.in_faults console.old }
{
    let outcome = console.write(alloc, line);
    status_behind(status, outcome)
}

/// The status behind a closing line that was tried.
fn status_behind(status: u8, outcome: Result<(), Trouble>) -> u8
    ensures { result ≡ status_with status outcome }
{
    match outcome {
        Ok(()) => status,
        Err(Trouble::Failed) => status,
        Err(Trouble::Memory) => 8,
    }
}
