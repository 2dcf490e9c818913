//! What the program meets outside itself, as traits: a console, a folder, and a clock with random words. Each says by ghost members what it tells
//! of itself and how often each of its calls has failed, so that a call which fails must show a fault that was counted.
//! (One that runs out of memory says so, and shows none.) The memory forms tell all that they hold, number their calls, and fail exactly at the numbers that they
//! were given.
#![tactic(auto)]

mod calls;
mod clock_and_random;
mod console;
mod folder;
mod memory_clock_and_random;
mod memory_console;
mod memory_folder;
mod trouble;

pub use calls::Calls;
pub use clock_and_random::ClockAndRandom;
pub use console::Console;
pub use folder::{Folder, Found};
pub use memory_clock_and_random::MemoryClockAndRandom;
pub use memory_console::MemoryConsole;
pub use memory_folder::MemoryFolder;
pub use trouble::Trouble;
