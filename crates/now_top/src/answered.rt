// The words, read, and what they ask for, done.
ghost use Rattle.std.specs.Prelude.{◌≡◌, ℕ, false, List, None, Some, Option, map, option_map};
ghost use Rattle.std.specs.String.{string_bytes};
ghost use Rattle.now_words.specs.Command.{command_of, restores};
ghost use Rattle.now_words.specs.Parsed.{command_of_code};
ghost use Rattle.now_top.specs.Kept.{stored};
ghost use Rattle.now_top.specs.Replies.{RepliesWith};
ghost use Rattle.now_top.specs.Restored.{RestoresWith, restored};

use crate::deliver::deliver_plan;
use crate::plan::plan;
use crate::planned::Planned;
use crate::restored::restore_trial;
use answer_source::{Devices, Exposes};
use delivery::Ending;
use keeper::Keeper;
use now_words::{Command, read};
use prov_base::Memory;
use prov_outside::{ClockAndRandom, Console, Folder};
use std::alloc::Global;

/// The number of the trial that the command restores, if it restores one.
fn restored_by(command: &Option<Command<'_>>) -> Option<u32>
    ensures { result ≡ restored (option_map command_of_code command.now) }
{
    match command {
        Some(Command::Restores(number)) => Some(*number),
        Some(Command::RunBare { .. }) => None,
        Some(Command::RunKept { .. }) => None,
        Some(Command::Reads(_)) => None,
        None => None,
    }
}

/// Drops a command.
fn drop_command(command: Option<Command<'_>>) {
    let _ = command;
}

/// Closes with out of memory, before anything was done.
fn close_short<C: Console + Drop, F: Folder + Drop, M: ClockAndRandom + Drop, K: Keeper>(
    alloc: Global,
    mut devices: Devices<C, F, M>,
    keeper: &K,
) -> (u8, Devices<C, F, M>)
    ensures reply { (words : List (List ℕ)) → RepliesWith words (⟦<Devices<C, F, M> as Exposes>⟧.seen devices) (⟦<Devices<C, F, M> as Exposes>⟧.seen result.1) (stored K.told K.faults keeper.now) (stored K.told K.faults keeper.now) (K.may_leave keeper.now) (K.may_leave keeper.now) result.0 }
    ensures restores { (number : ℕ) → RestoresWith number (⟦<Devices<C, F, M> as Exposes>⟧.seen devices) (⟦<Devices<C, F, M> as Exposes>⟧.seen result.1) (stored K.told K.faults keeper.now) (stored K.told K.faults keeper.now) (K.may_leave keeper.now) (K.may_leave keeper.now) result.0 }
{
    let planned = Planned::Closes(Ending::OutOfMemory);
    let status = deliver_plan(alloc, &planned, &mut devices.console, &mut devices.folder);
    (status, devices)
}

/// Does what a command asks for that restores no trial, and answers the status.
fn reply<'w, C: Console + Drop, F: Folder + Drop, M: ClockAndRandom + Drop, K: Keeper>(
    alloc: Global,
    command: Option<Command<'w>>,
    devices: Devices<C, F, M>,
    keeper: &mut K,
) -> (u8, Devices<C, F, M>)
    requires batch { K.is_open keeper.old ≡ false }
    requires other { restored (option_map command_of_code command) ≡ None }
    ensures reply { (words : List (List ℕ)) → option_map command_of_code command.entry ≡ command_of words → RepliesWith words (⟦<Devices<C, F, M> as Exposes>⟧.seen devices) (⟦<Devices<C, F, M> as Exposes>⟧.seen result.1) (stored K.told K.faults keeper.old) (stored K.told K.faults keeper.new) (K.may_leave keeper.old) (K.may_leave keeper.new) result.0 }
    ensures batch { K.is_open keeper.new ≡ false }
{
    let (planned, mut devices) = plan(alloc, command, devices, keeper);
    let status = deliver_plan(alloc, &planned, &mut devices.console, &mut devices.folder);
    (status, devices)
}

/// Does what the words ask for over the devices and the store of trials, gives the devices back, and answers the status.
pub fn answer<C: Console + Drop, F: Folder + Drop, M: ClockAndRandom + Drop, K: Keeper>(
    alloc: Global,
    words: &[String],
    devices: Devices<C, F, M>,
    keeper: &mut K,
) -> (u8, Devices<C, F, M>)
    requires batch { K.is_open keeper.old ≡ false }
    ensures reply { restored (command_of (map string_bytes words.now)) ≡ None → RepliesWith (map string_bytes words.now) (⟦<Devices<C, F, M> as Exposes>⟧.seen devices) (⟦<Devices<C, F, M> as Exposes>⟧.seen result.1) (stored K.told K.faults keeper.old) (stored K.told K.faults keeper.new) (K.may_leave keeper.old) (K.may_leave keeper.new) result.0 }
    ensures restores { (number : ℕ) → command_of (map string_bytes words.now) ≡ Some (restores number) → RestoresWith number (⟦<Devices<C, F, M> as Exposes>⟧.seen devices) (⟦<Devices<C, F, M> as Exposes>⟧.seen result.1) (stored K.told K.faults keeper.old) (stored K.told K.faults keeper.new) (K.may_leave keeper.old) (K.may_leave keeper.new) result.0 }
    ensures batch { K.is_open keeper.new ≡ false }
{
    let command = match read(alloc, words) {
        Ok(command) => command,
        Err(Memory) => return close_short(alloc, devices, keeper),
    };
    match restored_by(&command) {
        Some(number) => {
            drop_command(command);
            restore_trial(alloc, keeper, number, devices)
        }
        None => reply(alloc, command, devices, keeper),
    }
}
