// What the words ask for, worked out before anything is delivered.
ghost use Rattle.std.specs.Prelude.{◌≡◌, false, None, Option, option_map};
ghost use Rattle.now_words.specs.Command.{Command as Given};
ghost use Rattle.now_words.specs.Parsed.{command_of_code};
ghost use Rattle.now_top.specs.Kept.{stored};
ghost use Rattle.now_top.specs.Planned.{plan_of};
ghost use Rattle.now_top.specs.Replies.{PlansWith};
ghost use Rattle.now_top.specs.Restored.{restored};

use crate::asking::answer_query;
use crate::kept::plan_kept;
use crate::planned::Planned;
use crate::run::plan_run;
use answer_source::{Devices, Exposes};
use delivery::Ending;
use keeper::Keeper;
use now_words::Command;
use prov_outside::{ClockAndRandom, Console, Folder};
use std::alloc::Global;

/// What a command asks for over the devices, which it gives back; a run that is to be kept is kept, and what is read of the store is read. Nothing is written, and no file is put.
/// The command restores no trial.
pub fn plan<'w, K: Keeper, C: Console + Drop, F: Folder + Drop, M: ClockAndRandom + Drop>(
    alloc: Global,
    command: Option<Command<'w>>,
    devices: Devices<C, F, M>,
    keeper: &mut K,
) -> (Planned<'w>, Devices<C, F, M>)
    requires batch { K.is_open keeper.old ≡ false }
    requires other { restored (option_map command_of_code command) ≡ None }
    ensures plans { (given : Option Given) → option_map command_of_code command.entry ≡ given → PlansWith given (⟦<Devices<C, F, M> as Exposes>⟧.seen devices) (⟦<Devices<C, F, M> as Exposes>⟧.seen result.1) (stored K.told K.faults keeper.old) (stored K.told K.faults keeper.new) (K.may_leave keeper.old) (K.may_leave keeper.new) (plan_of result.0) }
    ensures batch { K.is_open keeper.new ≡ false }
{
    match command {
        Some(
            Command::RunBare {
                file,
                steps,
                arguments,
            },
        ) => plan_run(alloc, file, steps, &arguments, devices),
        Some(
            Command::RunKept {
                file,
                steps,
                arguments,
            },
        ) => plan_kept(alloc, keeper, file, steps, &arguments, devices),
        Some(Command::Reads(query)) => (answer_query(alloc, keeper, query), devices),
        Some(Command::Restores(_)) => unreachable!(),
        None => (Planned::Closes(Ending::Usage), devices),
    }
}
