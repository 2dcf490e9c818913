// What was planned, delivered.
ghost use Rattle.std.specs.Prelude.{◌≡◌};
ghost use Rattle.delivery.specs.Delivered.{Delivered};
ghost use Rattle.now_top.specs.Planned.{plan_of};

use crate::planned::{Planned, ending_after, ending_without};
use delivery::{Ending, deliver};
use prov_outside::{Console, Folder};
use std::alloc::Global;

/// Puts the files of what was planned, writes its text and a closing line, and answers the status.
pub fn deliver_plan<C: Console, F: Folder>(
    alloc: Global,
    planned: &Planned<'_>,
    console: &mut C,
    folder: &mut F,
) -> u8
    ensures delivered { Delivered (plan_of planned.now).ending (plan_of planned.now).text (plan_of planned.now).files
        (F.put_faults folder.old) (F.put_faults folder.new) (F.told folder.old) (F.told folder.new)
        (C.out_faults console.old) (C.out_faults console.new) (C.told console.old) (C.told console.new) result }
    ensures in_faults { C.in_faults console.new ≡ C.in_faults console.old }
    ensures get_faults { F.get_faults folder.new ≡ F.get_faults folder.old }
    ensures source_faults { F.source_faults folder.new ≡ F.source_faults folder.old }
{
    match planned {
        Planned::Closes(ending) => deliver(alloc, console, folder, *ending, &[], &[]),
        Planned::Text(text) => {
            deliver(alloc, console, folder, Ending::Done, text.as_slice(), &[])
        }
        Planned::DamagedTrial(trial, words) => deliver(
            alloc,
            console,
            folder,
            Ending::DamagedTrial {
                trial: *trial,
                detail: words.as_str(),
            },
            &[],
            &[],
        ),
        Planned::Ran(over) => deliver(
            alloc,
            console,
            folder,
            ending_after(&over.end),
            over.output.as_slice(),
            over.finals.as_slice(),
        ),
        Planned::Unkept(over, fault) => deliver(
            alloc,
            console,
            folder,
            ending_without(*fault),
            over.output.as_slice(),
            &over.finals,
        ),
    }
}
