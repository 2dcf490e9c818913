// What a command comes to before anything is delivered.
ghost use Rattle.std.specs.Prelude.{◌≡◌};
ghost use Rattle.delivery.specs.Ending.{ending_of};
ghost use Rattle.now_top.specs.Planned.{ending_told};
ghost use Rattle.now_top.specs.Unkept.{ending_without as ending_of_fault};

use capture::{Ended, RunEnd};
use delivery::Ending;
use prov_base::Bytes;
use trial_keeping::TrialFault;

/// What a command comes to.
#[derive(Drop)]
pub enum Planned<'w> {
    /// A closing line alone.
    Closes(Ending<'w>),
    /// A text that was read of the store.
    Text(Bytes),
    /// A trial that is not well kept: its number, and what is amiss of it, in words.
    DamagedTrial(u32, String),
    /// A run that is over, and kept where it is to be.
    Ran(Ended),
    /// A run that is over and could not be kept.
    Unkept(Ended, TrialFault),
}

/// How the command ends after a run.
pub fn ending_after(end: &RunEnd) -> Ending<'_>
    ensures { ending_of result ≡ ending_told end.now }
{
    match end {
        RunEnd::Finished => Ending::Done,
        RunEnd::Raised { class, line, text } => Ending::Uncaught {
            class: class.as_str(),
            line: *line,
            text: text.as_ref().map(|words| words.as_str()),
        },
        RunEnd::Spent => Ending::OutOfSteps,
    }
}

/// How the command ends where its run is not kept for this fault.
pub fn ending_without<'w>(fault: TrialFault) -> Ending<'w>
    ensures { ending_of result ≡ ending_of_fault fault }
{
    match fault {
        TrialFault::Keeper => Ending::StoreFailed,
        TrialFault::Collision {
            digest,
            kept_len,
            given_len,
        } => Ending::Collision {
            digest,
            kept: kept_len,
            given: given_len,
        },
        TrialFault::Full => Ending::StoreFull,
        TrialFault::Memory => Ending::OutOfMemory,
        TrialFault::NoTrial(_) | TrialFault::Damaged(..) => Ending::StoreFailed,
    }
}
