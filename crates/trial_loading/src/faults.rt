// What is amiss of a part of a trial, as a fault of the trial.
ghost use Rattle.std.specs.Prelude.{◌≡◌};
ghost use Rattle.trial_loading.specs.Stages.{of_reading, of_refusal};

use py_parser::Refusal;
use trial_keeping::TrialFault;
use trial_tables::{Damage, ReadFault};

/// What is amiss of a part of the trial with this number.
pub(crate) fn fault_of(number: u32, fault: ReadFault) -> TrialFault
    ensures { result ≡ of_reading number fault }
{
    match fault {
        ReadFault::Damaged(damage) => TrialFault::Damaged(number, damage),
        ReadFault::Keeper => TrialFault::Keeper,
        ReadFault::Memory => TrialFault::Memory,
    }
}

/// That the text of the trial with this number is no script.
pub(crate) fn refusal_of(number: u32, refusal: Refusal) -> TrialFault
    ensures { result ≡ of_refusal number refusal }
{
    match refusal {
        Refusal::At(at) => TrialFault::Damaged(number, Damage::ScriptAt { at }),
        Refusal::Memory => TrialFault::Memory,
    }
}
