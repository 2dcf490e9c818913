// Why a part of a trial is not read.
ghost use Rattle.std.specs.Prelude.{◌≡◌};
ghost use Rattle.trial_tables.specs.ReadFault.{of_keeper};

use crate::damage::Damage;
use keeper::KeepFault;

/// Why a part of a trial is not read.
#[derive(Clone, Copy, Debug)]
pub enum ReadFault {
    /// The trial is not well kept.
    Damaged(Damage),
    /// The keeper failed, and has counted that.
    Keeper,
    /// Memory ran out.
    Memory,
}

impl From<KeepFault> for ReadFault {
    ghost from_gives = { λ fault given. given ≡ of_keeper fault };

    fn from(fault: KeepFault) -> Self {
        match fault {
            KeepFault::Failed => ReadFault::Keeper,
            KeepFault::Memory => ReadFault::Memory,
        }
    }
}
