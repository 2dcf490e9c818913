// Why a trial is not kept, or not loaded.
ghost use Rattle.std.specs.Prelude.{◌≡◌};
ghost use Rattle.trial_keeping.specs.Fault.{of_keeper, of_writing};

use keeper::KeepFault;
use prov_base::Digest;
use trial_tables::{Damage, WriteFault};

/// Why a trial is not kept, or not loaded.
#[derive(Clone, Copy, Debug)]
pub enum TrialFault {
    /// There is no trial with this number.
    NoTrial(u32),
    /// The trial with this number is not well kept.
    Damaged(u32, Damage),
    /// The keeper failed, and has counted that.
    Keeper,
    /// Other bytes stand under the digest of one of the trial's contents.
    Collision {
        /// The digest of the given bytes.
        digest: Digest,
        /// How many bytes stand under it.
        kept_len: u64,
        /// How many bytes were given.
        given_len: u64,
    },
    /// The store has 1,000,000 trials or more.
    Full,
    /// Memory ran out.
    Memory,
}

impl From<KeepFault> for TrialFault {
    ghost from_gives = { λ fault given. given ≡ of_keeper fault };

    fn from(fault: KeepFault) -> Self {
        match fault {
            KeepFault::Failed => TrialFault::Keeper,
            KeepFault::Memory => TrialFault::Memory,
        }
    }
}

impl From<WriteFault> for TrialFault {
    ghost from_gives = { λ fault given. given ≡ of_writing fault };

    fn from(fault: WriteFault) -> Self {
        match fault {
            WriteFault::Collision {
                digest,
                kept_len,
                given_len,
            } => TrialFault::Collision {
                digest,
                kept_len,
                given_len,
            },
            WriteFault::Keeper => TrialFault::Keeper,
            WriteFault::Memory => TrialFault::Memory,
        }
    }
}
