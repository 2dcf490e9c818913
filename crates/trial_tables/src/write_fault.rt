// Why a trial is not written.
ghost use Rattle.std.specs.Prelude.{◌≡◌};
ghost use Rattle.trial_tables.specs.WriteFault.{of_keeper, of_content};

use content_store::ContentFault;
use keeper::KeepFault;
use prov_base::Digest;

/// Why a trial is not written.
#[derive(Clone, Copy, Debug)]
pub enum WriteFault {
    /// Other bytes stand under the digest of one of its contents.
    Collision {
        /// The digest of the given bytes.
        digest: Digest,
        /// How many bytes stand under it.
        kept_len: u64,
        /// How many bytes were given.
        given_len: u64,
    },
    /// The keeper failed, and has counted that.
    Keeper,
    /// Memory ran out.
    Memory,
}

impl From<KeepFault> for WriteFault {
    ghost from_gives = { λ fault given. given ≡ of_keeper fault };

    fn from(fault: KeepFault) -> Self {
        match fault {
            KeepFault::Failed => WriteFault::Keeper,
            KeepFault::Memory => WriteFault::Memory,
        }
    }
}

impl From<ContentFault> for WriteFault {
    ghost from_gives = { λ fault given. given ≡ of_content fault };

    fn from(fault: ContentFault) -> Self {
        match fault {
            ContentFault::Collision {
                digest,
                kept_len,
                given_len,
            } => WriteFault::Collision {
                digest,
                kept_len,
                given_len,
            },
            ContentFault::Keeper => WriteFault::Keeper,
            ContentFault::Memory => WriteFault::Memory,
        }
    }
}
