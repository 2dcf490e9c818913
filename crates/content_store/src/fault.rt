// Why a content was not put.
ghost use Rattle.std.specs.Prelude.{◌≡◌};
ghost use Rattle.content_store.specs.Fault.{fault_of};

use keeper::KeepFault;
use prov_base::Digest;

/// Why a content was not put.
#[derive(Clone, Copy, Debug)]
pub enum ContentFault {
    /// Other bytes stand under the digest.
    Collision {
        /// The digest of the given bytes.
        digest: Digest,
        /// How many bytes stand under it.
        kept_len: u64,
        /// How many bytes were given.
        given_len: u64,
    },
    /// The keeper failed, and has counted that.
    Keeper,
    /// Memory ran out.
    Memory,
}

impl From<KeepFault> for ContentFault {
    ghost from_gives = { λ fault given. given ≡ fault_of fault };

    fn from(fault: KeepFault) -> Self {
        match fault {
            KeepFault::Failed => ContentFault::Keeper,
            KeepFault::Memory => ContentFault::Memory,
        }
    }
}
