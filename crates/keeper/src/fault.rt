// Why a call of a keeper was refused.
ghost use Rattle.std.specs.Prelude.{◌≡◌, Some};
ghost use Rattle.keeper.specs.Fault.{fault_text};
ghost use Rattle.keeper.specs.declared.fault.KeepFault.TheVariants.{Memory as MemoryFault};

use prov_base::Memory;
use std::alloc::{AllocError, AllocFailed};
use std::error::Error;
use std::fmt;

/// Why a keeper refused a call: it failed and has counted that, or memory ran out.
#[derive(Clone, Copy, Debug)]
pub enum KeepFault {
    /// The keeper failed, and has counted that.
    Failed,
    /// Memory ran out.
    Memory,
}

impl fmt::Display for KeepFault {
    ghost output = { λ fault. Some (fault_text fault) };

    fn fmt<W: fmt::Write>(&self, f: &mut fmt::Formatter<W>) -> fmt::Result {
        match self {
            KeepFault::Failed => write!(f, "keeper failed"),
            KeepFault::Memory => write!(f, "out of memory"),
        }
    }
}

impl Error for KeepFault {}

impl From<AllocError> for KeepFault {
    ghost from_gives = { λ _ fault. fault ≡ MemoryFault };

    fn from(_: AllocError) -> Self {
        KeepFault::Memory
    }
}

impl<T: Drop> From<AllocFailed<T>> for KeepFault {
    ghost from_gives = { λ _ fault. fault ≡ MemoryFault };

    fn from(_: AllocFailed<T>) -> Self {
        KeepFault::Memory
    }
}

impl From<Memory> for KeepFault {
    ghost from_gives = { λ _ fault. fault ≡ MemoryFault };

    fn from(_: Memory) -> Self {
        KeepFault::Memory
    }
}
