// Why a call of a device was refused.
ghost use Rattle.std.specs.Prelude.{◌≡◌, Some};
ghost use Rattle.prov_outside.specs.Trouble.{trouble_text};
ghost use Rattle.prov_outside.specs.declared.trouble.Trouble.TheVariants.{Memory};

use std::alloc::{AllocError, AllocFailed};
use std::error::Error;
use std::fmt;

/// Why a device refused a call: it failed and has counted that, or memory ran out.
#[derive(Clone, Copy, Debug)]
pub enum Trouble {
    /// The device failed, and has counted that.
    Failed,
    /// Memory ran out.
    Memory,
}

impl fmt::Display for Trouble {
    ghost output = { λ trouble. Some (trouble_text trouble) };

    fn fmt<W: fmt::Write>(&self, f: &mut fmt::Formatter<W>) -> fmt::Result {
        match self {
            Trouble::Failed => write!(f, "device failed"),
            Trouble::Memory => write!(f, "out of memory"),
        }
    }
}

impl Error for Trouble {}

impl From<AllocError> for Trouble {
    ghost from_gives = { λ _ trouble. trouble ≡ Memory };

    fn from(_: AllocError) -> Self {
        Trouble::Memory
    }
}

impl<T: Drop> From<AllocFailed<T>> for Trouble {
    ghost from_gives = { λ _ trouble. trouble ≡ Memory };

    fn from(_: AllocFailed<T>) -> Self {
        Trouble::Memory
    }
}
