// Why an operation does not go on.
ghost use Rattle.std.specs.Prelude.{◌≡◌};
ghost use Rattle.op_work.specs.declared.stop.Stop.TheVariants.{Memory as NoMemory};

use py_value::Value;
use std::alloc::{AllocError, AllocFailed};

/// Why an operation does not go on.
#[derive(Clone, Copy)]
pub enum Stop {
    /// It raises the exception of this class of the language, by its number, with one argument.
    Raises(u64, Value),
    /// It costs more than the steps that are left.
    TooDear,
    /// Memory ran out.
    Memory,
}

impl From<AllocError> for Stop {
    ghost from_gives = { λ _ stop. stop ≡ NoMemory };

    fn from(_: AllocError) -> Self {
        Stop::Memory
    }
}

impl<T: Drop> From<AllocFailed<T>> for Stop {
    ghost from_gives = { λ _ stop. stop ≡ NoMemory };

    fn from(_: AllocFailed<T>) -> Self {
        Stop::Memory
    }
}

impl From<prov_base::Memory> for Stop {
    ghost from_gives = { λ _ stop. stop ≡ NoMemory };

    fn from(_: prov_base::Memory) -> Self {
        Stop::Memory
    }
}
