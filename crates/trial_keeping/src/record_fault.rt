// Why bytes are no record.
ghost use Rattle.std.specs.Prelude.{◌≡◌};
ghost use Rattle.trial_keeping.specs.declared.record_fault.Stop.TheVariants.{Memory};

use std::alloc::{AllocError, AllocFailed};

/// Why bytes are no record.
#[derive(Clone, Copy, Debug, PartialEq, Eq)]
pub enum RecordFault {
    /// The count or the item that begins at this byte, counted from 0, is not so, or no byte should stand there. The items
    /// ahead of it may stand so.
    BadRecord(u64),
    /// Memory ran out.
    Memory,
}

/// Where reading stopped.
#[derive(Clone, Copy)]
pub(crate) enum Stop {
    /// What begins so many bytes ahead of the end is not so.
    Bad(usize),
    /// Memory ran out.
    Memory,
}

impl From<AllocError> for Stop {
    ghost from_gives = { λ _ stop. stop ≡ Memory };

    fn from(_: AllocError) -> Self {
        Stop::Memory
    }
}

impl<T: Drop> From<AllocFailed<T>> for Stop {
    ghost from_gives = { λ _ stop. stop ≡ Memory };

    fn from(_: AllocFailed<T>) -> Self {
        Stop::Memory
    }
}
