// Why bytes are not a page.
ghost use Rattle.std.specs.Prelude.{◌≡◌};
ghost use Rattle.trace_rows.specs.declared.fault.PageFault.TheVariants.{Memory};

use std::alloc::{AllocError, AllocFailed};

/// Why bytes are not a page.
#[derive(Clone, Copy)]
pub enum PageFault {
    /// What stands at this byte, counted from 0, begins no row. Ahead of it are rows alone.
    BadRow(u64),
    /// Memory ran out.
    Memory,
}

impl From<AllocError> for PageFault {
    ghost from_gives = { λ _ fault. fault ≡ Memory };

    fn from(_: AllocError) -> Self {
        PageFault::Memory
    }
}

impl<T: Drop> From<AllocFailed<T>> for PageFault {
    ghost from_gives = { λ _ fault. fault ≡ Memory };

    fn from(_: AllocFailed<T>) -> Self {
        PageFault::Memory
    }
}
