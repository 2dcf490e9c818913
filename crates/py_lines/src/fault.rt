// Why a text has no logical lines.
ghost use Rattle.std.specs.Prelude.{◌≡◌};
ghost use Rattle.py_lines.specs.declared.fault.LineFault.TheVariants.{Memory};

use prov_base::Pos;
use std::alloc::{AllocError, AllocFailed};

/// Why a text was not read as logical lines.
#[derive(Clone, Copy, Debug)]
pub enum LineFault {
    /// The text is not UTF-8: the place of the first byte of the first ill-formed sequence.
    NotUtf8(Pos),
    /// The place of the first bad token.
    BadToken(Pos),
    /// The place of the first bracket, or text of three quotes, that is open at the end of the text.
    OpenBracket(Pos),
    /// The text has more than 262,144 bytes.
    TooLarge,
    /// Out of memory.
    Memory,
}

impl From<AllocError> for LineFault {
    ghost from_gives = { λ _ fault. fault ≡ Memory };

    fn from(_: AllocError) -> Self {
        LineFault::Memory
    }
}

impl<T: Drop> From<AllocFailed<T>> for LineFault {
    ghost from_gives = { λ _ fault. fault ≡ Memory };

    fn from(_: AllocFailed<T>) -> Self {
        LineFault::Memory
    }
}
