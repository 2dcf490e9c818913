// How reading a line's tokens stops.
ghost use Rattle.std.specs.Prelude.{◌≡◌};
ghost use Rattle.py_expressions.specs.declared.fault.Fault.TheVariants.{Memory};
ghost use Rattle.py_expressions.specs.declared.fault.Stop.TheVariants.{Here};

use prov_base::Pos;
use std::alloc::{AllocError, AllocFailed};

/// Why the tokens of a line were not read.
#[derive(Clone, Copy, Debug)]
pub enum Fault {
    /// No line that may stand there goes on with a token: how many tokens stand behind it on the line.
    Unexpected(usize),
    /// An expression or a statement lies too deep, which begins at this place.
    TooDeep(Pos),
    /// The statement that begins at this place is one too many.
    TooMany(Pos),
    /// Out of memory.
    Memory,
}

/// Why the tokens of a line were not read: a fault, or that the line ends too early.
#[derive(Clone, Copy, Debug)]
pub enum Stop {
    Here(Fault),
    End,
}

impl From<AllocError> for Stop {
    ghost from_gives = { λ _ stop. stop ≡ Here Memory };

    fn from(_: AllocError) -> Self {
        Stop::Here(Fault::Memory)
    }
}

impl<T: Drop> From<AllocFailed<T>> for Stop {
    ghost from_gives = { λ _ stop. stop ≡ Here Memory };

    fn from(_: AllocFailed<T>) -> Self {
        Stop::Here(Fault::Memory)
    }
}
