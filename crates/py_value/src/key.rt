// Keys of dictionaries, and why a value is none.
ghost use Rattle.std.specs.Prelude.{◌≡◌, Some};
ghost use Rattle.py_value.specs.Key.{key_fault_text};
ghost use Rattle.py_value.specs.declared.key.KeyFault.TheVariants.{Memory};

use crate::Value;
use std::alloc::{AllocError, AllocFailed};
use std::error::Error;
use std::fmt;

/// A value in its normal form as a key of a dictionary: a truth value is the integer 0 or 1, inside tuples too.
#[derive(Clone, Copy, Debug, PartialEq, Eq, Hash)]
pub struct Key {
    pub value: Value,
}

/// Why a value is no key.
#[derive(Clone, Copy, Debug)]
pub enum KeyFault {
    /// It is this object, or a tuple with this object as its first part that is no key.
    NoKey(u32),
    /// It is another value that is no key here, or a tuple with such a part.
    NotHere,
    /// Tuples are nested too deep.
    TooDeep,
    /// Memory ran out.
    Memory,
}

impl fmt::Display for KeyFault {
    ghost output = { λ fault. Some (key_fault_text fault) };

    fn fmt<W: fmt::Write>(&self, f: &mut fmt::Formatter<W>) -> fmt::Result {
        match self {
            KeyFault::NoKey(_) => write!(f, "an object is no key"),
            KeyFault::NotHere => write!(f, "the value is no key here"),
            KeyFault::TooDeep => write!(f, "tuples are nested too deep"),
            KeyFault::Memory => write!(f, "out of memory"),
        }
    }
}

impl Error for KeyFault {}

impl From<AllocError> for KeyFault {
    ghost from_gives = { λ _ fault. fault ≡ Memory };

    fn from(_: AllocError) -> Self {
        KeyFault::Memory
    }
}

impl<T: Drop> From<AllocFailed<T>> for KeyFault {
    ghost from_gives = { λ _ fault. fault ≡ Memory };

    fn from(_: AllocFailed<T>) -> Self {
        KeyFault::Memory
    }
}

impl From<prov_base::Memory> for KeyFault {
    ghost from_gives = { λ _ fault. fault ≡ Memory };

    fn from(_: prov_base::Memory) -> Self {
        KeyFault::Memory
    }
}
