// The one refusal of a region.
ghost use Rattle.std.specs.Prelude.{Some, codes};

use std::alloc::AllocError;
use std::error::Error;
use std::fmt;

/// Lack of room, which is out of memory unless a clause names another cause. After it all is as before.
#[derive(Clone, Copy, Debug, PartialEq, Eq)]
pub struct NoRoom;

impl fmt::Display for NoRoom {
    ghost output = { λ _. Some (codes "no room") };

    fn fmt<W: fmt::Write>(&self, f: &mut fmt::Formatter<W>) -> fmt::Result {
        write!(f, "no room")
    }
}

impl Error for NoRoom {}

impl From<AllocError> for NoRoom {
    fn from(_: AllocError) -> Self {
        NoRoom
    }
}
