// A length to come back to.
ghost use Rattle.std.specs.Prelude.{◌≡◌};

use std::marker::Model;

/// The length that a pool had when it was marked. Contracts see a mark as that number. `Pool::mark` alone makes one,
/// and a copy of it can be rewound to again.
#[derive(Clone, Copy, Debug)]
pub struct Mark {
    len: u32,
}

impl Model for Mark {
    ghost use Rattle.std.specs.Prelude.{ℕ};

    ghost Value = { ℕ };

    ghost view = { λ m. m.len };

    ghost inverse = { λ len. record { len = len } };
}

impl Mark {
    // The mark of this length.
    pub(crate) fn at(len: u32) -> Mark
        ensures { result ≡ len }
    {
        Mark { len }
    }

    // The length that was marked.
    pub(crate) fn len(self) -> u32
        ensures { result ≡ self }
    {
        self.len
    }
}
