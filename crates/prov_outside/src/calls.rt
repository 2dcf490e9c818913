// The numbering of the calls of one memory form, which says of each call whether it is one that fails.
ghost use Rattle.std.specs.Prelude.{◌≡◌, ◌↔◌, IsTrue};
ghost use Rattle.prov_outside.specs.Numbering.{NextFails, after_call};

use std::marker::Model;

/// The calls of one object, numbered from 1 in one order whatever their kind, and the numbers of those that fail.
/// Numbers stop at 2^64-1.
#[derive(Drop, Debug)]
pub struct Calls {
    failing: Vec<u64>,
    made: u64,
}

impl Model for Calls {
    ghost use Rattle.prov_outside.specs.Numbering.{Numbering};

    ghost Value = { Numbering };

    ghost view = { λ c. record { failing = c.failing.items; made = c.made } };
}

impl Calls {
    /// No call was made yet.
    pub fn of(failing: Vec<u64>) -> Calls
        ensures { result ≡ record { failing = failing.items; made = 0 } }
    {
        Calls { failing, made: 0 }
    }

    /// Takes the next number, and says whether the call that has it fails.
    pub fn next_fails(&mut self) -> bool
        ensures fails { IsTrue result ↔ NextFails self.old }
        ensures counted { self.new ≡ after_call self.old }
    {
        self.made = self.made.saturating_add(1);
        self.failing.contains(&self.made)
    }
}
