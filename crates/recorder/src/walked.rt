// The tuples of a run that one moment has named.
ghost use Rattle.std.specs.Prelude.{◌≡◌, ℕ, [], Some, nat_eq, OnOk, if◌then◌else◌};
ghost use Rattle.recorder.specs.Walking.{number_in};

use indexmap::IndexMap;
use prov_base::Memory;
use std::alloc::Global;
use std::marker::Model;

/// The numbers in rows of tuples of the run, each by the tuple's number in the run. They are kept for one moment, in which the tuples of
/// the run do not change. So a tuple that stands at many places is walked once.
#[derive(Drop)]
pub(crate) struct Walked {
    numbers: IndexMap<u32, u32>,
}

impl Model for Walked {
    ghost use Rattle.std.specs.Prelude.{ℕ, List};

    ghost Value = { List (ℕ × ℕ) };

    ghost view = { λ w. w.numbers.entries };
}

impl Walked {
    /// Nothing was walked. It takes no memory yet.
    pub(crate) fn new(alloc: Global) -> Walked
        ensures { result ≡ [] }
    {
        Walked {
            numbers: IndexMap::new(alloc),
        }
    }

    /// The number in rows of a tuple of the run, where it was noted.
    pub(crate) fn number_of(&self, id: u32) -> Option<u32>
        ensures { result ≡ number_in self.now id }
    {
        self.numbers.get(&id).copied()
    }

    /// Notes the number in rows of a tuple of the run.
    pub(crate) fn note(&mut self, id: u32, number: u32) -> Result<(), Memory>
        ensures { OnOk result ((other : ℕ) → number_in self.new other ≡ (if nat_eq id other then Some number else number_in self.old other)) }
    {
        self.numbers.insert(id, number)?;
        Ok(())
    }
}
