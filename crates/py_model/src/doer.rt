// What performs the operations of a run. What a doer promises is `specs/Doing.antt`.
ghost use Rattle.std.specs.Prelude.{◌≡◌, length};
ghost use Rattle.py_value.specs.Values.{ValuesView};
ghost use Rattle.py_model.specs.Capture.{Capture};
ghost use Rattle.py_model.specs.Doing.{Standing, Knew, Performs, Enters, IsWord, AreGiven, AreGivenValues, AreItsValues};

use crate::{Answer, Op};
use prov_base::{Memory, Name, Pos};
use py_value::{Accesses, Kind, Value, Values};
use std::alloc::Global;

/// An operation that happened.
#[derive(Drop)]
pub struct Deed {
    /// What it answers.
    pub answer: Answer,
    /// The kind of the object that it made.
    pub made: Option<Kind>,
    /// What it read, set and changed, in order.
    pub accesses: Accesses,
    /// The items that it looked at, and its counted characters divided by 64, rounded up.
    pub weight: u32,
    /// The method that a method walk of it found.
    pub method: Option<Pos>,
}

/// What became of an operation.
#[derive(Drop)]
pub enum Done {
    /// It happened.
    Did(Deed),
    /// It costs more steps than are left.
    TooDear,
    /// A kept answer is lacking.
    Unanswered,
}

/// What became of the entry of an activation.
#[derive(Drop)]
pub enum Entered {
    /// The activation has this number, and its parameters were set so.
    In(u32, Accesses),
    /// It costs more steps than are left.
    TooDear,
}

/// Something that performs operations as they are defined, over a store and a source of answers, so that an interpreter is proved once over
/// any of them.
pub trait Doer {
    /// A table of texts and tuples and a capture that fit the doer: they have all that it has so far, and may have more.
    ghost fits: { Self → ValuesView → Capture → Type 0 };

    /// What the doer stands for of a state of a run, by a table and a capture that fit.
    ghost stands: { Self → ValuesView → Capture → Standing → Type 0 };

    /// Performs one operation at a place, with so many steps left. All memory is taken before the first change.
    fn perform(
        &mut self,
        alloc: Global,
        at: Pos,
        op: Op,
        values: &[Value],
        left: u32,
    ) -> Result<Done, Memory>
        ensures knew { Knew (fits self.old) (fits self.new) }
        ensures performed { Performs at op values.now left (fits self.new) (stands self.old) (stands self.new) result };

    /// Enters the next activation, of the function at a place, with a value for each of the names of its parameters.
    fn enter(
        &mut self,
        alloc: Global,
        def: Pos,
        names: &[Name],
        values: &[Value],
        left: u32,
    ) -> Result<Entered, Memory>
        requires counted { length values.now ≡ length names.now }
        requires given { AreGivenValues (fits self.old) values.now }
        ensures knew { Knew (fits self.old) (fits self.new) }
        ensures entered { Enters def names.now values.now left (fits self.new) (stands self.old) (stands self.new) result };

    /// The texts and tuples that the numbers in what it answers name.
    fn values(&self) -> &Values
        ensures { AreItsValues (fits self.now) (stands self.now) result.now };

    /// The number of a text.
    fn word(&mut self, alloc: Global, text: &str) -> Result<u32, Memory>
        ensures knew { Knew (fits self.old) (fits self.new) }
        ensures named { IsWord text.now (fits self.new) (stands self.old) (stands self.new) result };
}
