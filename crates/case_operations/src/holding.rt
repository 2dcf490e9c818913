// What is held as a run begins, and operations over it.
ghost use Rattle.std.specs.Prelude.{◌≡◌, IsTrue, false};
ghost use Rattle.py_model.specs.Told.{IsNamedOp, names_text};
ghost use Rattle.py_value.specs.Values.{AreNamed};

use crate::atom_session::answer_all;
use crate::operator::{Came, Operator};
use object_store::{Store, named_stays};
use op_work::Work;
use prov_base::Memory;
use prov_outside::{Console, Trouble};
use py_model::Op;
use py_value::{Value, Values};
use std::alloc::Global;

/// What performs operations on values without objects.
pub trait Performer {
    /// What comes of an operation. The texts and tuples that it and its operands name have numbers.
    fn perform(
        &self,
        alloc: Global,
        work: &mut Work,
        op: Op,
        operands: &[Value],
    ) -> Result<Came, Memory>
        requires op { IsNamedOp work.old.values op }
        requires named { AreNamed work.old.values operands.now };
}

/// What is held of a run, and what performs its operations.
#[derive(Drop)]
struct Holding<P: Performer> {
    work: Work,
    performer: P,
}

/// What is held as a run of a script begins.
fn begin(alloc: Global) -> Result<Work, Memory> {
    named_stays();
    let mut values = Values::new(alloc)?;
    let store = Store::new(alloc, &mut values, "s.py", &[])?;
    Ok(Work::new(alloc, store, values))
}

/// Whether the texts and tuples that the values name have numbers.
fn are_named(values: &Values, operands: &[Value]) -> bool
    ensures { IsTrue result → AreNamed values.now operands.now }
{
    for v in operands.iter() {
        if !values.has(*v) {
            return false;
        }
    }
    true
}

/// Whether the operation with this number names a text.
fn names(no: u8) -> bool
    ensures { result ≡ names_text no }
{
    no == 1 || (30 <= no && no <= 34) || (42 <= no && no <= 44)
}

impl<P: Performer + Drop> Operator for Holding<P> {
    fn word(&mut self, alloc: Global, words: &str) -> Result<u32, Memory> {
        self.work.number(alloc, words)
    }

    // Values that have no numbers are answered as out of memory.
    fn tuple(&mut self, alloc: Global, items: &[Value]) -> Result<Value, Memory> {
        if !are_named(self.work.values(), items) {
            return Err(Memory);
        }
        match self.work.tuple(alloc, items) {
            Ok(v) => Ok(v),
            Err(_) => Err(Memory),
        }
    }

    // One that names a text, and operands that have no numbers, are not tried.
    fn perform(&mut self, alloc: Global, no: u8, operands: &[Value]) -> Result<Came, Memory> {
        if names(no) || !are_named(self.work.values(), operands) {
            return Ok(Came::NotAtomic);
        }
        let op = Op {
            no,
            scope: 0,
            name: 0,
            value: Value::None,
        };
        self.performer.perform(alloc, &mut self.work, op, operands)
    }

    fn values(&self) -> &Values {
        self.work.values()
    }
}

/// Answers every row of the input over what is held as a run begins.
pub fn answer_input<C: Console, P: Performer + Drop>(
    alloc: Global,
    console: &mut C,
    performer: P,
) -> Result<(), Trouble> {
    match begin(alloc) {
        Ok(work) => answer_all(alloc, console, Holding { work, performer }),
        Err(_) => Err(Trouble::Memory),
    }
}
