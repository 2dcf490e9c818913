// Operations on atoms.
use case_operations::{Came, Performer};
use op_atoms::{Atomic, atom};
use op_work::Work;
use prov_base::Memory;
use py_model::Op;
use py_value::Value;
use std::alloc::Global;

/// Performs operations by [`atom`].
#[derive(Drop)]
pub struct Atoms;

/// What came of an operation on atoms.
fn came(atomic: Atomic) -> Came {
    match atomic {
        Atomic::Gives(v) => Came::Gives(v),
        Atomic::Raises(class, text) => Came::Raises(class, text),
        Atomic::NotAtomic => Came::NotAtomic,
    }
}

impl Performer for Atoms {
    fn perform(
        &self,
        alloc: Global,
        work: &mut Work,
        op: Op,
        operands: &[Value],
    ) -> Result<Came, Memory> {
        let atomic = atom(work, alloc, op, operands)?;
        Ok(came(atomic))
    }
}
