// What is held of a run.
ghost use Rattle.std.specs.Prelude.{◌≡◌};

use op_work::Work;
use std::marker::Model;

/// The work of operations, the paths that were opened for writing, each once, and the bytes that were printed.
#[derive(Drop)]
pub struct Held {
    /// The work of operations.
    pub work: Work,
    pub(crate) opened: Vec<u32>,
    pub(crate) output: Vec<u8>,
}

impl Model for Held {
    ghost use Rattle.op_state.specs.Held.{HeldView};
    ghost use Rattle.op_work.specs.Work.{AreNamedPaths};

    ghost Value = { HeldView };

    ghost view = { λ h. record { work = h.work; opened = h.opened.items; output = h.output.items } };

    ghost invariant = { λ h. AreNamedPaths h.work.values h.opened.items };
}

/// Lets what is held go. Crates above call this, so the drop of all that is held is proved here alone.
pub fn drop_held(held: Held) {
    let Held {
        work,
        opened,
        output,
    } = held;
    drop((opened, output));
    drop(work);
}
