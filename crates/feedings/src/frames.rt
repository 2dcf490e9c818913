// What is open: statements and activations, each with what was returned in it.
ghost use Rattle.std.specs.Prelude.{◌≡◌, ◌∷◌, [], OnOk};
ghost use Rattle.feedings.specs.Noted.{first, rest, returned_in};

use crate::fed::Times;
use prov_base::Memory;
use std::alloc::Global;
use std::marker::Model;

/// A statement that is open, or None for an activation, and the times of the operations that gave the value of the `return` by which the last of its parts ended that
/// ended so.
#[derive(Drop)]
pub(crate) struct Frame {
    pub stmt: Option<u32>,
    pub returned: Times,
}

/// What is open, the innermost last. Contracts see it innermost first.
#[derive(Drop)]
pub(crate) struct Frames {
    frames: Vec<Frame>,
}

impl Model for Frames {
    ghost use Rattle.std.specs.Prelude.{List, reverse};
    ghost use Rattle.feedings.specs.declared.frames.Frame.{Frame};

    ghost Value = { List Frame };

    ghost view = { λ f. reverse f.frames.items };
}

impl Frames {
    /// Nothing is open.
    pub(crate) fn new(alloc: Global) -> Frames
        ensures { result ≡ [] }
    {
        Frames {
            frames: Vec::new(alloc),
        }
    }

    /// A statement begins, or an activation is entered.
    pub(crate) fn open(&mut self, frame: Frame) -> Result<(), Memory>
        ensures { OnOk result (self.new ≡ frame ∷ self.old) }
    {
        self.frames.push(frame)?;
        Ok(())
    }

    /// What is innermost is taken out.
    pub(crate) fn close(&mut self) -> Option<Frame>
        ensures taken { result ≡ first self.old }
        ensures left { self.new ≡ rest self.old }
    {
        self.frames.pop()
    }

    /// These times were returned in what is innermost.
    pub(crate) fn put_returned(&mut self, times: Times) -> Result<(), Memory>
        ensures { OnOk result (self.new ≡ returned_in times self.old) }
    {
        match self.close() {
            Some(frame) => self.open(Frame {
                stmt: frame.stmt,
                returned: times,
            }),
            None => Ok(()),
        }
    }
}
