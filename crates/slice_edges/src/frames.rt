// What is open: statements and activations, each with the statement that owns what is done there, and the one that called.
ghost use Rattle.std.specs.Prelude.{◌≡◌, ◌∷◌, [], length, nat_lt, OnOk};
ghost use Rattle.py_model.specs.Going.{a_statement, an_activation};
ghost use Rattle.slice_edges.specs.Frames.{owner_in, caller_in, without_first};

use prov_base::Memory;
use std::alloc::Global;
use std::marker::Model;

/// A statement that is open, or None for an activation; the statement whose own moment the next one would be; and the statement that
/// entered the activation around.
#[derive(Clone, Copy)]
pub(crate) struct Frame {
    pub stmt: Option<u32>,
    pub owner: Option<u32>,
    pub caller: Option<u32>,
}

/// What is open, the innermost last. Contracts see it innermost first.
#[derive(Drop)]
pub(crate) struct Frames {
    frames: Vec<Frame>,
}

impl Model for Frames {
    ghost use Rattle.std.specs.Prelude.{List, reverse};
    ghost use Rattle.py_model.specs.Going.{Open};
    ghost use Rattle.slice_edges.specs.Frames.{open_in, AreNoted};

    ghost Value = { List Open };

    ghost view = { λ f. open_in (reverse f.frames.items) };

    ghost invariant = { λ f. AreNoted (reverse f.frames.items) };
}

impl Frames {
    /// Nothing is open.
    pub(crate) fn new(alloc: Global) -> Frames
        ensures { result ≡ [] }
    {
        Frames {
            frames: Vec::new(alloc),
        }
    }

    /// Whether something is open.
    pub(crate) fn is_open(&self) -> bool
        ensures { result ≡ nat_lt 0 (length self.now) }
    {
        self.frames.len() > 0
    }

    /// The innermost statement.
    pub(crate) fn owner(&self) -> Option<u32>
        ensures { result ≡ owner_in self.now }
    {
        match self.frames.last() {
            Some(frame) => frame.owner,
            None => None,
        }
    }

    /// The statement that entered the innermost activation.
    pub(crate) fn caller(&self) -> Option<u32>
        ensures { result ≡ caller_in self.now }
    {
        match self.frames.last() {
            Some(frame) => frame.caller,
            None => None,
        }
    }

    /// A statement begins.
    pub(crate) fn begin(&mut self, stmt: u32) -> Result<(), Memory>
        ensures { OnOk result (self.new ≡ a_statement stmt ∷ self.old) }
    {
        let caller = self.caller();
        self.frames.push(Frame {
            stmt: Some(stmt),
            owner: Some(stmt),
            caller,
        })?;
        Ok(())
    }

    /// An activation is entered.
    pub(crate) fn enter(&mut self) -> Result<(), Memory>
        ensures { OnOk result (self.new ≡ an_activation ∷ self.old) }
    {
        let owner = self.owner();
        self.frames.push(Frame {
            stmt: None,
            owner,
            caller: owner,
        })?;
        Ok(())
    }

    /// What is innermost ends or is left.
    pub(crate) fn close(&mut self)
        ensures { self.new ≡ without_first self.old }
    {
        self.frames.pop();
    }
}
