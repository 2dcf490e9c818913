// What is open: statements with the rows that begin them, and activations.
ghost use Rattle.std.specs.Prelude.{◌≡◌, ◌∷◌, Some, None, [], OnOk};
ghost use Rattle.row_moments.specs.IndexPlaces.{inner_in, inner_row, inner_stmt, without_first};

use prov_base::Memory;
use std::alloc::Global;
use std::marker::Model;

/// A statement that is open, and the number of the row that begins it.
#[derive(Clone, Copy)]
pub(crate) struct Place {
    pub stmt: u32,
    pub row: u32,
}

/// A statement that is open, or None for an activation; and the innermost statement there.
#[derive(Clone, Copy)]
pub(crate) struct Frame {
    pub here: Option<Place>,
    pub inner: Option<Place>,
}

/// What is open, the innermost last. Contracts see it innermost first.
#[derive(Drop)]
pub(crate) struct Places {
    frames: Vec<Frame>,
}

impl Model for Places {
    ghost use Rattle.std.specs.Prelude.{List, Option, reverse};
    ghost use Rattle.row_moments.specs.declared.places.Place.{Place};
    ghost use Rattle.row_moments.specs.IndexPlaces.{places_in, AreNoted};

    ghost Value = { List (Option Place) };

    ghost view = { λ p. places_in (reverse p.frames.items) };

    ghost invariant = { λ p. AreNoted (reverse p.frames.items) };
}

impl Places {
    /// Nothing is open.
    pub(crate) fn new(alloc: Global) -> Places
        ensures { result ≡ [] }
    {
        Places {
            frames: Vec::new(alloc),
        }
    }

    // The innermost statement.
    fn inner(&self) -> Option<Place>
        ensures { result ≡ inner_in self.now }
    {
        match self.frames.last() {
            Some(frame) => frame.inner,
            None => None,
        }
    }

    /// The number of the innermost statement.
    pub(crate) fn stmt(&self) -> Option<u32>
        ensures { result ≡ inner_stmt self.now }
    {
        match self.inner() {
            Some(place) => Some(place.stmt),
            None => None,
        }
    }

    /// The row that begins the innermost statement.
    pub(crate) fn row(&self) -> Option<u32>
        ensures { result ≡ inner_row self.now }
    {
        match self.inner() {
            Some(place) => Some(place.row),
            None => None,
        }
    }

    /// A statement begins at a row.
    pub(crate) fn begin(&mut self, stmt: u32, row: u32) -> Result<(), Memory>
        ensures { OnOk result (self.new ≡ Some (record { stmt = stmt; row = row }) ∷ self.old) }
    {
        let place = Place { stmt, row };
        self.frames.push(Frame {
            here: Some(place),
            inner: Some(place),
        })?;
        Ok(())
    }

    /// An activation is entered.
    pub(crate) fn enter(&mut self) -> Result<(), Memory>
        ensures { OnOk result (self.new ≡ None ∷ self.old) }
    {
        let inner = self.inner();
        self.frames.push(Frame { here: None, inner })?;
        Ok(())
    }

    /// What is innermost ends or is left.
    pub(crate) fn close(&mut self)
        ensures { self.new ≡ without_first self.old }
    {
        self.frames.pop();
    }
}
