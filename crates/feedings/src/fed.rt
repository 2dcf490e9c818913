// What feeds each moment.
ghost use Rattle.std.specs.Prelude.{◌≡◌, ◌∷◌, ◌++◌, [], length, slice_index_or, OnOk};

use prov_base::Memory;
use std::alloc::Global;
use std::marker::Model;

/// Times of moments.
#[derive(Drop)]
pub(crate) struct Times {
    list: Vec<usize>,
}

impl Model for Times {
    ghost use Rattle.std.specs.Prelude.{List, ℕ};

    ghost Value = { List ℕ };

    ghost view = { λ t. t.list.items };
}

impl Times {
    /// The times of a vector, which is not copied.
    pub(crate) fn of(v: Vec<usize>) -> Times
        ensures { result ≡ v.items }
    {
        Times { list: v }
    }

    /// The times, in order.
    pub(crate) fn as_slice(&self) -> &[usize]
        ensures { result.now ≡ self.now }
    {
        self.list.as_slice()
    }
}

/// Times for each moment, the earliest moment first.
#[derive(Drop)]
pub(crate) struct Fed {
    lists: Vec<Times>,
}

impl Model for Fed {
    ghost use Rattle.std.specs.Prelude.{List, ℕ};

    ghost Value = { List (List ℕ) };

    ghost view = { λ f. f.lists.items };
}

impl Fed {
    /// Of no moment.
    pub(crate) fn new(alloc: Global) -> Fed
        ensures { result ≡ [] }
    {
        Fed {
            lists: Vec::new(alloc),
        }
    }

    /// How many moments there are.
    pub(crate) fn count(&self) -> usize
        ensures { result ≡ length self.now }
    {
        self.lists.len()
    }

    /// Puts the times of the next moment behind the others.
    pub(crate) fn push(&mut self, times: Times) -> Result<(), Memory>
        ensures { OnOk result (self.new ≡ self.old ++ times ∷ []) }
    {
        self.lists.push(times)?;
        Ok(())
    }

    /// The times of a moment, and none where there is no such moment.
    pub(crate) fn of_moment(&self, time: usize) -> &[usize]
        ensures { result.now ≡ slice_index_or self.now time [] }
    {
        match self.lists.get(time) {
            Some(times) => times.as_slice(),
            None => &[],
        }
    }
}
