// Numbers that were found in a list already.
ghost use Rattle.std.specs.Prelude.{◌≡◌, ◌==◌, ◌||◌, ℕ, true, []};
ghost use Rattle.slice_law.specs.Closed.{has};

use indexmap::IndexSet;
use prov_base::Memory;
use std::alloc::Global;
use std::marker::Model;

/// Numbers that were found. While there are none, they take no memory of their own.
#[derive(Drop)]
pub(crate) struct Known {
    found: Option<Box<IndexSet<u32>>>,
}

impl Model for Known {
    ghost use Rattle.std.specs.Prelude.{List, ℕ, [], unwrap_or};
    ghost use Rattle.std.specs.Option.{option_map};

    ghost Value = { List ℕ };

    ghost view = { λ k. unwrap_or (option_map (λ found. found.value.keys) k.found) [] };
}

impl Known {
    /// None.
    pub(crate) fn nothing() -> Known
        ensures { result ≡ [] }
    {
        Known { found: None }
    }

    /// Whether a number was found.
    pub(crate) fn has(&self, number: u32) -> bool
        ensures { result ≡ has number self.now }
    {
        match &self.found {
            Some(found) => found.contains(&number),
            None => false,
        }
    }

    /// A number was found.
    pub(crate) fn add(&mut self, alloc: Global, number: u32) -> Result<(), Memory>
        ensures { (r : ℕ) → has r self.new ≡ true → ((number == r) || has r self.old) ≡ true }
    {
        match &mut self.found {
            Some(found) => {
                found.insert(number)?;
            }
            None => {
                let mut found = IndexSet::new(alloc);
                found.insert(number)?;
                self.found = Some(Box::new(alloc, found)?);
            }
        }
        Ok(())
    }
}
