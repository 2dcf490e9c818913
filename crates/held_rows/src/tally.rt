// How many there are of each form.
ghost use Rattle.std.specs.Prelude.{◌≡◌, ◌+◌, ◌<◌, ◌^◌, [], OnOk, if◌then◌else◌};
ghost use Rattle.py_value.specs.declared.value.Value.{Value as OneValue};
ghost use Rattle.py_value.specs.contracts.value.ValuePartialEq.TheImpl.{ghosts as values};
ghost use Rattle.slice_things.specs.Counts.{often, deleted};

use indexmap::IndexMap;
use prov_base::Memory;
use py_value::Value;
use std::alloc::Global;
use std::marker::Model;

/// Forms, each with a number. Contracts see the pairs.
#[derive(Drop)]
pub(crate) struct Tally {
    counts: IndexMap<Value, u64>,
}

impl Model for Tally {
    ghost use Rattle.std.specs.Prelude.{List, ℕ};
    ghost use Rattle.py_value.specs.declared.value.Value.{Value as OneValue};

    ghost Value = { List (OneValue × ℕ) };

    ghost view = { λ t. t.counts.entries };
}

impl Tally {
    /// None of any form.
    pub(crate) fn new(alloc: Global) -> Tally
        ensures { result ≡ [] }
    {
        Tally {
            counts: IndexMap::new(alloc),
        }
    }

    /// How many there are of a form.
    pub(crate) fn count(&self, form: Value) -> u64
        ensures { result ≡ often form self.now }
    {
        self.counts.get(&form).copied().unwrap_or(0)
    }

    // There are so many of a form.
    fn put(&mut self, form: Value, count: u64) -> Result<(), Memory>
        ensures { OnOk result ((f : OneValue) → often f self.new ≡ (if values.eq form f then count else often f self.old)) }
    {
        self.counts.insert(form, count)?;
        Ok(())
    }

    /// One more of a form.
    pub(crate) fn more(&mut self, form: Value) -> Result<(), Memory>
        requires few { often form self.now < 2 ^ 63 }
        ensures { OnOk result ((f : OneValue) → often f self.new ≡ (if values.eq form f then 1 else 0) + often f self.old) }
    {
        let count = self.count(form);
        self.put(form, count + 1)
    }

    /// One less of a form, if there is one.
    pub(crate) fn less(&mut self, form: Value) -> Result<(), Memory>
        ensures { OnOk result ((f : OneValue) → often f self.new ≡ deleted form f (often f self.old)) }
    {
        let count = self.count(form);
        if count > 0 {
            self.put(form, count - 1)?;
        }
        Ok(())
    }
}
