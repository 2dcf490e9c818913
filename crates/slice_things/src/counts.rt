// How often each form stands in an order.
ghost use Rattle.std.specs.Prelude.{◌≡◌, ◌+◌, [], IfOk, OnOk, if◌then◌else◌};
ghost use Rattle.py_value.specs.declared.value.Value.{Value as OneValue};
ghost use Rattle.py_value.specs.contracts.value.ValuePartialEq.TheImpl.{ghosts as values};
ghost use Rattle.slice_things.specs.Counts.{often, count_of, inserted, deleted};

use crate::Forms;
use indexmap::IndexMap;
use prov_base::Memory;
use py_value::Value;
use std::alloc::Global;
use std::marker::Model;

/// Forms, each with how often it stands in an order. Contracts see the pairs.
#[derive(Drop)]
pub struct Counts {
    counts: IndexMap<Value, u64>,
}

impl Model for Counts {
    ghost use Rattle.std.specs.Prelude.{List, ℕ};
    ghost use Rattle.py_value.specs.declared.value.Value.{Value as OneValue};

    ghost Value = { List (OneValue × ℕ) };

    ghost view = { λ c. c.counts.entries };
}

impl Counts {
    /// Nothing stands there.
    pub(crate) fn new(alloc: Global) -> Counts
        ensures { result ≡ [] }
    {
        Counts {
            counts: IndexMap::new(alloc),
        }
    }

    /// How often a form stands there.
    pub(crate) fn count(&self, form: Value) -> u64
        ensures { result ≡ often form self.now }
    {
        self.counts.get(&form).copied().unwrap_or(0)
    }

    // A form stands there so often.
    fn put(&mut self, form: Value, count: u64) -> Result<(), Memory>
        ensures { OnOk result ((f : OneValue) → often f self.new ≡ (if values.eq form f then count else often f self.old)) }
    {
        self.counts.insert(form, count)?;
        Ok(())
    }

    // A form stands there once more. It fails where memory runs out, or numbers do.
    fn more(&mut self, form: Value) -> Result<(), Memory>
        ensures { OnOk result ((f : OneValue) → often f self.new ≡ (if values.eq form f then 1 else 0) + often f self.old) }
    {
        let Some(count) = self.count(form).checked_add(1) else {
            return Err(Memory);
        };
        self.put(form, count)
    }

    /// How often each form stands in keys.
    pub(crate) fn of(alloc: Global, forms: &Forms, keys: &[Value]) -> Result<Counts, Memory>
        ensures { IfOk result (λ counts. (f : OneValue) → often f counts ≡ count_of forms.now.numbers.items f keys.now) }
    {
        let mut counts = Counts::new(alloc);
        for key in keys {
            counts.more(forms.form_of(*key))?;
        }
        Ok(counts)
    }

    /// A form is put behind the others, unless it is there.
    pub(crate) fn insert(&mut self, form: Value) -> Result<(), Memory>
        ensures { OnOk result ((f : OneValue) → often f self.new ≡ inserted form f (often f self.old)) }
    {
        if self.count(form) == 0 {
            self.put(form, 1)?;
        }
        Ok(())
    }

    /// A form is taken out once, if it is there.
    pub(crate) fn delete(&mut self, form: Value) -> Result<(), Memory>
        ensures { OnOk result ((f : OneValue) → often f self.new ≡ deleted form f (often f self.old)) }
    {
        let count = self.count(form);
        if count > 0 {
            self.put(form, count - 1)?;
        }
        Ok(())
    }
}
