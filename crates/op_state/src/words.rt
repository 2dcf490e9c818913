// The texts and tuples of what is held.
ghost use Rattle.std.specs.Prelude.{◌≡◌, slice_get, Some, IfOk};
ghost use Rattle.object_store.specs.Named.{IsNamedStore};
ghost use Rattle.op_work.specs.Work.{AreNamedPaths, Extends};
ghost use Rattle.py_value.specs.Values.{AreInterned};

use crate::held::Held;
use prov_base::Memory;
use py_value::Values;
use std::alloc::Global;

impl Held {
    /// The texts and tuples that the numbers of values name.
    pub fn values(&self) -> &Values
        ensures values { result.now ≡ self.now.work.values }

        // What is held names only what has a number.
        ensures interned { AreInterned self.now.work.values }
        ensures named { IsNamedStore self.now.work.values self.now.work.store }
        ensures paths { AreNamedPaths self.now.work.values self.now.opened }
    {
        let _ = self.work.kind_there(0);
        let _ = self.opened.len();
        self.work.values()
    }

    /// The number of a text.
    pub fn word(&mut self, alloc: Global, text: &str) -> Result<u32, Memory>
        ensures name { IfOk result (λ number. slice_get self.new.work.values.texts number ≡ Some text.now) }
        ensures store { self.new.work.store ≡ self.old.work.store }
        ensures said { (self.new.opened ≡ self.old.opened) × (self.new.output ≡ self.old.output) }
        ensures extends { Extends self.old.work.values self.new.work.values }
    {
        self.work.number(alloc, text)
    }
}
