// Files of a run: which were opened and which are held; files that were fetched.
ghost use Rattle.std.specs.Prelude.{◌≡◌, ◌<◌, length, nat_eq, Some, IsSome, OnOk};
ghost use Rattle.std.specs.List.{list_any};
ghost use Rattle.std.specs.Option.{is_some};
ghost use Rattle.object_store.specs.Store.{file_at as held_file};
ghost use Rattle.op_state.specs.Holding.{Found as FoundThere};
ghost use Rattle.op_state.specs.Held.{StandsHeld};
ghost use Rattle.op_work.specs.Work.{Extends};
ghost use Rattle.py_model.specs.Store.{RunStore};
ghost use Rattle.py_value.specs.Seen.{bytes_of};
ghost use Rattle.py_value.specs.Values.{ValuesView};

use crate::held::Held;
use object_store::named_stays;
use prov_base::Memory;
use py_value::{equality_is_same, same_place_same_location};
use std::alloc::Global;

impl Held {
    /// Whether the path with this text was opened for writing.
    pub fn was_opened(&self, path: u32) -> bool
        ensures { result ≡ list_any (nat_eq path) self.now.opened }
    {
        self.opened.contains(&path)
    }

    /// Whether the file at the path with this text is held.
    pub fn has_file(&self, path: u32) -> bool
        ensures { result ≡ is_some (held_file self.now.work.store path) }
    {
        self.work.file(path).is_some()
    }

    /// The bytes that a device has at the path with this text are held, where no file is held there yet. What stood for the store of a run goes
    /// on to do so, where they are what the device has.
    pub fn place(&mut self, alloc: Global, path: u32, bytes: &[u8]) -> Result<(), Memory>
        requires { path < length self.old.work.values.texts }
        ensures stands { (found : FoundThere) (table : ValuesView) (run : RunStore) → Extends self.old.work.values table → found (bytes_of table path) ≡ Some bytes.now
            → StandsHeld found table self.old run → StandsHeld found table self.new run }
        ensures held { OnOk result (IsSome (held_file self.new.work.store path)) }
        ensures values { self.new.work.values ≡ self.old.work.values }
        ensures said { (self.new.opened ≡ self.old.opened) × (self.new.output ≡ self.old.output) }
    {
        equality_is_same();
        named_stays();
        same_place_same_location();
        let _ = self.opened.len();
        if self.work.file(path).is_some() {
            return Ok(());
        }
        self.work.place_file(alloc, path, bytes)
    }
}
