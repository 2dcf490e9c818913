// The end of an operation: memory for all its writes is taken, and they are done.
ghost use Rattle.std.specs.Prelude.{◌≡◌, ◌+◌, ◌/◌, ◌<◌, [], length, map, None, Some, IfOk, OnOk, OnErr};
ghost use Rattle.object_store.specs.Named.{IsNamedStore};
ghost use Rattle.object_store.specs.Performing.{SuitInTurn, kinds_with};
ghost use Rattle.object_store.specs.Seen.{seen_at};
ghost use Rattle.object_store.specs.Store.{Keeps as KeepsStore, IsReservedFor, kinds};
ghost use Rattle.op_work.specs.Finish.{IsDeed, IsSound, Noted, last_method};
ghost use Rattle.op_work.specs.Work.{Extends};
ghost use Rattle.py_value.specs.Changes.{after_accesses};
ghost use Rattle.py_value.specs.Seen.{access_seen};
ghost use Rattle.py_value.specs.Values.{ValuesView, AreInterned};

use crate::{Stop, Work};
use object_store::named_stays;
use prov_base::{Memory, Pos};
use py_model::{Answer, Deed};
use py_value::{Access, Accesses, Location};
use std::alloc::Global;
use std::mem;

impl Work {
    /// A new operation begins, with so many steps left. It is out of budget where there is none.
    pub fn begin(&mut self, left: u32) -> Result<(), Stop>
        ensures begun { OnOk result (self.new ≡ record self.old { touched = []; made = None; looks = 0; characters = 0; left = left; printed = []; note = None; opens = [] }) }
        ensures left { OnOk result (0 < left) }
        ensures dear { OnErr result ((left ≡ 0) × (self.new ≡ self.old)) }
    {
        if left == 0 {
            return Err(Stop::TooDear);
        }
        self.left = left;
        self.looks = 0;
        self.characters = 0;
        self.made = None;
        self.touched.clear();
        self.printed.clear();
        self.note = None;
        self.opens.clear();
        Ok(())
    }

    /// The operation ends with an answer: memory for all its writes is taken, and they are done. After a refusal the store is as before.
    pub fn finish(&mut self, alloc: Global, answer: Answer) -> Result<Deed, Memory>
        ensures deed { IfOk result (λ deed. IsDeed self.old answer deed) }
        ensures values { self.new.values ≡ self.old.values }
        ensures kinds { OnOk result (kinds self.new.store ≡ kinds_with self.old.made (kinds self.old.store)) }
        ensures names { OnOk result (Noted self.old.note self.old.store self.new.store) }
        ensures said { (self.new.printed ≡ self.old.printed) × (self.new.opens ≡ self.old.opens) }
        ensures writes { OnOk result ((table : ValuesView) → AreInterned table → Extends self.old.values table → IsNamedStore table self.old.store
            → SuitInTurn (seen_at table self.old.store) (map (access_seen table) self.old.touched)
            → seen_at table self.new.store ≡ after_accesses (map (access_seen table) self.old.touched) (seen_at table self.old.store)) }
        ensures refused { OnErr result (KeepsStore self.old.store self.new.store) }

        // What is known of the work before, and of the store afterwards.
        ensures sound { IsSound self.old }
        ensures named { IsNamedStore self.new.values self.new.store }
    {
        let method = self.method();
        let weight = (self.looks + (self.characters + 63) / 64) as u32;
        self.reserve(alloc)?;
        self.note_name()?;
        let accesses = self.write_all(alloc);
        let made = self.made;
        self.made = None;
        Ok(Deed {
            answer,
            made,
            accesses,
            weight,
            method,
        })
    }

    // The method that stands where a method was read last.
    fn method(&self) -> Option<Pos>
        ensures { result ≡ last_method self.now.store self.now.touched None }
    {
        let mut found = None;
        for access in self.touched.iter() {
            if let Access::Read(Location::Method(place, name)) = access {
                found = self.method_there(*place, *name);
            }
        }
        found
    }

    // Memory for all writes of the operation is taken.
    fn reserve(&mut self, alloc: Global) -> Result<(), Memory>
        ensures reserved { OnOk result (IsReservedFor self.new.values self.new.store self.new.made self.new.touched) }
        ensures keeps { KeepsStore self.old.store self.new.store }
        ensures same { self.new ≡ record self.old { store = self.new.store } }
    {
        named_stays();
        self.store
            .reserve_for(alloc, self.touched.as_slice(), self.made, &self.values)
    }

    // The name that the operation notes is noted.
    fn note_name(&mut self) -> Result<(), Memory>
        requires { IsReservedFor self.old.values self.old.store self.old.made self.old.touched }
        ensures noted { OnOk result (Noted self.old.note self.old.store self.new.store) }
        ensures only { self.new.store ≡ record self.old.store { names = self.new.store.names } }
        ensures named { (table : ValuesView) → Extends self.old.values table → IsNamedStore table self.old.store → IsNamedStore table self.new.store }
        ensures kinds { kinds self.new.store ≡ kinds self.old.store }
        ensures reserved { IsReservedFor self.new.values self.new.store self.new.made self.new.touched }
        ensures err { OnErr result (self.new ≡ self.old) }
        ensures same { self.new ≡ record self.old { store = self.new.store } }
    {
        named_stays();
        if let Some((place, name)) = self.note {
            self.store.name_place(place, name)?;
        }
        Ok(())
    }

    // All writes of the operation are done, and its accesses are told.
    fn write_all(&mut self, alloc: Global) -> Accesses
        requires { IsReservedFor self.old.values self.old.store self.old.made self.old.touched }
        ensures touched { result ≡ self.old.touched }
        ensures same { self.new ≡ record self.old { store = self.new.store; touched = [] } }
        ensures kinds { kinds self.new.store ≡ kinds_with self.old.made (kinds self.old.store) }
        ensures names { self.new.store.names ≡ self.old.store.names }
        ensures writes { (table : ValuesView) → AreInterned table → Extends self.old.values table → IsNamedStore table self.old.store
            → SuitInTurn (seen_at table self.old.store) (map (access_seen table) self.old.touched)
            → seen_at table self.new.store ≡ after_accesses (map (access_seen table) self.old.touched) (seen_at table self.old.store) }
    {
        named_stays();
        let touched = mem::replace(&mut self.touched, Vec::new(alloc));
        self.store
            .perform(touched.as_slice(), self.made, &self.values);
        Accesses::of(touched)
    }
}
