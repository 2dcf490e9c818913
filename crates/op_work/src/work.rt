// What an operation did so far, over the store and the values of a run.
ghost use Rattle.std.specs.Prelude.{◌≡◌, ◌<◌, ◌≤◌, ◌+◌, ◌*◌, ◌↔◌, [], ◌∷◌, ◌++◌, None, length, OnOk, IfErr, OnErr, IsTrue};
ghost use Rattle.op_work.specs.Work.{WorkView, cost_of, IsUnpaid};
ghost use Rattle.object_store.specs.Named.{IsNamedStore};
ghost use Rattle.py_value.specs.Seen.{IsNamedLocation};
ghost use Rattle.py_value.specs.Values.{AreInterned};
ghost use Rattle.py_value.specs.declared.access.Access.TheVariants.{Read};

use crate::Stop;
use object_store::Store;
use prov_base::Pos;
use py_value::{Access, Kind, Location, Values};
use std::alloc::Global;
use std::marker::Model;

/// The store and the values of a run, and what the operation at hand did so far. It never costs more than the steps that were left.
#[derive(Drop)]
pub struct Work {
    pub(crate) store: Store,
    pub(crate) values: Values,
    pub(crate) touched: Vec<Access>,
    pub(crate) made: Option<Kind>,
    pub(crate) looks: u64,
    pub(crate) characters: u64,
    pub(crate) left: u32,
    pub(crate) printed: Vec<u8>,
    pub(crate) note: Option<(Pos, u32)>,
    pub(crate) opens: Vec<u32>,
}

impl Model for Work {
    ghost use Rattle.std.specs.Prelude.{◌≤◌, ◌+◌, length};
    ghost use Rattle.op_work.specs.Work.{WorkView, cost_of, AreNamedSayings, AreThere};
    ghost use Rattle.object_store.specs.Named.{IsNamedStore};
    ghost use Rattle.object_store.specs.Room.{AreWithin};
    ghost use Rattle.object_store.specs.Store.{count_with};
    ghost use Rattle.py_value.specs.Named.{AreNamedAccesses, IsNamedKind};
    ghost use Rattle.py_value.specs.Values.{AreInterned};

    ghost Value = { WorkView };

    ghost view = { λ w. record { store = w.store; values = w.values; touched = w.touched.items; made = w.made; looks = w.looks; characters = w.characters; left = w.left; printed = w.printed.items; note = w.note; opens = w.opens.items } };

    ghost invariant = { λ w. ((cost_of (length w.touched.items) w.looks w.characters ≤ w.left) × AreNamedSayings w.values w.note w.opens.items) × ((AreInterned w.values × IsNamedStore w.values w.store) × (AreNamedAccesses w.values w.touched.items × (IsNamedKind w.values w.made × (AreWithin (count_with w.made w.store) w.touched.items × AreThere w.store w.touched.items)))) };
}

impl Work {
    /// Nothing is done yet, with one step left.
    pub fn new(alloc: Global, store: Store, values: Values) -> Work
        requires interned { AreInterned values }
        requires named { IsNamedStore values store }
        ensures { result ≡ record { store = store; values = values; touched = []; made = None; looks = 0; characters = 0; left = 1; printed = []; note = None; opens = [] } }
    {
        Work {
            store,
            values,
            touched: Vec::new(alloc),
            made: None,
            looks: 0,
            characters: 0,
            left: 1,
            printed: Vec::new(alloc),
            note: None,
            opens: Vec::new(alloc),
        }
    }

    // Whether so many accesses or items more, and so many characters, can be paid for.
    pub(crate) fn pays(&self, steps: u64, characters: u64) -> bool
        ensures { IsTrue result ↔ (cost_of (length self.now.touched) (self.now.looks + steps) (self.now.characters + characters) ≤ self.now.left) }
    {
        let left = u64::from(self.left);
        if steps > left || characters > 64 * left {
            return false;
        }
        let weight = self.looks + steps + (self.characters + characters + 63) / 64;
        1 + self.touched.len() as u64 + weight <= left
    }

    // That a location is read is noted, where it can be paid for.
    pub(crate) fn note_read(&mut self, l: Location) -> Result<(), Stop>
        requires { IsNamedLocation self.old.values l }
        ensures named { IsNamedStore self.new.values self.new.store }
        ensures done { OnOk result (self.new ≡ record self.old { touched = self.old.touched ++ Read l ∷ [] }) }
        ensures unpaid { IfErr result (λ stop. IsUnpaid self.old 1 0 stop) }
        ensures same { OnErr result (self.new ≡ self.old) }
    {
        if !self.pays(1, 0) {
            return Err(Stop::TooDear);
        }
        self.touched.push(Access::Read(l))?;
        Ok(())
    }

    // Items are looked at, where they can be paid for.
    pub(crate) fn note_looks(&mut self, items: u64) -> Result<(), Stop>
        ensures done { OnOk result (self.new ≡ record self.old { looks = self.old.looks + items }) }
        ensures unpaid { IfErr result (λ stop. IsUnpaid self.old items 0 stop) }
        ensures same { OnErr result (self.new ≡ self.old) }
    {
        if !self.pays(items, 0) {
            return Err(Stop::TooDear);
        }
        self.looks += items;
        Ok(())
    }

    // Characters are counted, where they can be paid for.
    pub(crate) fn note_characters(&mut self, characters: u64) -> Result<(), Stop>
        ensures done { OnOk result (self.new ≡ record self.old { characters = self.old.characters + characters }) }
        ensures unpaid { IfErr result (λ stop. IsUnpaid self.old 0 characters stop) }
        ensures same { OnErr result (self.new ≡ self.old) }
    {
        if !self.pays(0, characters) {
            return Err(Stop::TooDear);
        }
        self.characters += characters;
        Ok(())
    }
}
