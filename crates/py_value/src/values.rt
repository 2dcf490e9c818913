// The texts and tuples of a run, each with one number.
ghost use Rattle.std.specs.Prelude.{◌≡◌, ◌<◌, ◌≤◌, ◌↔◌, [], length, slice_get, Some, IfOk, IsOk, IsTrue, OnOk, OnErr, Contains};
ghost use Rattle.std.specs.Prelude.{ℕ, List};
ghost use Rattle.py_value.specs.Contents.{contents, parts_by, tuple as tuple_of_parts};
ghost use Rattle.py_value.specs.declared.value.Value.TheVariants.{Tuple as TupleValue};
ghost use Rattle.py_value.specs.Values.{ValuesView, Adds, Keeps, IsNamed, AreNamed, AreInterned};
ghost use Rattle.py_value.specs.declared.value.Value.{Value as OneValue};

use crate::{KeyFault, Value};
use indexmap::IndexSet;
use prov_base::Memory;
use std::alloc::Global;
use std::marker::Model;

/// The law that values are told apart by their contents: two values whose texts and tuples have numbers in one `Values`
/// have equal contents only where they are the same value.
pub fn same_contents_same_value()
    ensures { (view : ValuesView) (v w : OneValue) → AreInterned view → IsNamed view v → IsNamed view w
        → contents view v ≡ contents view w → v ≡ w }
{}

/// The law that contents stay: where each text and each tuple keeps its number, a value keeps its contents.
pub fn contents_stay()
    ensures { (old new : ValuesView) (v : OneValue) → AreInterned old → Keeps old.texts new.texts → Keeps old.tuples new.tuples
        → IsNamed old v → contents new v ≡ contents old v }
{}

/// The law that the contents of a tuple are the tuple of the contents of its parts.
pub fn tuples_are_their_parts()
    ensures { (view : ValuesView) (id : ℕ) (items : List OneValue) → AreInterned view → slice_get view.tuples id ≡ Some items
        → contents view (TupleValue id) ≡ tuple_of_parts (parts_by (contents view) items) }
{}

/// The texts and tuples of a run. Each is named by a number, counted from 0 in the order in which they came. Equal texts
/// have one number, and so have equal tuples. What has a number keeps it. Contracts see the list of the texts, as their
/// UTF-8 bytes, and that of the tuples.
#[derive(Drop)]
pub struct Values {
    texts: IndexSet<String>,
    tuples: IndexSet<Vec<Value>>,
    notes: Vec<Note>,
}

/// A value as a key, where depth is left out: how many tuples stand inside one another in it, itself counted, and what
/// is refused first of it. A value of which nothing is known has the greatest height.
#[derive(Clone, Copy)]
struct AsKey {
    height: u32,
    fault: Option<KeyFault>,
}

/// What is known of a tuple, once for each: the tuple as a key, and the number of its normal form once that is there.
#[derive(Clone, Copy)]
struct Note {
    as_key: AsKey,
    normal: Option<u32>,
}

impl Model for Values {
    ghost use Rattle.std.specs.Prelude.{map, vec_items};
    ghost use Rattle.std.specs.String.{string_bytes};
    ghost use Rattle.py_value.specs.Values.{ValuesView};
    ghost use Rattle.py_value.specs.Notes.{AreNoted};

    ghost Value = { ValuesView };

    ghost view = { λ v. record { texts = map string_bytes v.texts.keys; tuples = map vec_items v.tuples.keys } };

    ghost invariant = { λ v. AreNoted (record { texts = map string_bytes v.texts.keys; tuples = map vec_items v.tuples.keys }) v.notes.items };
}

impl Values {
    /// No text and no tuple. It takes no memory yet.
    pub fn new(alloc: Global) -> Result<Values, Memory>
        ensures { IfOk result (λ values. values ≡ record { texts = []; tuples = [] }) }
    {
        Ok(Values {
            texts: IndexSet::new(alloc),
            tuples: IndexSet::new(alloc),
            notes: Vec::new(alloc),
        })
    }

    /// The number of a text. Nothing is taken for one that has a number. It fails where memory runs out, or numbers do.
    pub fn text(&mut self, alloc: Global, s: &str) -> Result<u32, Memory>
        ensures name { IfOk result (λ id. slice_get self.new.texts id ≡ Some s.now) }
        ensures texts { OnOk result (Adds self.old.texts self.new.texts s.now) }
        ensures tuples { self.new.tuples ≡ self.old.tuples }

        // What had a number keeps it, and the answered number is one of those given.
        ensures within { IfOk result (λ id. id < length self.new.texts) }
        ensures grows { length self.old.texts ≤ length self.new.texts }
        ensures keeps { Keeps self.old.texts self.new.texts }

        // What has a number already needs no memory.
        ensures known { Contains self.old.texts s.now → IsOk result }
        ensures err { OnErr result (self.new ≡ self.old) }
        ensures interned { AreInterned self.new }
    {
        if let Some(number) = self.texts.get_index_of(s) {
            return Ok(number as u32);
        }
        let Ok(number) = u32::try_from(self.texts.len()) else {
            return Err(Memory);
        };
        let text = String::from_str(alloc, s)?;
        self.texts.insert(text)?;
        Ok(number)
    }

    /// The text with this number.
    pub fn text_of(&self, id: u32) -> &str
        requires { id < length self.now.texts }
        ensures text { slice_get self.now.texts id ≡ Some result.now }
        ensures interned { AreInterned self.now }
    {
        self.texts.as_slice()[id as usize].as_str()
    }

    /// The tuple with this number.
    pub fn tuple_of(&self, id: u32) -> &[Value]
        requires { id < length self.now.tuples }
        ensures tuple { slice_get self.now.tuples id ≡ Some result.now }
        ensures interned { AreInterned self.now }
    {
        self.tuples.as_slice()[id as usize].as_slice()
    }

    /// Whether the texts and tuples that a value names have numbers here.
    pub fn has(&self, v: Value) -> bool
        ensures { IsTrue result ↔ IsNamed self.now v }
    {
        match v {
            Value::Text(id) => (id as usize) < self.texts.len(),
            Value::Tuple(id) => (id as usize) < self.tuples.len(),
            _ => true,
        }
    }

    /// The number of a tuple of values, whose own texts and tuples have numbers here.
    pub fn tuple(&mut self, alloc: Global, items: &[Value]) -> Result<u32, Memory>
        requires { AreNamed self.old items.now }
        ensures name { IfOk result (λ id. slice_get self.new.tuples id ≡ Some items.now) }
        ensures tuples { OnOk result (Adds self.old.tuples self.new.tuples items.now) }
        ensures texts { self.new.texts ≡ self.old.texts }

        // What had a number keeps it, and the answered number is one of those given.
        ensures within { IfOk result (λ id. id < length self.new.tuples) }
        ensures grows { length self.old.tuples ≤ length self.new.tuples }
        ensures keeps { Keeps self.old.tuples self.new.tuples }

        // What has a number already needs no memory.
        ensures known { Contains self.old.tuples items.now → IsOk result }
        ensures err { OnErr result (self.new ≡ self.old) }
        ensures interned { AreInterned self.new }
    {
        if let Some(number) = self.tuples.get_index_of(items) {
            return Ok(number as u32);
        }
        let Ok(number) = u32::try_from(self.tuples.len()) else {
            return Err(Memory);
        };
        let tuple = Vec::from_slice(alloc, items)?;
        self.tuples.insert(tuple)?;
        Ok(number)
    }
}

mod keys;
