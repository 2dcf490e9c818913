// One object of a run: its kind, its items where it is a list, and its keys in their order where it has keys.
// It stands on a `Vec` and an `IndexSet`, and says for how many items and keys there is room.
ghost use Rattle.std.specs.Prelude.{◌≡◌, ℕ, ◌+◌, ◌*◌, ◌<◌, ◌≤◌, max, ◌↔◌, [], Some, IsTrue, OnOk, slice_get, slice_set, length};
ghost use Rattle.py_value.specs.declared.access.Kind.TheVariants.{List as ListKind};
ghost use Rattle.object_store.specs.Object.{item_in, item_of, with_key, with_keys, without_key};

use indexmap::IndexSet;
use prov_base::Memory;
use py_value::{Kind, Value};
use std::alloc::Global;
use std::cmp::min;
use std::marker::Model;

// The keys may take room for so many more than twice what is needed.
const MOST_KEYS_MORE: usize = 64;

/// An object. Contracts see its kind, its places for items, its keys in order, and for how many more keys there is room.
#[derive(Drop)]
pub struct Object {
    kind: Kind,
    items: Vec<Option<Value>>,
    keys: IndexSet<Value>,
}

impl Model for Object {
    ghost use Rattle.std.specs.Prelude.{◌-◌, ◌<◌, min, length};
    ghost use Rattle.indexmap.specs.IndexSet.{spare};
    ghost use Rattle.object_store.specs.Object.{ObjectView};

    ghost Value = { ObjectView };

    ghost view = { λ o. record { kind = o.kind; items = o.items.items; keys = o.keys.keys; spare = min (spare o.keys) (4294967295 - length o.keys.keys) } };

    ghost invariant = { λ o. length o.keys.keys < 4294967296 };
}

impl Object {
    /// An object of this kind with nothing set and no room.
    pub fn new(alloc: Global, kind: Kind) -> Object
        ensures kind { result.kind ≡ kind }
        ensures items { result.items ≡ [] }
        ensures keys { result.keys ≡ [] }
    {
        Object {
            kind,
            items: Vec::new(alloc),
            keys: IndexSet::new(alloc),
        }
    }

    /// A list with these items and no room for more.
    pub fn list(alloc: Global, items: Vec<Option<Value>>) -> Object
        ensures kind { result.kind ≡ ListKind }
        ensures items { result.items ≡ items.items }
        ensures keys { result.keys ≡ [] }
    {
        Object {
            kind: Kind::List,
            items,
            keys: IndexSet::new(alloc),
        }
    }

    /// What the object is.
    pub fn kind(&self) -> Kind
        ensures { result ≡ self.now.kind }
    {
        self.kind
    }

    /// Makes it an object of this kind.
    pub fn set_kind(&mut self, kind: Kind)
        ensures { self.new ≡ record self.old { kind = kind } }
    {
        self.kind = kind;
    }

    /// The item at a place, where one was set.
    pub fn item(&self, i: u64) -> Option<Value>
        ensures { result ≡ item_of self.now i }
    {
        match self.items.get(i as usize) {
            Some(item) => *item,
            None => None,
        }
    }

    /// Sets the item at a place that is there.
    pub fn set_item(&mut self, i: u64, item: Value)
        requires { i < length self.old.items }
        ensures { self.new ≡ record self.old { items = slice_set self.old.items i (Some item) } }
    {
        self.items[i as usize] = Some(item);
    }

    /// There is this place for an item.
    pub fn has_place(&self, i: u64) -> bool
        ensures { IsTrue result ↔ (i < length self.now.items) }
    {
        i < self.items.len() as u64
    }

    /// Makes this place for an item, and all before it.
    pub fn reserve_item(&mut self, i: u64) -> Result<(), Memory>
        ensures room { OnOk result (i < length self.new.items) }
        ensures same { (k : ℕ) → item_of self.new k ≡ item_of self.old k }
        ensures grows { length self.old.items ≤ length self.new.items }
        ensures kind { self.new.kind ≡ self.old.kind }
        ensures keys { self.new.keys ≡ self.old.keys }
        ensures spare { self.new.spare ≡ self.old.spare }
        ensures few { OnOk result (length self.new.items ≤ max (length self.old.items) (i + 1)) }
    {
        reach(&mut self.items, i as usize)
    }

    /// How many keys there are. There is room for no more than have numbers.
    pub fn key_count(&self) -> u32
        ensures { result ≡ length self.now.keys }
    {
        self.keys.len() as u32
    }

    /// The key at a place of the order.
    pub fn key_at(&self, i: usize) -> Value
        requires { i < length self.now.keys }
        ensures { slice_get self.now.keys i ≡ Some result }
    {
        self.keys.as_slice()[i]
    }

    /// Puts a key behind the others, where it is not there yet.
    pub fn insert_key(&mut self, key: Value)
        requires { 0 < self.old.spare }
        ensures keys { self.new.keys ≡ with_key self.old.keys key }
        ensures items { self.new.items ≡ self.old.items }
        ensures kind { self.new.kind ≡ self.old.kind }
        ensures spare { self.old.spare ≤ self.new.spare + 1 }
    {
        let _ = self.keys.insert(key);
    }

    /// Makes these its keys, one after another, each where it is not there yet.
    pub fn set_keys(&mut self, keys: &[Value])
        requires { length keys.now ≤ self.old.spare }
        ensures keys { self.new.keys ≡ with_keys [] keys.now }
        ensures items { self.new.items ≡ self.old.items }
        ensures kind { self.new.kind ≡ self.old.kind }
        ensures spare { self.old.spare ≤ self.new.spare + length keys.now }
    {
        self.keys.clear();
        self.insert_keys(keys);
    }

    // Puts keys behind the others, one after another, each where it is not there yet.
    fn insert_keys(&mut self, keys: &[Value])
        requires { length keys.now ≤ self.old.spare }
        ensures keys { self.new.keys ≡ with_keys self.old.keys keys.now }
        ensures items { self.new.items ≡ self.old.items }
        ensures kind { self.new.kind ≡ self.old.kind }
        ensures spare { self.old.spare ≤ self.new.spare + length keys.now }
    {
        for key in keys {
            self.insert_key(*key);
        }
    }

    /// Takes a key out, where it is there.
    pub fn delete_key(&mut self, key: Value)
        ensures keys { self.new.keys ≡ without_key self.old.keys key }
        ensures items { self.new.items ≡ self.old.items }
        ensures kind { self.new.kind ≡ self.old.kind }
        ensures spare { self.old.spare ≤ self.new.spare }
    {
        self.keys.shift_remove(&key);
    }

    /// For how many more keys there is room.
    pub fn key_room(&self) -> usize
        ensures { result ≡ self.now.spare }
    {
        let len = self.keys.len();
        min(self.keys.capacity() - len, u32::MAX as usize - len)
    }

    /// Makes room for so many more keys. The set of keys promises no bound on the room that it takes: it is tested.
    pub fn reserve_keys(&mut self, count: usize) -> Result<(), Memory>
        ensures room { OnOk result (count ≤ self.new.spare) }
        ensures items { self.new.items ≡ self.old.items }
        ensures kind { self.new.kind ≡ self.old.kind }
        ensures keys { self.new.keys ≡ self.old.keys }
        ensures grows { self.old.spare ≤ self.new.spare }
        ensures few { OnOk result (self.new.spare ≤ max self.old.spare (length self.old.keys + 2 * count + 64)) }
    {
        if u32::MAX as usize - self.keys.len() < count {
            return Err(Memory);
        }
        self.keys.reserve(count)?;
        let needed = self.keys.len().saturating_add(count);
        let more = self.key_room() - count;
        if more.saturating_sub(MOST_KEYS_MORE) > needed {
            return Err(Memory);
        }
        Ok(())
    }
}

// Makes a list of items reach a place.
fn reach(items: &mut Vec<Option<Value>>, at: usize) -> Result<(), Memory>
    ensures within { OnOk result (at < length items.new.items) }
    ensures same { (k : ℕ) → item_in items.new.items k ≡ item_in items.old.items k }
    ensures grows { length items.old.items ≤ length items.new.items }
    ensures few { OnOk result (length items.new.items ≤ max (length items.old.items) (at + 1)) }
{
    if at < items.len() {
        return Ok(());
    }
    if at == usize::MAX {
        return Err(Memory);
    }
    items.resize(at + 1, None)?;
    Ok(())
}
