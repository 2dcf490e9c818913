// The single writes: of a cell, an item, an order, a file. Each says what it leaves of the store's parts.
ghost use Rattle.std.specs.Prelude.{◌≡◌, ℕ, ◌==◌, ◌<◌, ◌≤◌, ◌+◌, [], ◌++◌, length, unwrap_or, slice_set, is_some, if◌then◌else◌, Some, IsSome, OnOk, OnErr};
ghost use Rattle.py_value.specs.declared.access.Location.{Location as OneLocation};
ghost use Rattle.py_value.specs.declared.access.Location.TheVariants.{File as FileAt};
ghost use Rattle.py_value.specs.contracts.access.LocationPartialEq.TheImpl.{ghosts as locations};
ghost use Rattle.object_store.specs.Cell.{content_of};
ghost use Rattle.object_store.specs.Object.{with_item, with_key, with_keys, without_key, HasKeys};
ghost use Rattle.object_store.specs.Store.{content_at, object_at, file_at, room_of, bytes as held_bytes, IsOwn, Writes};
ghost use Rattle.object_store.specs.Room.{slot_in, bytes_in, Takes};

use super::Store;
use crate::cell::Cell;
use crate::file::File;
use prov_base::Memory;
use py_value::{Location, Value};
use std::alloc::Global;

impl Store {
    // Sets what is no item, order or file.
    pub(super) fn set_cell(&mut self, l: Location, cell: Cell)
        requires own { IsOwn l (content_of cell) }
        requires room { 0 < self.old.spare_cells }
        ensures cells { (m : OneLocation) → content_at self.new m ≡ (if locations.eq l m then Some (content_of cell) else content_at self.old m) }
        ensures same { self.new ≡ record self.old { cells = self.new.cells; spare_cells = self.new.spare_cells } }
        ensures spare { self.old.spare_cells ≤ self.new.spare_cells + 1 }
    {
        let _ = self.cells.insert(l, cell);
    }

    // Sets an item.
    pub(super) fn set_item(&mut self, o: u32, i: u64, item: Value)
        requires object { o < length self.old.objects }
        requires place { i < length (object_at self.old o).items }
        ensures { self.new ≡ record self.old { objects = slice_set self.old.objects o (with_item (object_at self.old o) i item) } }
    {
        self.objects.get_mut(o).set_item(i, item);
    }

    // Makes these the keys of an order, one after another.
    pub(super) fn set_keys(&mut self, o: u32, keys: &[Value])
        requires object { o < length self.old.objects }
        requires room { length keys.now ≤ (object_at self.old o).spare }
        ensures same { self.new ≡ record self.old { objects = slice_set self.old.objects o (object_at self.new o) } }
        ensures keys { HasKeys (object_at self.old o) (object_at self.new o) (with_keys [] keys.now) (length keys.now) }
    {
        self.objects.get_mut(o).set_keys(keys);
    }

    // Puts a key into an order.
    pub(super) fn insert_key(&mut self, o: u32, key: Value)
        requires object { o < length self.old.objects }
        requires room { 0 < (object_at self.old o).spare }
        ensures same { self.new ≡ record self.old { objects = slice_set self.old.objects o (object_at self.new o) } }
        ensures keys { HasKeys (object_at self.old o) (object_at self.new o) (with_key (object_at self.old o).keys key) 1 }
    {
        self.objects.get_mut(o).insert_key(key);
    }

    // Takes a key out of an order.
    pub(super) fn delete_key(&mut self, o: u32, key: Value)
        requires { o < length self.old.objects }
        ensures same { self.new ≡ record self.old { objects = slice_set self.old.objects o (object_at self.new o) } }
        ensures keys { HasKeys (object_at self.old o) (object_at self.new o) (without_key (object_at self.old o).keys key) 0 }
    {
        self.objects.get_mut(o).delete_key(key);
    }

    // Makes a file for which there is a place empty.
    pub(super) fn empty_file(&mut self, path: u32)
        requires { IsSome (slot_in (room_of self.old) path) }
        ensures file { (p : ℕ) → file_at self.new p ≡ (if path == p then Some [] else file_at self.old p) }
        ensures same { self.new ≡ record self.old { files = self.new.files } }
        ensures slots { (p : ℕ) → is_some (slot_in (room_of self.new) p) ≡ is_some (slot_in (room_of self.old) p) }
        ensures room { (p : ℕ) → bytes_in (room_of self.old) p ≤ bytes_in (room_of self.new) p }
    {
        if let Some(file) = self.files.get_mut(&path) {
            file.empty();
        }
    }

    // Puts bytes behind those of a file for which there is a place.
    pub(super) fn append_file(&mut self, path: u32, bytes: &[u8])
        requires there { IsSome (slot_in (room_of self.old) path) }
        requires room { length bytes.now ≤ bytes_in (room_of self.old) path }
        ensures file { (p : ℕ) → file_at self.new p ≡ (if path == p then Some (unwrap_or (file_at self.old path) [] ++ bytes.now) else file_at self.old p) }
        ensures same { self.new ≡ record self.old { files = self.new.files } }
        ensures slots { (p : ℕ) → is_some (slot_in (room_of self.new) p) ≡ is_some (slot_in (room_of self.old) p) }
        ensures room { (p : ℕ) → bytes_in (room_of self.old) p ≤ bytes_in (room_of self.new) p + length bytes.now }
    {
        if let Some(file) = self.files.get_mut(&path) {
            file.append(bytes);
        }
    }

    // Puts a file at a path, with as much room as was there.
    pub(super) fn put_file(&mut self, alloc: Global, path: u32, bytes: &[u8]) -> Result<(), Memory>
        ensures held { OnOk result (Writes self.old self.new (FileAt path) (held_bytes bytes.now)) }
        ensures err { OnErr result (self.new ≡ self.old) }
        ensures same { self.new ≡ record self.old { files = self.new.files } }
        ensures left { Takes (room_of self.old) (room_of self.new) 0 0 0 }
    {
        let room = self.file_room(path);
        let file = File::holding(alloc, bytes, room)?;
        self.files.insert(path, file)?;
        Ok(())
    }
}
