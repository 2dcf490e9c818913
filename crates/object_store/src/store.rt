// The store. It stands on a pool of objects, and on maps for what is no part of an object.
ghost use Rattle.std.specs.Prelude.{◌≡◌, ◌<◌, ◌+◌, ◌≤◌, [], ◌∷◌, ◌++◌, List, Option, length, slice_get, slice_set, if◌then◌else◌, Some, None, OnOk, OnErr, IfSome, option_map};
ghost use Rattle.object_store.specs.Store.{held_at, content_at, item_at, keys_at, kinds, name_at, file_at, whole, bytes as held_bytes, room_of, written, changed, IsOwn, IsOwnChange, IsReadWhole, IsReservedFor, Writes, Notes, Makes};
ghost use Rattle.std.specs.Option.{option_copied};
ghost use Rattle.py_value.specs.Values.{ValuesView};
ghost use Rattle.py_value.specs.declared.access.Access.{Access as OneAccess};
ghost use Rattle.py_value.specs.declared.access.Kind.{Kind as OneKind};
ghost use Rattle.py_value.specs.declared.access.Location.{Location as OneLocation};
ghost use Rattle.py_value.specs.declared.access.Location.TheVariants.{File as FileAt};
ghost use Rattle.py_value.specs.contracts.access.LocationPartialEq.TheImpl.{ghosts as locations};
ghost use Rattle.object_store.specs.Cell.{content_of};
ghost use Rattle.object_store.specs.Object.{with_item};
ghost use Rattle.object_store.specs.Room.{HasRoomToSet, HasRoomToUpdate, IsNamedChange, Takes, cells_set, keys_set, keys_put, bytes_put};

use crate::cell::Cell;
use crate::file::File;
use crate::object::Object;
use indexmap::IndexMap;
use prov_base::{Memory, Pos};
use py_value::{Change, Content, Kind, Location, Value, Values};
use region_pool::Pool;
use std::alloc::Global;
use std::marker::Model;
use std::mem;

/// The store of a run.
#[derive(Drop)]
pub struct Store {
    objects: Pool<Object>,
    cells: IndexMap<Location, Cell>,
    files: IndexMap<u32, File>,
    names: IndexMap<Pos, u32>,
    next_object: Object,
}

impl Model for Store {
    ghost use Rattle.indexmap.specs.IndexMap.{spare};
    ghost use Rattle.object_store.specs.Store.{StoreView, IsEmpty, AreOwn};

    ghost Value = { StoreView };

    ghost view = { λ s. record { objects = s.objects.items; cells = s.cells.entries; files = s.files.entries; names = s.names.entries; next_object = s.next_object; spare_objects = s.objects.spare; spare_cells = spare s.cells } };

    ghost invariant = { λ s. IsEmpty s.next_object × AreOwn s.cells.entries };
}

impl Store {
    /// What an object is.
    pub fn kind(&self, o: u32) -> Kind
        requires { o < length (kinds self.now) }
        ensures { slice_get (kinds self.now) o ≡ Some result }
    {
        self.objects.get(o).kind()
    }

    /// The number of the object that is made next.
    pub fn next(&self) -> u32
        ensures { result ≡ length (kinds self.now) }
    {
        self.objects.len()
    }

    /// What stands at a location, where something was set. An order and a file are read by calls of their own.
    pub fn read(&self, l: Location) -> Option<Content>
        requires { IsReadWhole l }
        ensures held { option_map whole result ≡ held_at self.now l }
        ensures own { IfSome result (λ content. IsOwn l content) }
    {
        match l {
            Location::Item(o, i) => match self.item(o, i) {
                Some(item) => Some(Content::Item(item)),
                None => None,
            },
            _ => self.content(l),
        }
    }

    // The item of an object at a place, where one was set.
    fn item(&self, o: u32, i: u64) -> Option<Value>
        ensures { result ≡ item_at self.now o i }
    {
        if o >= self.objects.len() {
            return None;
        }
        self.objects.get(o).item(i)
    }

    // What was set at a location that is no item, order or file.
    fn content(&self, l: Location) -> Option<Content>
        ensures content { result ≡ content_at self.now l }
        ensures own { IfSome result (λ content. IsOwn l content) }
    {
        match self.cells.get(&l) {
            Some(cell) => Some(cell.content()),
            None => None,
        }
    }

    /// How many keys an order has.
    pub fn order_len(&self, o: u32) -> u32
        requires { o < length (kinds self.now) }
        ensures { result ≡ length (keys_at self.now o) }
    {
        self.objects.get(o).key_count()
    }

    /// The key at a place of an order.
    pub fn order_key(&self, o: u32, i: u32) -> Value
        requires { i < length (keys_at self.now o) }
        ensures { slice_get (keys_at self.now o) i ≡ Some result }
    {
        self.objects.get(o).key_at(i as usize)
    }

    /// The bytes of the file at the path with this text.
    pub fn file(&self, path: u32) -> Option<&[u8]>
        ensures { option_copied result ≡ file_at self.now path }
    {
        match self.files.get(&path) {
            Some(file) => file.content(),
            None => None,
        }
    }

    /// Sets the bytes of a file, as they were fetched.
    pub fn place_file(&mut self, alloc: Global, path: u32, bytes: &[u8]) -> Result<(), Memory>
        ensures held { OnOk result (Writes self.old self.new (FileAt path) (held_bytes bytes.now)) }
        ensures err { OnErr result (self.new ≡ self.old) }
        ensures same { self.new ≡ record self.old { files = self.new.files } }

        // A plan that was reserved stays reserved, and so does the room of each file.
        ensures left { Takes (room_of self.old) (room_of self.new) 0 0 0 }
        ensures reserved { (values : ValuesView) (made : Option OneKind) (plan : List OneAccess)
            → IsReservedFor values self.old made plan → IsReservedFor values self.new made plan }
    {
        self.put_file(alloc, path, bytes)?;
        Ok(())
    }

    /// The name that is noted for the function or class at a place.
    pub fn name_at(&self, at: Pos) -> Option<u32>
        ensures { result ≡ name_at self.now at }
    {
        self.names.get(&at).copied()
    }

    /// Notes the name of the function or class at a place, in place of an earlier one.
    pub fn name_place(&mut self, at: Pos, name: u32) -> Result<(), Memory>
        ensures noted { OnOk result (Notes self.old self.new at name) }

        // Where a name is noted already, another in its place needs no memory.
        ensures unnamed { OnErr result (name_at self.old at ≡ None) }
        ensures err { OnErr result (self.new ≡ self.old) }
        ensures same { self.new ≡ record self.old { names = self.new.names } }

        // A plan that was reserved stays reserved.
        ensures reserved { (values : ValuesView) (made : Option OneKind) (plan : List OneAccess)
            → IsReservedFor values self.old made plan → IsReservedFor values self.new made plan }
    {
        self.names.insert(at, name)?;
        Ok(())
    }
}

impl Store {
    /// Makes an object of this kind, of which nothing is set, and answers its number.
    pub fn make(&mut self, kind: Kind) -> u32
        requires { 0 < self.old.spare_objects }
        ensures number { result ≡ length (kinds self.old) }
        ensures kinds { kinds self.new ≡ kinds self.old ++ kind ∷ [] }
        ensures held { (l : OneLocation) → held_at self.new l ≡ held_at self.old l }
        ensures names { self.new.names ≡ self.old.names }
        ensures makes { Makes self.old self.new kind }
        ensures left { self.new.spare_objects + 1 ≡ self.old.spare_objects }
    {
        let alloc = *self.cells.allocator();
        let mut object = mem::replace(&mut self.next_object, Object::new(alloc, Kind::List));
        object.set_kind(kind);
        self.objects.put(object)
    }

    /// Sets a location to a content of its own kind.
    pub fn set(&mut self, l: Location, c: Content)
        requires own { IsOwn l c }
        requires room { HasRoomToSet (room_of self.old) l c }
        ensures writes { Writes self.old self.new l (written c) }
        ensures left { Takes (room_of self.old) (room_of self.new) (cells_set l) (keys_set c) 0 }
        ensures next { self.new.next_object ≡ self.old.next_object }
        ensures objects { self.new.spare_objects ≡ self.old.spare_objects }
    {
        self.set_to(l, &c);
    }

    // Sets a location to a content of its own kind, which stays with the caller.
    pub(super) fn set_to(&mut self, l: Location, c: &Content)
        requires own { IsOwn l c.now }
        requires room { HasRoomToSet (room_of self.old) l c.now }
        ensures writes { Writes self.old self.new l (written c.now) }
        ensures left { Takes (room_of self.old) (room_of self.new) (cells_set l) (keys_set c.now) 0 }
        ensures next { self.new.next_object ≡ self.old.next_object }
        ensures objects { self.new.spare_objects ≡ self.old.spare_objects }
    {
        if let Some(cell) = Cell::of(c) {
            self.set_cell(l, cell);
            return;
        }
        match (l, c) {
            (Location::Item(o, i), Content::Item(item)) => self.set_item(o, i, *item),
            (Location::Order(o), Content::Order(keys)) => self.set_keys(o, keys.as_slice()),
            (Location::File(path), Content::File(_)) => self.empty_file(path),
            _ => {}
        }
    }

    /// Changes an order by a key, or a file by a text, and keeps the rest of what stands there.
    pub fn update(&mut self, l: Location, c: Change, values: &Values)
        requires own { IsOwnChange l c }
        requires text { IsNamedChange values.now c }
        requires room { HasRoomToUpdate values.now (room_of self.old) l c }
        ensures writes { Writes self.old self.new l (changed values.now self.old l c) }
        ensures left { Takes (room_of self.old) (room_of self.new) 0 (keys_put c) (bytes_put values.now c) }
        ensures next { self.new.next_object ≡ self.old.next_object }
        ensures objects { self.new.spare_objects ≡ self.old.spare_objects }
    {
        match (l, c) {
            (Location::Order(o), Change::Insert(key)) => self.insert_key(o, key),
            (Location::Order(o), Change::Delete(key)) => self.delete_key(o, key),
            (Location::File(path), Change::Append(text)) => {
                self.append_file(path, values.text_of(text).as_bytes());
            }
            _ => {}
        }
    }
}

mod opening;
mod perform;
mod reserve;
mod room;
mod writes;
