// Whether the room that a plan needs is there already.
ghost use Rattle.std.specs.Prelude.{◌≡◌, ◌↔◌, ◌+◌, ◌<◌, ◌≤◌, length, IsTrue, IsSome};
ghost use Rattle.object_store.specs.Room.{object_in, slot_in, bytes_in, AreWithin, IsAccessWithin, HasPlaceFor, HasPlaces};
ghost use Rattle.object_store.specs.Store.{room_of, room_with_next};

use super::Store;
use crate::need::Need;
use crate::object::Object;
use py_value::{Access, Location};

impl Store {
    // There is the place that each access of a plan needs, with room for so many keys or bytes in it.
    pub(super) fn has_places(&self, plan: &[Access], need: Need) -> bool
        requires { AreWithin (length self.now.objects + 1) plan.now }
        ensures { IsTrue result ↔ HasPlaces (room_with_next self.now) need.keys need.bytes plan.now }
    {
        for access in plan {
            if !self.has_place(access, need) {
                return false;
            }
        }
        true
    }

    // There is the place that an access needs.
    fn has_place(&self, access: &Access, need: Need) -> bool
        requires { IsAccessWithin (length self.now.objects + 1) access.now }
        ensures { IsTrue result ↔ HasPlaceFor (room_with_next self.now) need.keys need.bytes access.now }
    {
        match access {
            Access::Set(Location::Item(o, i), _) => self.object(*o).has_place(*i),
            Access::Set(Location::Order(o), _) | Access::Update(Location::Order(o), _) => {
                need.keys <= self.object(*o).key_room()
            }
            Access::Set(Location::File(path), _) => self.files.contains_key(path),
            Access::Update(Location::File(path), _) => self.has_file_room(*path, need.bytes),
            _ => true,
        }
    }

    // The object with this number, or the one that is ready.
    fn object(&self, o: u32) -> &Object
        requires { o < length self.now.objects + 1 }
        ensures { result.now ≡ object_in (room_with_next self.now) o }
    {
        if o < self.objects.len() {
            self.objects.get(o)
        } else {
            &self.next_object
        }
    }

    // There is a place for a file, with room for so many more bytes.
    pub(super) fn has_file_room(&self, path: u32, bytes: usize) -> bool
        ensures { IsTrue result ↔ (IsSome (slot_in (room_of self.now) path) × (bytes ≤ bytes_in (room_of self.now) path)) }
    {
        match self.files.get(&path) {
            Some(file) => bytes <= file.room(),
            None => false,
        }
    }

    // For how many more bytes there is room in a file.
    pub(super) fn file_room(&self, path: u32) -> usize
        ensures { result ≡ bytes_in (room_of self.now) path }
    {
        match self.files.get(&path) {
            Some(file) => file.room(),
            None => 0,
        }
    }

    // For how many more cells there is room.
    pub(super) fn cell_room(&self) -> usize
        ensures { result ≡ self.now.spare_cells }
    {
        self.cells.capacity() - self.cells.len()
    }
}
