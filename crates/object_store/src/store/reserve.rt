// Memory for a plan of writes, taken before the first of them. Whether it is had or refused, all that stands in the
// store is as before.
ghost use Rattle.std.specs.Prelude.{◌≡◌, ◌==◌, ◌*◌, ℕ, suc, ◌+◌, ◌<◌, ◌≤◌, max, false, if◌then◌else◌, length, slice_set, slice_get, Some, IsSome, IsOk, IfSome, OnOk};
ghost use Rattle.py_value.specs.declared.access.Access.{Access as OneAccess};
ghost use Rattle.py_value.specs.declared.access.Access.TheVariants.{Set, Update};
ghost use Rattle.py_value.specs.declared.access.Change.{Change as OneChange};
ghost use Rattle.py_value.specs.declared.access.Content.{Content as OneContent};
ghost use Rattle.object_store.specs.Frugal.{bytes_most, TakesFew, TakesFewFor, TakesUpTo};
ghost use Rattle.object_store.specs.Object.{Grows};
ghost use Rattle.object_store.specs.Room.{bytes_in_all, cells_in, keys_in, object_in, slot_in, bytes_in, AreNamedAccesses, AreWithin, IsAccessWithin, IsWithin, Takes, HasPlaceFor, HasPlaces};
ghost use Rattle.object_store.specs.Store.{object_at, room_of, room_with_next, count_with, file_at, Keeps, FewCells, FewObjects, HasRoomForAll, IsReservedFor};

use super::Store;
use crate::file::File;
use crate::need::Need;
use prov_base::Memory;
use py_value::{Access, Kind, Location, Values};
use region_pool::NoRoom;
use std::alloc::Global;

// The map of cells may take room for so many more than twice what is needed.
const MOST_CELLS_MORE: usize = 64;

impl Store {
    /// Takes all memory that the writes of a plan need, in their order, with the object that is made first. The plan names
    /// that object by `next`.
    pub fn reserve_for(
        &mut self,
        alloc: Global,
        plan: &[Access],
        made: Option<Kind>,
        values: &Values,
    ) -> Result<(), Memory>
        requires texts { AreNamedAccesses values.now plan.now }
        requires objects { AreWithin (count_with made self.old) plan.now }
        ensures reserved { OnOk result (IsReservedFor values.now self.new made plan.now) }
        ensures keeps { Keeps self.old self.new }
        ensures room { OnOk result (HasRoomForAll values.now self.new made plan.now) }

        // Where all the room is there already, as right after a call with this plan, nothing is taken.
        ensures had_room { HasRoomForAll values.now self.old made plan.now → IsOk result }
        ensures no_more { HasRoomForAll values.now self.old made plan.now → self.new ≡ self.old }

        // Room never shrinks, also after a refusal. Of objects, cells, keys and bytes less than about twice what is needed in all is taken, and of places
        // for items as many as are needed.
        ensures grows { Takes (room_with_next self.old) (room_with_next self.new) 0 0 0 }
        ensures objects { (self.old.spare_objects ≤ self.new.spare_objects) × FewObjects self.old self.new }
        ensures frugal { OnOk result (FewCells self.old self.new (cells_in plan.now)) }
        ensures few { OnOk result (TakesFew (room_with_next self.old) (room_with_next self.new) plan.now (keys_in plan.now) (bytes_in_all values.now plan.now)) }
    {
        let need = Need::of(plan, values)?;
        self.make_object_room(alloc, made)?;
        if need.cells <= self.cell_room() && self.has_places(plan, need) {
            return Ok(());
        }
        self.make_cell_room(need.cells)?;
        self.make_places(alloc, plan, need)?;
        Ok(())
    }

    // Makes room for so many cells more. The map of cells promises no bound on the room that it takes: it is tested.
    fn make_cell_room(&mut self, count: usize) -> Result<(), Memory>
        ensures room { OnOk result (count ≤ self.new.spare_cells) }
        ensures same { self.new ≡ record self.old { spare_cells = self.new.spare_cells } }
        ensures grows { self.old.spare_cells ≤ self.new.spare_cells }
        ensures frugal { OnOk result (FewCells self.old self.new count) }
    {
        if count <= self.cell_room() {
            return Ok(());
        }
        self.cells.reserve(count)?;
        let needed = self.cells.len().saturating_add(count);
        let more = self.cell_room() - count;
        if more.saturating_sub(MOST_CELLS_MORE) > needed {
            return Err(Memory);
        }
        Ok(())
    }

    // Makes room for the object that a plan makes.
    fn make_object_room(&mut self, alloc: Global, made: Option<Kind>) -> Result<(), Memory>
        ensures room { OnOk result (IfSome made (λ kind. 0 < self.new.spare_objects)) }
        ensures same { self.new ≡ record self.old { spare_objects = self.new.spare_objects } }
        ensures had_room { IfSome made (λ kind. 0 < self.old.spare_objects) → IsOk result }
        ensures no_more { IfSome made (λ kind. 0 < self.old.spare_objects) → self.new ≡ self.old }
        ensures grows { self.old.spare_objects ≤ self.new.spare_objects }
        ensures frugal { FewObjects self.old self.new }
    {
        if made.is_none() {
            return Ok(());
        }
        match self.objects.reserve(alloc, 1) {
            Ok(()) => Ok(()),
            Err(NoRoom) => Err(Memory),
        }
    }

    // Makes the places that the accesses of a plan need, each with room for so many keys or bytes.
    fn make_places(&mut self, alloc: Global, plan: &[Access], need: Need) -> Result<(), Memory>
        requires { AreWithin (length self.old.objects + 1) plan.now }
        ensures places { OnOk result (HasPlaces (room_with_next self.new) need.keys need.bytes plan.now) }
        ensures keeps { Keeps self.old self.new }
        ensures left { Takes (room_with_next self.old) (room_with_next self.new) 0 0 0 }
        ensures spare { self.new.spare_objects ≡ self.old.spare_objects }
        ensures count { length self.new.objects ≡ length self.old.objects }
        ensures cells { self.new.spare_cells ≡ self.old.spare_cells }
        ensures few { OnOk result (TakesFew (room_with_next self.old) (room_with_next self.new) plan.now need.keys need.bytes) }
    {
        for access in plan {
            self.make_place(alloc, access, need)?;
        }
        Ok(())
    }

    // Makes the place that an access needs.
    fn make_place(&mut self, alloc: Global, access: &Access, need: Need) -> Result<(), Memory>
        requires { IsAccessWithin (length self.old.objects + 1) access.now }
        ensures place { OnOk result (HasPlaceFor (room_with_next self.new) need.keys need.bytes access.now) }
        ensures keeps { Keeps self.old self.new }
        ensures left { Takes (room_with_next self.old) (room_with_next self.new) 0 0 0 }
        ensures spare { self.new.spare_objects ≡ self.old.spare_objects }
        ensures count { length self.new.objects ≡ length self.old.objects }
        ensures cells { self.new.spare_cells ≡ self.old.spare_cells }
        ensures few { OnOk result (TakesFewFor (room_with_next self.old) (room_with_next self.new) access.now need.keys need.bytes) }
    {
        match access {
            Access::Read(_) => Ok(()),
            Access::Set(l, _) => self.make_place_to_set(alloc, *l, need),
            Access::Update(l, _) => self.make_place_to_update(alloc, *l, need),
        }
    }

    // Makes the place that a content needs that is set.
    fn make_place_to_set(&mut self, alloc: Global, l: Location, need: Need) -> Result<(), Memory>
        requires { IsWithin (length self.old.objects + 1) l }
        ensures place { OnOk result ((content : OneContent) → HasPlaceFor (room_with_next self.new) need.keys need.bytes (Set l content)) }
        ensures keeps { Keeps self.old self.new }
        ensures left { Takes (room_with_next self.old) (room_with_next self.new) 0 0 0 }
        ensures spare { self.new.spare_objects ≡ self.old.spare_objects }
        ensures count { length self.new.objects ≡ length self.old.objects }
        ensures cells { self.new.spare_cells ≡ self.old.spare_cells }
        ensures few { OnOk result ((content : OneContent) → TakesFewFor (room_with_next self.old) (room_with_next self.new) (Set l content) need.keys need.bytes) }
    {
        match l {
            Location::Item(o, i) => self.make_item(o, i),
            Location::Order(o) => self.make_keys(o, need.keys),
            Location::File(path) => self.make_file(alloc, path, need.bytes),
            _ => Ok(()),
        }
    }

    // Makes the place that a change needs.
    fn make_place_to_update(&mut self, alloc: Global, l: Location, need: Need) -> Result<(), Memory>
        requires { IsWithin (length self.old.objects + 1) l }
        ensures place { OnOk result ((change : OneChange) → HasPlaceFor (room_with_next self.new) need.keys need.bytes (Update l change)) }
        ensures keeps { Keeps self.old self.new }
        ensures left { Takes (room_with_next self.old) (room_with_next self.new) 0 0 0 }
        ensures spare { self.new.spare_objects ≡ self.old.spare_objects }
        ensures count { length self.new.objects ≡ length self.old.objects }
        ensures cells { self.new.spare_cells ≡ self.old.spare_cells }
        ensures few { OnOk result ((change : OneChange) → TakesFewFor (room_with_next self.old) (room_with_next self.new) (Update l change) need.keys need.bytes) }
    {
        match l {
            Location::Order(o) => self.make_keys(o, need.keys),
            Location::File(path) => self.make_file(alloc, path, need.bytes),
            _ => Ok(()),
        }
    }

    // Makes a place for an item of an object, or of the one that is ready.
    fn make_item(&mut self, o: u32, i: u64) -> Result<(), Memory>
        requires { o < length self.old.objects + 1 }
        ensures place { OnOk result (i < length (object_in (room_with_next self.new) o).items) }
        ensures keeps { Keeps self.old self.new }
        ensures left { Takes (room_with_next self.old) (room_with_next self.new) 0 0 0 }
        ensures spare { self.new.spare_objects ≡ self.old.spare_objects }
        ensures count { length self.new.objects ≡ length self.old.objects }
        ensures cells { self.new.spare_cells ≡ self.old.spare_cells }
        ensures few { OnOk result ((keys bytes : ℕ) → TakesUpTo (room_with_next self.old) (room_with_next self.new) (λ p. if p == o then suc i else 0) (λ p. false) (λ path. false) keys bytes) }
    {
        if o < self.objects.len() {
            self.make_item_of(o, i)?;
        } else {
            self.make_item_of_next(i)?;
        }
        Ok(())
    }

    fn make_item_of(&mut self, o: u32, i: u64) -> Result<(), Memory>
        requires { o < length self.old.objects }
        ensures place { OnOk result (i < length (object_at self.new o).items) }
        ensures same { self.new ≡ record self.old { objects = slice_set self.old.objects o (object_at self.new o) } }
        ensures grows { Grows (object_at self.old o) (object_at self.new o) }
        ensures few { OnOk result (length (object_at self.new o).items ≤ max (length (object_at self.old o).items) (i + 1)) }
        ensures spare { (object_at self.new o).spare ≡ (object_at self.old o).spare }
    {
        self.objects.get_mut(o).reserve_item(i)
    }

    fn make_item_of_next(&mut self, i: u64) -> Result<(), Memory>
        ensures place { OnOk result (i < length self.new.next_object.items) }
        ensures same { self.new ≡ record self.old { next_object = self.new.next_object } }
        ensures grows { Grows self.old.next_object self.new.next_object }
        ensures few { OnOk result (length self.new.next_object.items ≤ max (length self.old.next_object.items) (i + 1)) }
        ensures spare { self.new.next_object.spare ≡ self.old.next_object.spare }
    {
        self.next_object.reserve_item(i)
    }

    // Makes room for keys of an object, or of the one that is ready.
    fn make_keys(&mut self, o: u32, count: usize) -> Result<(), Memory>
        requires { o < length self.old.objects + 1 }
        ensures place { OnOk result (count ≤ (object_in (room_with_next self.new) o).spare) }
        ensures keeps { Keeps self.old self.new }
        ensures left { Takes (room_with_next self.old) (room_with_next self.new) 0 0 0 }
        ensures spare { self.new.spare_objects ≡ self.old.spare_objects }
        ensures count { length self.new.objects ≡ length self.old.objects }
        ensures cells { self.new.spare_cells ≡ self.old.spare_cells }
        ensures few { OnOk result ((bytes : ℕ) → TakesUpTo (room_with_next self.old) (room_with_next self.new) (λ p. 0) (λ p. p == o) (λ path. false) count bytes) }
    {
        if o < self.objects.len() {
            self.make_keys_of(o, count)?;
        } else {
            self.make_keys_of_next(count)?;
        }
        Ok(())
    }

    fn make_keys_of(&mut self, o: u32, count: usize) -> Result<(), Memory>
        requires { o < length self.old.objects }
        ensures place { OnOk result (count ≤ (object_at self.new o).spare) }
        ensures same { self.new ≡ record self.old { objects = slice_set self.old.objects o (object_at self.new o) } }
        ensures grows { Grows (object_at self.old o) (object_at self.new o) }
        ensures few { OnOk result ((object_at self.new o).spare ≤ max (object_at self.old o).spare (length (object_at self.old o).keys + 2 * count + 64)) }
        ensures places { length (object_at self.new o).items ≡ length (object_at self.old o).items }
    {
        self.objects.get_mut(o).reserve_keys(count)
    }

    fn make_keys_of_next(&mut self, count: usize) -> Result<(), Memory>
        ensures place { OnOk result (count ≤ self.new.next_object.spare) }
        ensures same { self.new ≡ record self.old { next_object = self.new.next_object } }
        ensures grows { Grows self.old.next_object self.new.next_object }
        ensures few { OnOk result (self.new.next_object.spare ≤ max self.old.next_object.spare (length self.old.next_object.keys + 2 * count + 64)) }
        ensures places { length self.new.next_object.items ≡ length self.old.next_object.items }
    {
        self.next_object.reserve_keys(count)
    }

    // Makes a place for a file, with room for so many more bytes. Where there was none, the file is absent.
    fn make_file(&mut self, alloc: Global, path: u32, bytes: usize) -> Result<(), Memory>
        ensures slot { OnOk result (IsSome (slot_in (room_with_next self.new) path)) }
        ensures room { OnOk result (bytes ≤ bytes_in (room_with_next self.new) path) }
        ensures files { (p : ℕ) → file_at self.new p ≡ file_at self.old p }
        ensures same { self.new ≡ record self.old { files = self.new.files } }
        ensures slots_left { (p : ℕ) → IsSome (slot_in (room_of self.old) p) → IsSome (slot_in (room_of self.new) p) }
        ensures bytes_left { (p : ℕ) → bytes_in (room_of self.old) p ≤ bytes_in (room_of self.new) p }
        ensures few { OnOk result ((keys : ℕ) → TakesUpTo (room_with_next self.old) (room_with_next self.new) (λ o. 0) (λ o. false) (λ p. p == path) keys bytes) }
    {
        self.make_slot(alloc, path)?;
        self.make_bytes(path, bytes)
    }

    // Makes room for so many more bytes of a file, where it has its place.
    fn make_bytes(&mut self, path: u32, bytes: usize) -> Result<(), Memory>
        ensures room { OnOk result (IsSome (slot_in (room_of self.old) path) → bytes ≤ bytes_in (room_of self.new) path) }
        ensures files { (p : ℕ) → file_at self.new p ≡ file_at self.old p }
        ensures same { self.new ≡ record self.old { files = self.new.files } }
        ensures slots_left { (p : ℕ) → IsSome (slot_in (room_of self.old) p) → IsSome (slot_in (room_of self.new) p) }
        ensures bytes_left { (p : ℕ) → bytes_in (room_of self.old) p ≤ bytes_in (room_of self.new) p }
        ensures few { (p : ℕ) → bytes_in (room_of self.new) p ≤ max (bytes_in (room_of self.old) p) (bytes_most (room_of self.old) bytes p (p == path)) }
    {
        match self.files.get_mut(&path) {
            Some(file) => file.reserve(bytes),
            None => Ok(()),
        }
    }

    fn make_slot(&mut self, alloc: Global, path: u32) -> Result<(), Memory>
        ensures slot { OnOk result (IsSome (slot_in (room_of self.new) path)) }
        ensures files { (p : ℕ) → file_at self.new p ≡ file_at self.old p }
        ensures same { self.new ≡ record self.old { files = self.new.files } }
        ensures slots_left { (p : ℕ) → IsSome (slot_in (room_of self.old) p) → IsSome (slot_in (room_of self.new) p) }
        ensures bytes_left { (p : ℕ) → bytes_in (room_of self.old) p ≤ bytes_in (room_of self.new) p }
        ensures few { (p : ℕ) → bytes_in (room_of self.new) p ≤ bytes_in (room_of self.old) p }
    {
        if !self.files.contains_key(&path) {
            self.files.insert(path, File::absent(alloc))?;
        }
        Ok(())
    }
}
