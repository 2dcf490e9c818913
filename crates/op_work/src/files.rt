// Files are read, and items of lists are moved.
ghost use Rattle.std.specs.Prelude.{◌≡◌, ◌<◌, ◌∷◌, ◌++◌, [], length, option_copied, IsSome, IsTrue, OnOk, OnErr, IfErr};
ghost use Rattle.std.specs.List.{list_any};
ghost use Rattle.object_store.specs.Room.{IsWithin};
ghost use Rattle.object_store.specs.Store.{Writes, bytes as held_bytes, count_with, file_at, item_at};
ghost use Rattle.op_work.specs.Finish.{HasItsFile, path_made, sets_file};
ghost use Rattle.op_work.specs.Work.{Comes, Wrote, IsKept, IsUnpaid, IsNamedMaybe, is_any};
ghost use Rattle.py_model.specs.Plan.{read_file as plan_file, move};
ghost use Rattle.py_value.specs.Named.{IsNamedAccess};
ghost use Rattle.py_value.specs.Seen.{bytes_of};
ghost use Rattle.py_value.specs.Values.{IsNamed};
ghost use Rattle.py_value.specs.declared.access.Access.TheVariants.{Read, Set};
ghost use Rattle.py_value.specs.declared.access.Content.TheVariants.{Item as ItemContent};
ghost use Rattle.py_value.specs.declared.access.Location.TheVariants.{Item, File};

use crate::{Stop, Work};
use object_store::named_stays;
use prov_base::Memory;
use py_value::{Access, Content, Kind, Location, Value, tuples_are_their_parts};
use std::alloc::Global;

impl Work {
    /// The file at the path with this text, by its number, is read. Its bytes are those of [`Work::file`].
    pub fn read_file(&mut self, path: u32) -> Result<(), Stop>
        requires { path < length self.old.values.texts }
        ensures there { IsSome (file_at self.old.store path)
            → Comes is_any (λ table (done : Unit {0}). file_at self.old.store path) (λ table. plan_file (bytes_of table path)) self.old self.new result }

        // Where the store has no file, it is the caller who knows whether the run has one.
        ensures done { OnOk result (self.new ≡ record self.old { touched = self.old.touched ++ Read (File path) ∷ [] }) }
        ensures unpaid { IfErr result (λ stop. IsUnpaid self.old 1 0 stop) }
        ensures same { OnErr result (self.new ≡ self.old) }
    {
        self.note_read(Location::File(path))
    }

    /// The bytes of the file at the path with this text, as they stand, where there is one.
    pub fn file(&self, path: u32) -> Option<&[u8]>
        ensures { option_copied result ≡ file_at self.now.store path }
    {
        self.store.file(path)
    }

    /// The bytes of a file that was fetched are put at the path with this text. That is no step of an operation.
    pub fn place_file(&mut self, alloc: Global, path: u32, bytes: &[u8]) -> Result<(), Memory>
        requires { path < length self.old.values.texts }
        ensures placed { OnOk result (Writes self.old.store self.new.store (File path) (held_bytes bytes.now)) }
        ensures only { self.new.store ≡ record self.old.store { files = self.new.store.files } }
        ensures err { OnErr result (self.new ≡ self.old) }
        ensures same { self.new ≡ record self.old { store = self.new.store } }
    {
        named_stays();
        self.store.place_file(alloc, path, bytes)
    }

    /// Whether the file of a file object that the operation makes is there, or is set by it.
    pub fn has_its_file(&self) -> bool
        ensures { IsTrue result → HasItsFile self.now.store self.now.touched self.now.made }
    {
        match path_of(self.made) {
            Some(path) => self.store.file(path).is_some() || self.sets_file(path),
            None => true,
        }
    }

    // Whether the operation sets the file at a path.
    fn sets_file(&self, path: u32) -> bool
        ensures { result ≡ list_any (sets_file path) self.now.touched }
    {
        self.touched.iter().any(|access| sets(access, path))
    }

    /// The item at a place of a list is read and set at another place. What was never set moves as an empty tuple.
    pub fn move_item(&mut self, alloc: Global, o: u32, from: u64, to: u64) -> Result<(), Stop>
        requires { o < count_with self.old.made self.old.store }
        ensures { Wrote (λ table. move o from to) self.old self.new result }
    {
        tuples_are_their_parts();
        match self.item_there(o, from) {
            Some(item) => self.note_move(o, from, to, item),
            None => {
                let number = self.tuple_number(alloc, &[])?;
                self.note_move(o, from, to, Value::Tuple(number))
            },
        }
    }

    // The item that stands at a place, and that it is named.
    fn item_there(&self, o: u32, i: u64) -> Option<Value>
        ensures item { result ≡ item_at self.now.store o i }
        ensures named { IsNamedMaybe self.now.values result }
    {
        let _ = &self.store;
        self.item(o, i)
    }

    // The item that stands at a place is noted as read there and set at another place, where both can be paid for.
    fn note_move(&mut self, o: u32, from: u64, to: u64, item: Value) -> Result<(), Stop>
        requires named { IsNamed self.old.values item }
        requires within { o < count_with self.old.made self.old.store }
        ensures done { OnOk result (self.new ≡ record self.old { touched = self.old.touched ++ Read (Item o from) ∷ Set (Item o to) (ItemContent item) ∷ [] }) }
        ensures unpaid { IfErr result (λ stop. IsUnpaid self.old 2 0 stop) }
        ensures kept { OnErr result (IsKept self.old self.new) }
    {
        self.note_read(Location::Item(o, from))?;
        self.note_set(Location::Item(o, to), Content::Item(item))
    }
}

// Whether an access sets the file at a path.
fn sets(access: &Access, path: u32) -> bool
    ensures { result ≡ sets_file path access.now }
{
    match access {
        Access::Set(Location::File(other), _) => *other == path,
        _ => false,
    }
}

// The path of a file object that is made, where one is.
fn path_of(made: Option<Kind>) -> Option<u32>
    ensures { result ≡ path_made made }
{
    match made {
        Some(Kind::File(path, _)) => Some(path),
        _ => None,
    }
}
