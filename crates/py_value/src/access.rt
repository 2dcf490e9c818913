// The places of a run's store, what stands at them, and what is done to them.
ghost use Rattle.std.specs.Prelude.{◌≡◌, ◌↔◌, Some, true};
ghost use Rattle.py_value.specs.Seen.{SeenLocation, IsNamedLocation, location_seen, location_at};
ghost use Rattle.py_value.specs.Values.{ValuesView, AreInterned};
ghost use Rattle.py_value.specs.contracts.access.AccessPartialEq.TheImpl.{ghosts as accesses};
ghost use Rattle.py_value.specs.contracts.access.ContentPartialEq.TheImpl.{ghosts as contents_eq};
ghost use Rattle.py_value.specs.contracts.access.LocationPartialEq.TheImpl.{ghosts as locations};
ghost use Rattle.py_value.specs.contracts.value.ValuePartialEq.TheImpl.{ghosts as values_eq};
ghost use Rattle.py_value.specs.declared.access.Access.{Access as OneAccess};
ghost use Rattle.py_value.specs.declared.access.Content.{Content as OneContent};
ghost use Rattle.py_value.specs.declared.access.Location.{Location as OneLocation};
ghost use Rattle.py_value.specs.declared.value.Value.{Value as OneValue};

use crate::{Key, Keys, Value};
use prov_base::Pos;
use std::marker::Model;

/// How a file was opened.
#[derive(Clone, Copy, Debug, PartialEq, Eq)]
pub enum Mode {
    /// `'r'`: its content is read.
    Read,
    /// `'w'`: its content begins empty.
    Write,
    /// `'a'`: what is written goes behind its content.
    Append,
}

/// What an object is.
#[derive(Clone, Copy, Debug, PartialEq, Eq)]
pub enum Kind {
    /// A list.
    List,
    /// A dictionary.
    Dict,
    /// An instance of this class.
    Instance(Value),
    /// A file: the number of its path's text, and its mode.
    File(u32, Mode),
}

/// A place of the store.
#[derive(Clone, Copy, Debug, PartialEq, Eq, Hash)]
pub enum Location {
    /// A variable: the number of its activation, and that of its name's text. Activation 0 is the script's own.
    Var(u32, u32),
    /// The length of a list.
    Len(u32),
    /// An item of a list, counted from 0.
    Item(u32, u64),
    /// The entry of a dictionary, or the attribute of an instance, under a key.
    Entry(u32, Key),
    /// The keys of a dictionary, or the attributes of an instance, in order.
    Order(u32),
    /// The content of the file at the path with this text.
    File(u32),
    /// How far an open file was read.
    Offset(u32),
    /// Whether a file was closed.
    Closed(u32),
    /// A method of the class at a place, by the number of its name's text.
    Method(Pos, u32),
    /// The base of the class at a place.
    Base(Pos),
}

/// What stands at a location of the same name.
#[derive(Drop, Debug, PartialEq)]
pub enum Content {
    /// The value of a variable, where it is bound.
    Var(Option<Value>),
    /// A length.
    Len(u64),
    /// An item.
    Item(Value),
    /// The first key that was equal to the location's, and the value under it, where there is one.
    Entry(Option<(Value, Value)>),
    /// The keys.
    Order(Keys),
    /// A content, by the number of its text.
    File(u32),
    /// An offset.
    Offset(u64),
    /// Whether it was closed.
    Closed(bool),
    /// The place of the method's `def`.
    Method(Pos),
    /// The base, where there is one.
    Base(Option<Value>),
}

/// A change to a location that keeps the rest of what stands there.
#[derive(Clone, Copy, Debug, PartialEq, Eq)]
pub enum Change {
    /// A key behind the keys of an order.
    Insert(Value),
    /// A key out of an order.
    Delete(Value),
    /// A text behind the content of a file.
    Append(u32),
}

/// One thing that is done to the store.
#[derive(Drop, Debug, PartialEq)]
pub enum Access {
    /// A location is read.
    Read(Location),
    /// A location is given a content.
    Set(Location, Content),
    /// What stands at a location is changed.
    Update(Location, Change),
}

/// A list of accesses.
#[derive(Drop, Debug)]
pub struct Accesses {
    accesses: Vec<Access>,
}

impl Model for Accesses {
    ghost use Rattle.std.specs.Prelude.{List};
    ghost use Rattle.py_value.specs.declared.access.Access.{Access};

    ghost Value = { List Access };

    ghost view = { λ a. a.accesses.items };
}

impl Accesses {
    /// The accesses of a vector, which is not copied.
    pub fn of(v: Vec<Access>) -> Accesses
        ensures { result ≡ v.items }
    {
        Accesses { accesses: v }
    }

    /// The accesses, in order.
    pub fn as_slice(&self) -> &[Access]
        ensures { result.now ≡ self.now }
    {
        self.accesses.as_slice()
    }
}

/// The law that `==` of values, locations, contents and accesses is equality.
pub fn equality_is_same()
    ensures values { (v w : OneValue) → (values_eq.eq v w ≡ true) ↔ (v ≡ w) }
    ensures locations { (l m : OneLocation) → (locations.eq l m ≡ true) ↔ (l ≡ m) }
    ensures contents { (a b : OneContent) → (contents_eq.eq a b ≡ true) ↔ (a ≡ b) }
    ensures accesses { (a b : OneAccess) → (accesses.eq a b ≡ true) ↔ (a ≡ b) }
{}

/// The law that locations are told apart by what they are without numbers of texts and tuples: that leads back to the
/// location, and leads to no other.
pub fn same_place_same_location()
    ensures back { (view : ValuesView) (l : OneLocation) → AreInterned view → IsNamedLocation view l → location_at view (location_seen view l) ≡ Some l }
    ensures tell { (view : ValuesView) (l m : OneLocation) → AreInterned view → IsNamedLocation view l → IsNamedLocation view m
        → location_seen view l ≡ location_seen view m → l ≡ m }
    ensures seen { (view : ValuesView) (place : SeenLocation) (l : OneLocation) → AreInterned view → location_at view place ≡ Some l
        → IsNamedLocation view l × (location_seen view l ≡ place) }
{}
