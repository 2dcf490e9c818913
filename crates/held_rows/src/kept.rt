// What stands at a place, as far as graph texts read it.
ghost use Rattle.std.specs.Prelude.{◌≡◌, ℕ, List, OnOk, if◌then◌else◌};
ghost use Rattle.py_value.specs.declared.access.Location.{Location as OneLocation};
ghost use Rattle.py_value.specs.contracts.access.LocationPartialEq.TheImpl.{ghosts as locations};
ghost use Rattle.py_value.specs.declared.access.Location.TheVariants.{Item};
ghost use Rattle.slice_things.specs.Held.{placed as placed_in};
ghost use Rattle.held_rows.specs.Kept.{kept_in, kept_at as kept_in_places, kept_after, first_at as first_in};

use indexmap::IndexMap;
use prov_base::Memory;
use py_value::{Access, Content, Key, Location, Value};
use slice_things::Forms;

/// What stands at a place.
#[derive(Clone, Copy)]
pub enum Kept {
    /// Nothing that a graph text reads.
    Nothing,
    /// The length of a list.
    Length(u64),
    /// An item of a list.
    Item(Value),
    /// The first key that was equal to the place's, and the value under it.
    Entry(Value, Value),
    /// How far an open file was read.
    Offset(u64),
    /// Whether a file was closed.
    Closed(bool),
}

// What a content leaves.
fn kept_of(content: &Content) -> Kept
    ensures { result ≡ kept_in content.now }
{
    match content {
        Content::Len(n) => Kept::Length(*n),
        Content::Item(v) => Kept::Item(*v),
        Content::Entry(Some((key, v))) => Kept::Entry(*key, *v),
        Content::Offset(n) => Kept::Offset(*n),
        Content::Closed(b) => Kept::Closed(*b),
        Content::Entry(None)
        | Content::Var(_)
        | Content::Order(_)
        | Content::File(_)
        | Content::Method(_)
        | Content::Base(_) => Kept::Nothing,
    }
}

// The place with the form of its key.
fn placed(forms: &Forms, at: Location) -> Location
    ensures { result ≡ placed_in forms.now.numbers.items at }
{
    match at {
        Location::Entry(o, key) => Location::Entry(
            o,
            Key {
                value: forms.form_of(key.value),
            },
        ),
        Location::Var(..)
        | Location::Len(_)
        | Location::Item(..)
        | Location::Order(_)
        | Location::File(_)
        | Location::Offset(_)
        | Location::Closed(_)
        | Location::Method(..)
        | Location::Base(_) => at,
    }
}

// The text at a place of the list with number 0, before all rows.
fn first_item(words: &[u32], o: u32, i: u64) -> Kept
    ensures { result ≡ first_in words.now (Item o i) }
{
    if o != 0 {
        return Kept::Nothing;
    }
    match words.get(i as usize) {
        Some(number) => Kept::Item(Value::Text(*number)),
        None => Kept::Nothing,
    }
}

// What is there before all rows.
fn first_at(words: &[u32], at: Location) -> Kept
    ensures { result ≡ first_in words.now at }
{
    match at {
        Location::Len(0) => Kept::Length(words.len() as u64),
        Location::Item(o, i) => first_item(words, o, i),
        Location::Len(_)
        | Location::Var(..)
        | Location::Entry(..)
        | Location::Order(_)
        | Location::File(_)
        | Location::Offset(_)
        | Location::Closed(_)
        | Location::Method(..)
        | Location::Base(_) => Kept::Nothing,
    }
}

/// What is kept at a place.
pub(crate) fn kept_at(words: &[u32], places: &IndexMap<Location, Kept>, at: Location) -> Kept
    ensures { result ≡ kept_in_places words.now places.now.entries at }
{
    match places.get(&at) {
        Some(kept) => *kept,
        None => first_at(words, at),
    }
}

// What stands at a place is kept.
fn put(places: &mut IndexMap<Location, Kept>, at: Location, kept: Kept) -> Result<(), Memory>
    ensures { OnOk result ((words : List ℕ) (l : OneLocation) → kept_in_places words places.new.entries l ≡ (if locations.eq at l then kept else kept_in_places words places.old.entries l)) }
{
    places.insert(at, kept)?;
    Ok(())
}

/// What an access leaves at its place is kept.
pub(crate) fn pass_place(
    forms: &Forms,
    places: &mut IndexMap<Location, Kept>,
    access: &Access,
) -> Result<(), Memory>
    ensures { OnOk result ((words : List ℕ) (l : OneLocation) → kept_in_places words places.new.entries l ≡ kept_after forms.now.numbers.items access.now l (kept_in_places words places.old.entries l)) }
{
    match access {
        Access::Read(_) => Ok(()),
        Access::Set(at, content) => put(places, placed(forms, *at), kept_of(content)),
        Access::Update(at, _) => put(places, placed(forms, *at), Kept::Nothing),
    }
}
