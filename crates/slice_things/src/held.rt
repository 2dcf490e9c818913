// What stands at a place, as far as it matters for what is reachable.
ghost use Rattle.std.specs.Prelude.{◌≡◌, OnOk, if◌then◌else◌};
ghost use Rattle.py_value.specs.declared.access.Location.{Location as OneLocation};
ghost use Rattle.py_value.specs.contracts.access.LocationPartialEq.TheImpl.{ghosts as locations};
ghost use Rattle.slice_things.specs.Held.{held_in, placed as placed_in, noted_at, noted_after, with_words};

use crate::Forms;
use indexmap::IndexMap;
use prov_base::Memory;
use py_value::{Access, Content, Key, Location, Value};

/// What stands at a place.
#[derive(Clone, Copy)]
pub enum Held {
    /// Nothing that matters.
    Nothing,
    /// The length of a list.
    Length(u64),
    /// An item of a list.
    Item(Value),
    /// The value under a key.
    Entry(Value),
}

// What a content leaves.
fn held_of(content: &Content) -> Held
    ensures { result ≡ held_in content.now }
{
    match content {
        Content::Len(n) => Held::Length(*n),
        Content::Item(v) => Held::Item(*v),
        Content::Entry(Some((_, v))) => Held::Entry(*v),
        Content::Entry(None)
        | Content::Var(_)
        | Content::Order(_)
        | Content::File(_)
        | Content::Offset(_)
        | Content::Closed(_)
        | Content::Method(_)
        | Content::Base(_) => Held::Nothing,
    }
}

/// The place with the form of its key.
pub(crate) fn placed(forms: &Forms, at: Location) -> Location
    ensures { result ≡ placed_in forms.now.numbers.items at }
{
    match at {
        Location::Entry(o, key) => Location::Entry(
            o,
            Key {
                value: forms.form_of(key.value),
            },
        ),
        Location::Var(..)
        | Location::Len(_)
        | Location::Item(..)
        | Location::Order(_)
        | Location::File(_)
        | Location::Offset(_)
        | Location::Closed(_)
        | Location::Method(..)
        | Location::Base(_) => at,
    }
}

/// What is noted at a place.
pub(crate) fn held_at(places: &IndexMap<Location, Held>, at: Location) -> Held
    ensures { result ≡ noted_at places.now.entries at }
{
    places.get(&at).copied().unwrap_or(Held::Nothing)
}

// What stands at a place is noted.
fn put(places: &mut IndexMap<Location, Held>, at: Location, held: Held) -> Result<(), Memory>
    ensures { OnOk result ((l : OneLocation) → noted_at places.new.entries l ≡ (if locations.eq at l then held else noted_at places.old.entries l)) }
{
    places.insert(at, held)?;
    Ok(())
}

/// So many items of the list with number 0 are noted, from the first on: they are texts, for which None stands.
pub(crate) fn put_words(places: &mut IndexMap<Location, Held>, words: u64) -> Result<(), Memory>
    ensures { OnOk result ((l : OneLocation) → noted_at places.new.entries l ≡ with_words words l (noted_at places.old.entries l)) }
{
    for i in 0..words {
        put(places, Location::Item(0, i), Held::Item(Value::None))?;
    }
    Ok(())
}

/// What an access leaves at its place is noted.
pub(crate) fn pass_place(
    forms: &Forms,
    places: &mut IndexMap<Location, Held>,
    access: &Access,
) -> Result<(), Memory>
    ensures { OnOk result ((l : OneLocation) → noted_at places.new.entries l ≡ noted_after forms.now.numbers.items access.now l (noted_at places.old.entries l)) }
{
    match access {
        Access::Read(_) => Ok(()),
        Access::Set(at, content) => put(places, placed(forms, *at), held_of(content)),
        Access::Update(at, _) => put(places, placed(forms, *at), Held::Nothing),
    }
}
