// Locations that are reached from a value: own places of objects that are.
ghost use Rattle.std.specs.Prelude.{◌≡◌, ◌↔◌, true, length};
ghost use Rattle.py_model.specs.Store.{RunStore};
ghost use Rattle.py_value.specs.Seen.{IsNamedLocation};
ghost use Rattle.py_value.specs.Values.{ValuesView, AreInterned};
ghost use Rattle.py_value.specs.declared.value.Value.{Value as OneValue};
ghost use Rattle.slice_things.specs.Children.{children_of, AreListEnds};
ghost use Rattle.slice_things.specs.Forms.{AreForms};
ghost use Rattle.slice_things.specs.Things.{HoldsStore, IsNormalLocation};
ghost use Rattle.slicer.specs.Places.{IsReachedPlace, is_named_value as is_value_named, is_named_place as is_place_named};
ghost use Rattle.slicer.specs.Walk.{AreReached};

use crate::own::owner_of;
use indexmap::IndexSet;
use py_value::{Location, Value};
use slice_things::{Forms, Things};

// Whether a value is one of so many texts or tuples, or names none.
fn is_named_value(texts: usize, tuples: usize, v: Value) -> bool
    ensures { result ≡ is_value_named texts tuples v }
{
    match v {
        Value::Text(n) => (n as usize) < texts,
        Value::Tuple(n) => (n as usize) < tuples,
        Value::None
        | Value::Bool(_)
        | Value::Int(_)
        | Value::Range(..)
        | Value::Fn(_)
        | Value::Class(_)
        | Value::Exc(_)
        | Value::Builtin(_)
        | Value::Object(_) => true,
    }
}

// Whether what a location names is one of so many texts or tuples.
fn is_named_place(texts: usize, tuples: usize, at: Location) -> bool
    ensures { result ≡ is_place_named texts tuples at }
{
    match at {
        Location::Var(_, name) | Location::Method(_, name) => (name as usize) < texts,
        Location::Entry(_, key) => is_named_value(texts, tuples, key.value),
        Location::File(path) => (path as usize) < texts,
        Location::Len(_)
        | Location::Item(..)
        | Location::Order(_)
        | Location::Offset(_)
        | Location::Closed(_)
        | Location::Base(_) => true,
    }
}

/// Whether a location is reached: whether it is an own place of an object that was found. The ends are those of the lists, and there are so many texts
/// and tuples.
pub fn is_reached_place(
    things: &Things,
    ends: &[u64],
    forms: &Forms,
    found: &IndexSet<Value>,
    texts: usize,
    tuples: usize,
    at: Location,
) -> bool
    requires { AreListEnds things.now ends.now }
    ensures named { (view : ValuesView) → texts ≡ length view.texts → tuples ≡ length view.tuples → result ≡ true → IsNamedLocation view at }
    ensures reached { (view : ValuesView) (store : RunStore) (v : OneValue) → AreInterned view → AreForms view forms.now → HoldsStore view forms.now things.now store
        → AreReached view (children_of things.now) v found.now.keys → texts ≡ length view.texts → tuples ≡ length view.tuples → IsNormalLocation view at
        → (result ≡ true) ↔ IsReachedPlace view store v at }
{
    if !is_named_place(texts, tuples, at) {
        return false;
    }
    match owner_of(things, ends, forms, at) {
        Some(o) => found.contains(&Value::Object(o)),
        None => false,
    }
}
