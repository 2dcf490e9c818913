// Whose own place a location is.
ghost use Rattle.std.specs.Prelude.{◌≡◌, ◌↔◌, ℕ, Some, slice_get};
ghost use Rattle.py_model.specs.Store.{RunStore};
ghost use Rattle.py_value.specs.Seen.{location_seen, IsNamedLocation};
ghost use Rattle.py_value.specs.Values.{ValuesView, AreInterned};
ghost use Rattle.slice_law.specs.Reached.{IsOwn};
ghost use Rattle.slice_things.specs.Children.{is_list as is_list_shape, is_keyed as is_keyed_shape, AreListEnds};
ghost use Rattle.slice_things.specs.Forms.{AreForms};
ghost use Rattle.slice_things.specs.Things.{HoldsStore, IsNormalLocation};
ghost use Rattle.slicer.specs.Own.{is_file as is_file_shape, own_if as own_if_it, owner_in};

use py_value::Location;
use slice_things::{Forms, Shape, Things};

fn is_list(shape: Option<Shape>) -> bool
    ensures { result ≡ is_list_shape shape }
{
    match shape {
        Some(Shape::List) => true,
        Some(Shape::Keyed) | Some(Shape::File) | None => false,
    }
}

fn is_keyed(shape: Option<Shape>) -> bool
    ensures { result ≡ is_keyed_shape shape }
{
    match shape {
        Some(Shape::Keyed) => true,
        Some(Shape::List) | Some(Shape::File) | None => false,
    }
}

fn is_file(shape: Option<Shape>) -> bool
    ensures { result ≡ is_file_shape shape }
{
    match shape {
        Some(Shape::File) => true,
        Some(Shape::List) | Some(Shape::Keyed) | None => false,
    }
}

fn own_if(own: bool, o: u32) -> Option<u32>
    ensures { result ≡ own_if_it own o }
{
    if own { Some(o) } else { None }
}

// The object whose own place a location is.
fn find_owner(things: &Things, ends: &[u64], forms: &Forms, at: Location) -> Option<u32>
    requires { AreListEnds things.now ends.now }
    ensures { result ≡ owner_in things.now forms.now.numbers.items at }
{
    match at {
        Location::Len(o) => own_if(is_list(things.shape(o)), o),
        Location::Item(o, i) => own_if(things.has_item(ends, o, i), o),
        Location::Entry(o, key) => own_if(things.has_entry(o, forms.form_of(key.value)), o),
        Location::Order(o) => own_if(is_keyed(things.shape(o)), o),
        Location::Offset(o) | Location::Closed(o) => own_if(is_file(things.shape(o)), o),
        Location::Var(..) | Location::File(_) | Location::Method(..) | Location::Base(_) => None,
    }
}

/// The object whose own place a location is: the length and the items of a list, up to the first that is missing and with its place; the order of a
/// dictionary or an instance and the entries under keys that stand in it, where there are such; and the offset and the closing of a file. The ends are
/// those of the lists.
pub fn owner_of(things: &Things, ends: &[u64], forms: &Forms, at: Location) -> Option<u32>
    requires { AreListEnds things.now ends.now }
    ensures { (view : ValuesView) (store : RunStore) (o : ℕ) → AreInterned view → AreForms view forms.now → HoldsStore view forms.now things.now store
        → IsNamedLocation view at → IsNormalLocation view at → (result ≡ Some o) ↔ IsOwn store o (slice_get store.kinds o) (location_seen view at) }
{
    find_owner(things, ends, forms, at)
}
