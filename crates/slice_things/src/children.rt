// The values that objects hold: items of lists, up to the first that is missing, and entries under keys that stand in an order.
ghost use Rattle.std.specs.Prelude.{◌≡◌, ◌&&◌, ◌++◌, ◌↔◌, ℕ, true, nat_lt, slice_get, unwrap_or, IfOk};
ghost use Rattle.py_value.specs.Values.{ValuesView, AreInterned};
ghost use Rattle.py_model.specs.Store.{RunStore};
ghost use Rattle.slice_law.specs.Reached.{Holds};
ghost use Rattle.slice_things.specs.declared.forms.Forms.{Forms as OneForms};
ghost use Rattle.slice_things.specs.Children.{is_list as is_list_shape, is_keyed as is_keyed_shape, length_of as length_in_things, has_item as has_item_in, has_entry as has_entry_in, child_at as child_in, children_of, item_child, entry_child, is_item as is_held_item, is_entry as is_held_entry, IsListEnd, AreListEnds, HoldsChild};
ghost use Rattle.slice_things.specs.Counts.{often};
ghost use Rattle.slice_things.specs.Forms.{AreForms};
ghost use Rattle.slice_things.specs.Orders.{order_in};
ghost use Rattle.slice_things.specs.Things.{HoldsStore};

use crate::Held;
use crate::held::held_at;
use crate::orders::count_in;
use crate::things::{Shape, Things};
use prov_base::Memory;
use py_value::{Key, Location, Value};
use std::alloc::Global;

fn is_list(shape: Option<Shape>) -> bool
    ensures { result ≡ is_list_shape shape }
{
    match shape {
        Some(Shape::List) => true,
        Some(Shape::Keyed) | Some(Shape::File) | None => false,
    }
}

fn is_keyed(shape: Option<Shape>) -> bool
    ensures { result ≡ is_keyed_shape shape }
{
    match shape {
        Some(Shape::Keyed) => true,
        Some(Shape::List) | Some(Shape::File) | None => false,
    }
}

fn is_item(held: Held) -> bool
    ensures { result ≡ is_held_item held }
{
    match held {
        Held::Item(_) => true,
        Held::Nothing | Held::Length(_) | Held::Entry(_) => false,
    }
}

fn is_entry(held: Held) -> bool
    ensures { result ≡ is_held_entry held }
{
    match held {
        Held::Entry(_) => true,
        Held::Nothing | Held::Length(_) | Held::Item(_) => false,
    }
}

// The end of a list among those of all.
fn end_in(ends: &[u64], o: u32) -> u64
    ensures { result ≡ unwrap_or (slice_get ends.now o) 0 }
{
    ends.get(o as usize).copied().unwrap_or(0)
}

fn item_of(own: bool, o: u32, held: Held) -> Option<(u32, Value)>
    ensures { result ≡ item_child own o held }
{
    match held {
        Held::Item(v) => if own { Some((o, v)) } else { None },
        Held::Nothing | Held::Length(_) | Held::Entry(_) => None,
    }
}

fn entry_of(own: bool, o: u32, held: Held) -> Option<(u32, Value)>
    ensures { result ≡ entry_child own o held }
{
    match held {
        Held::Entry(v) => if own { Some((o, v)) } else { None },
        Held::Nothing | Held::Length(_) | Held::Item(_) => None,
    }
}

impl Things {
    /// What an object is, if it was made.
    pub fn shape(&self, o: u32) -> Option<Shape>
        ensures { result ≡ slice_get self.now.kinds.items o }
    {
        self.kinds.get(o as usize).copied()
    }

    // The length of a list.
    fn length(&self, o: u32) -> u64
        ensures { result ≡ length_in_things self.now o }
    {
        match held_at(&self.places, Location::Len(o)) {
            Held::Length(n) => n,
            Held::Nothing | Held::Item(_) | Held::Entry(_) => 0,
        }
    }

    // Where a list ends: at its first missing item, or at its length.
    fn list_end(&self, o: u32) -> u64
        ensures { IsListEnd self.now o result }
    {
        let length = self.length(o);
        for i in 0..length {
            if !is_item(held_at(&self.places, Location::Item(o, i))) {
                return i;
            }
        }
        length
    }

    // Where a list ends, and 0 for what is none.
    fn end_of(&self, o: u32) -> u64
        ensures { is_list_shape (slice_get self.now.kinds.items o) ≡ true → IsListEnd self.now o result }
    {
        if is_list(self.shape(o)) {
            self.list_end(o)
        } else {
            0
        }
    }

    /// Where each list ends, by the numbers of objects: at its first missing item, or at its length. Each item that is there is looked at once.
    pub fn list_ends(&self, alloc: Global) -> Result<Vec<u64>, Memory>
        ensures { IfOk result (λ ends. AreListEnds self.now ends.items) }
    {
        let mut ends = Vec::new(alloc);
        for o in 0..self.kinds.len() {
            let Ok(number) = u32::try_from(o) else {
                return Ok(ends);
            };
            ends.push(self.end_of(number))?;
        }
        Ok(ends)
    }

    /// Whether a place is a list's own: one of its items, up to the first that is missing and with it.
    pub fn has_item(&self, ends: &[u64], o: u32, i: u64) -> bool
        requires { AreListEnds self.now ends.now }
        ensures { result ≡ has_item_in self.now o i }
    {
        if !is_list(self.shape(o)) {
            return false;
        }
        let end = end_in(ends, o);
        i < self.length(o) && i <= end
    }

    /// Whether an object is a dictionary or an instance in whose order a form stands, with its entry.
    pub fn has_entry(&self, o: u32, form: Value) -> bool
        ensures { result ≡ has_entry_in self.now o form }
    {
        let key = Key { value: form };
        is_keyed(self.shape(o))
            && 0 < count_in(&self.orders, o, form)
            && is_entry(held_at(&self.places, Location::Entry(o, key)))
    }

    // The value that stands at a place, and the object that holds it, if it holds it.
    fn child_at(&self, ends: &[u64], at: Location) -> Option<(u32, Value)>
        requires { AreListEnds self.now ends.now }
        ensures { result ≡ child_in self.now at }
    {
        match at {
            Location::Item(o, i) => {
                item_of(self.has_item(ends, o, i), o, held_at(&self.places, at))
            }
            Location::Entry(o, key) => {
                entry_of(self.has_entry(o, key.value), o, held_at(&self.places, at))
            }
            Location::Var(..)
            | Location::Len(_)
            | Location::Order(_)
            | Location::File(_)
            | Location::Offset(_)
            | Location::Closed(_)
            | Location::Method(..)
            | Location::Base(_) => None,
        }
    }

    /// The values that objects hold, each with the number of its object. Objects stand in them as the store's objects hold each other. The ends are
    /// those of the lists ([`Things::list_ends`]).
    pub fn children(&self, alloc: Global, ends: &[u64]) -> Result<Vec<(u32, Value)>, Memory>
        requires { AreListEnds self.now ends.now }
        ensures all { IfOk result (λ children. children.items ≡ children_of self.now) }
    {
        let mut children = Vec::new(alloc);
        for at in self.places.keys().as_slice() {
            if let Some(child) = self.child_at(ends, *at) {
                children.push(child)?;
            }
        }
        Ok(children)
    }
}

/// The law that the values which objects are known to hold are those of the store: an object holds another there just where that stands in a
/// value that it is known to hold.
pub fn children_are_held()
    ensures { (view : ValuesView) (forms : OneForms) (things : Things) (store : RunStore) (o p : ℕ) → AreForms view forms → HoldsStore view forms things store
        → Holds store o (slice_get store.kinds o) p ↔ HoldsChild view (children_of things) o p }
{}
