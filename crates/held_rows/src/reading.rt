// What graph texts read of the store that rows hold.
ghost use Rattle.std.specs.Prelude.{◌≡◌, ℕ, IfSome, Option, Some};
ghost use Rattle.std.specs.Option.{option_map};
ghost use Rattle.py_value.specs.Contents.{contents};
ghost use Rattle.py_value.specs.Seen.{SeenContent};
ghost use Rattle.py_value.specs.Values.{ValuesView, IsNamed};
ghost use Rattle.held_rows.specs.HeldStore.{store_of, length_held, item_held, value_held, offset_held, closed_held};
ghost use Rattle.held_rows.specs.Kept.{kept_seen, IsNamedKept};

use crate::Held;
use crate::kept::{Kept, kept_at};
use crate::orders::keys_of;
use graph_texts::Reads;
use prov_base::Memory;
use py_value::{Key, Kind, Location, Value};

// A length, where one is kept.
fn length_in(kept: Kept) -> u64
    ensures { (view : ValuesView) → result ≡ length_held (kept_seen view kept) }
{
    match kept {
        Kept::Length(n) => n,
        Kept::Nothing | Kept::Item(_) | Kept::Entry(..) | Kept::Offset(_) | Kept::Closed(_) => 0,
    }
}

// An item, where one is kept.
fn item_in(kept: Kept) -> Option<Value>
    ensures item { (view : ValuesView) → option_map (contents view) result ≡ item_held (kept_seen view kept) }
    ensures named { (view : ValuesView) → IsNamedKept view kept → IfSome result (λ value. IsNamed view value) }
{
    match kept {
        Kept::Item(value) => Some(value),
        Kept::Nothing | Kept::Length(_) | Kept::Entry(..) | Kept::Offset(_) | Kept::Closed(_) => {
            None
        }
    }
}

// The value of an entry, where one is kept.
fn value_in(kept: Kept) -> Option<Value>
    ensures entry { (view : ValuesView) → option_map (contents view) result ≡ value_held (kept_seen view kept) }
    ensures named { (view : ValuesView) → IsNamedKept view kept → IfSome result (λ value. IsNamed view value) }
{
    match kept {
        Kept::Entry(_, value) => Some(value),
        Kept::Nothing | Kept::Length(_) | Kept::Item(_) | Kept::Offset(_) | Kept::Closed(_) => None,
    }
}

// An offset, where one is kept.
fn offset_in(kept: Kept) -> u64
    ensures { (view : ValuesView) → result ≡ offset_held (kept_seen view kept) }
{
    match kept {
        Kept::Offset(n) => n,
        Kept::Nothing | Kept::Length(_) | Kept::Item(_) | Kept::Entry(..) | Kept::Closed(_) => 0,
    }
}

// Whether it is kept that a file was closed.
fn closed_in(kept: Kept) -> bool
    ensures { (view : ValuesView) → result ≡ closed_held (kept_seen view kept) }
{
    match kept {
        Kept::Closed(b) => b,
        Kept::Nothing | Kept::Length(_) | Kept::Item(_) | Kept::Entry(..) | Kept::Offset(_) =>
            false,
    }
}

impl<'a> Reads for Held<'a> {
    ghost values = { λ h. h.values };

    ghost store = { λ h. store_of h };

    fn kind(&self, object: u32) -> Option<Kind> {
        self.rows.kinds.get(object as usize).copied()
    }

    fn length(&self, object: u32) -> u64 {
        let at = Location::Len(object);
        length_in(kept_at(self.rows.words.as_slice(), &self.rows.places, at))
    }

    fn item(&self, object: u32, index: u64) -> Option<Value> {
        let at = Location::Item(object, index);
        item_in(kept_at(self.rows.words.as_slice(), &self.rows.places, at))
    }

    fn key_count(&self, object: u32) -> u64 {
        keys_of(&self.orders, object).len() as u64
    }

    fn key(&self, object: u32, index: u64) -> Value {
        keys_of(&self.orders, object)[index as usize]
    }

    fn entry(&self, object: u32, key: Value) -> Result<Option<Value>, Memory> {
        let form = Key {
            value: self.forms.form_of(key),
        };
        let at = Location::Entry(object, form);
        Ok(value_in(kept_at(self.rows.words.as_slice(), &self.rows.places, at)))
    }

    fn offset(&self, object: u32) -> u64 {
        let at = Location::Offset(object);
        offset_in(kept_at(self.rows.words.as_slice(), &self.rows.places, at))
    }

    fn closed(&self, object: u32) -> bool {
        let at = Location::Closed(object);
        closed_in(kept_at(self.rows.words.as_slice(), &self.rows.places, at))
    }

    fn text_of(&self, id: u32) -> &str {
        self.texts[id as usize]
    }

    fn tuple_of(&self, id: u32) -> &[Value] {
        self.tuples[id as usize]
    }
}
