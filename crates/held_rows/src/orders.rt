// The keys of each order.
ghost use Rattle.std.specs.Prelude.{◌≡◌, ◌==◌, [], ℕ, List, IfOk, OnOk, if◌then◌else◌};
ghost use Rattle.py_value.specs.Values.{ValuesView};
ghost use Rattle.row_words.specs.Fits.{Each};
ghost use Rattle.slice_things.specs.Forms.{AreForms};
ghost use Rattle.held_rows.specs.HeldStore.{keys_in};
ghost use Rattle.held_rows.specs.Settled.{AreKeys};
ghost use Rattle.held_rows.specs.Steps.{steps_in, keys_after, IsNamedStep};

use crate::settling::settled;
use crate::steps::{Steps, steps_of};
use indexmap::IndexMap;
use prov_base::Memory;
use py_value::{Keys, Value};
use slice_things::Forms;
use std::alloc::Global;

// An object's order has these keys.
fn put_keys(orders: &mut IndexMap<u32, Keys>, o: u32, keys: Vec<Value>) -> Result<(), Memory>
    ensures { OnOk result ((p : ℕ) → keys_in orders.new.entries p ≡ (if o == p then keys.items else keys_in orders.old.entries p)) }
{
    orders.insert(o, Keys::of(keys))?;
    Ok(())
}

/// The keys of each order, from what was done to it. Each step is looked at twice at most.
pub(crate) fn settled_orders(
    alloc: Global,
    forms: &Forms,
    orders: &IndexMap<u32, Steps>,
) -> Result<IndexMap<u32, Keys>, Memory>
    ensures { (view : ValuesView) → AreForms view forms.now → ((p : ℕ) → Each (IsNamedStep view) (steps_in orders.now.entries p))
        → IfOk result (λ all. (p : ℕ) → AreKeys view (keys_in all.entries p) (keys_after view (steps_in orders.now.entries p) [])) }
{
    let mut all = IndexMap::new(alloc);
    for o in orders.keys().as_slice() {
        let keys = settled(alloc, forms, steps_of(orders, *o))?;
        put_keys(&mut all, *o, keys)?;
    }
    Ok(all)
}

/// The keys of an object's order.
pub(crate) fn keys_of(orders: &IndexMap<u32, Keys>, o: u32) -> &[Value]
    ensures { result.now ≡ keys_in orders.now.entries o }
{
    match orders.get(&o) {
        Some(keys) => keys.as_slice(),
        None => &[],
    }
}
