// The orders of dictionaries and instances: how often each form stands in each.
ghost use Rattle.std.specs.Prelude.{◌≡◌, ◌==◌, ℕ, OnOk, if◌then◌else◌};
ghost use Rattle.py_value.specs.declared.value.Value.{Value as OneValue};
ghost use Rattle.slice_things.specs.Counts.{often, count_of, inserted, deleted};
ghost use Rattle.slice_things.specs.Orders.{order_in, order_object, keys_in, at_object, changed_often, often_after};

use crate::{Counts, Forms};
use indexmap::IndexMap;
use prov_base::Memory;
use py_value::{Access, Change, Content, Location, Value};
use std::alloc::Global;

// The object of an order.
fn ordered(at: Location) -> Option<u32>
    ensures { result ≡ order_object at }
{
    match at {
        Location::Order(o) => Some(o),
        Location::Var(..)
        | Location::Len(_)
        | Location::Item(..)
        | Location::Entry(..)
        | Location::File(_)
        | Location::Offset(_)
        | Location::Closed(_)
        | Location::Method(..)
        | Location::Base(_) => None,
    }
}

// The keys of a content.
fn keys_of(content: &Content) -> &[Value]
    ensures { result.now ≡ keys_in content.now }
{
    match content {
        Content::Order(keys) => keys.as_slice(),
        Content::Var(_)
        | Content::Len(_)
        | Content::Item(_)
        | Content::Entry(_)
        | Content::File(_)
        | Content::Offset(_)
        | Content::Closed(_)
        | Content::Method(_)
        | Content::Base(_) => &[],
    }
}

// An object's order has these counts.
fn set_order(orders: &mut IndexMap<u32, Counts>, o: u32, counts: Counts) -> Result<(), Memory>
    ensures { OnOk result ((p : ℕ) → order_in orders.new.entries p ≡ (if o == p then counts else order_in orders.old.entries p)) }
{
    orders.insert(o, counts)?;
    Ok(())
}

// A form stands alone in an object's order.
fn one_key(
    alloc: Global,
    orders: &mut IndexMap<u32, Counts>,
    o: u32,
    form: Value,
) -> Result<(), Memory>
    ensures { OnOk result ((p : ℕ) (f : OneValue) → often f (order_in orders.new.entries p)
        ≡ (if o == p then inserted form f 0 else often f (order_in orders.old.entries p))) }
{
    let mut counts = Counts::new(alloc);
    counts.insert(form)?;
    set_order(orders, o, counts)
}

// A form is put behind the others of an object's order, unless it is there.
fn insert_key(
    alloc: Global,
    orders: &mut IndexMap<u32, Counts>,
    o: u32,
    form: Value,
) -> Result<(), Memory>
    ensures { OnOk result ((p : ℕ) (f : OneValue) → often f (order_in orders.new.entries p)
        ≡ (if o == p then inserted form f (often f (order_in orders.old.entries p)) else often f (order_in orders.old.entries p))) }
{
    match orders.get_mut(&o) {
        Some(counts) => counts.insert(form),
        None => one_key(alloc, orders, o, form),
    }
}

// A form is taken out of an object's order once, if it is there.
fn delete_key(orders: &mut IndexMap<u32, Counts>, o: u32, form: Value) -> Result<(), Memory>
    ensures { OnOk result ((p : ℕ) (f : OneValue) → often f (order_in orders.new.entries p)
        ≡ (if o == p then deleted form f (often f (order_in orders.old.entries p)) else often f (order_in orders.old.entries p))) }
{
    match orders.get_mut(&o) {
        Some(counts) => counts.delete(form),
        None => Ok(()),
    }
}

// An object's order is changed.
fn change_order(
    alloc: Global,
    forms: &Forms,
    orders: &mut IndexMap<u32, Counts>,
    o: u32,
    change: Change,
) -> Result<(), Memory>
    ensures { OnOk result ((p : ℕ) (f : OneValue) → often f (order_in orders.new.entries p)
        ≡ (if o == p then changed_often forms.now.numbers.items change f (often f (order_in orders.old.entries p)) else often f (order_in orders.old.entries p))) }
{
    match change {
        Change::Insert(key) => insert_key(alloc, orders, o, forms.form_of(key)),
        Change::Delete(key) => delete_key(orders, o, forms.form_of(key)),
        Change::Append(_) => set_order(orders, o, Counts::new(alloc)),
    }
}

// A location is given a content: if it is an order, it has its keys.
fn set_keys(
    alloc: Global,
    forms: &Forms,
    orders: &mut IndexMap<u32, Counts>,
    at: Location,
    content: &Content,
) -> Result<(), Memory>
    ensures { OnOk result ((p : ℕ) (f : OneValue) → often f (order_in orders.new.entries p)
        ≡ at_object (order_object at) p (count_of forms.now.numbers.items f (keys_in content.now)) (often f (order_in orders.old.entries p))) }
{
    match ordered(at) {
        Some(o) => set_order(orders, o, Counts::of(alloc, forms, keys_of(content))?),
        None => Ok(()),
    }
}

// A location is changed, if it is an order.
fn change_keys(
    alloc: Global,
    forms: &Forms,
    orders: &mut IndexMap<u32, Counts>,
    at: Location,
    change: Change,
) -> Result<(), Memory>
    ensures { OnOk result ((p : ℕ) (f : OneValue) → often f (order_in orders.new.entries p)
        ≡ at_object (order_object at) p (changed_often forms.now.numbers.items change f (often f (order_in orders.old.entries p))) (often f (order_in orders.old.entries p))) }
{
    match ordered(at) {
        Some(o) => change_order(alloc, forms, orders, o, change),
        None => Ok(()),
    }
}

/// What an access leaves of an order is noted.
pub(crate) fn pass_order(
    alloc: Global,
    forms: &Forms,
    orders: &mut IndexMap<u32, Counts>,
    access: &Access,
) -> Result<(), Memory>
    ensures { OnOk result ((p : ℕ) (f : OneValue) → often f (order_in orders.new.entries p)
        ≡ often_after forms.now.numbers.items access.now p f (often f (order_in orders.old.entries p))) }
{
    match access {
        Access::Read(_) => Ok(()),
        Access::Set(at, content) => set_keys(alloc, forms, orders, *at, content),
        Access::Update(at, change) => change_keys(alloc, forms, orders, *at, *change),
    }
}

/// How often a form stands in an object's order.
pub(crate) fn count_in(orders: &IndexMap<u32, Counts>, o: u32, form: Value) -> u64
    ensures { result ≡ often form (order_in orders.now.entries o) }
{
    match orders.get(&o) {
        Some(counts) => counts.count(form),
        None => 0,
    }
}
