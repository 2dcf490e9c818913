// The orders of dictionaries and instances: what was done to each since it was set.
ghost use Rattle.std.specs.Prelude.{◌≡◌, ◌==◌, ◌∷◌, ◌++◌, [], ℕ, map, IfOk, OnOk, if◌then◌else◌};
ghost use Rattle.slice_things.specs.Orders.{order_object, keys_in};
ghost use Rattle.held_rows.specs.Steps.{steps_in, at_object, steps_changed, steps_after};
ghost use Rattle.held_rows.specs.declared.steps.Step.TheVariants.{Put};

use indexmap::IndexMap;
use prov_base::Memory;
use py_value::{Access, Change, Content, Location, Value};
use std::alloc::Global;
use std::marker::Model;

/// One step of an order.
#[derive(Clone, Copy)]
pub enum Step {
    /// A key is put behind the others.
    Put(Value),
    /// A key is put behind the others, unless an equal one is there.
    Insert(Value),
    /// The first equal key is taken out, where there is one.
    Delete(Value),
}

/// The steps of one order. Contracts see their list.
#[derive(Drop)]
pub struct Steps {
    steps: Vec<Step>,
}

impl Model for Steps {
    ghost use Rattle.std.specs.Prelude.{List};
    ghost use Rattle.held_rows.specs.declared.steps.Step.{Step as OneStep};

    ghost Value = { List OneStep };

    ghost view = { λ s. s.steps.items };
}

impl Steps {
    // No step.
    fn none(alloc: Global) -> Steps
        ensures { result ≡ [] }
    {
        Steps {
            steps: Vec::new(alloc),
        }
    }

    // One step.
    fn one(alloc: Global, step: Step) -> Result<Steps, Memory>
        ensures { IfOk result (λ steps. steps ≡ step ∷ []) }
    {
        let mut steps = Vec::new(alloc);
        steps.push(step)?;
        Ok(Steps { steps })
    }

    // Keys are put one behind the other.
    fn puts(alloc: Global, keys: &[Value]) -> Result<Steps, Memory>
        ensures { IfOk result (λ steps. steps ≡ map Put keys.now) }
    {
        let mut steps = Vec::new(alloc);
        for key in keys {
            steps.push(Step::Put(*key))?;
        }
        Ok(Steps { steps })
    }

    // One step more.
    fn add(&mut self, step: Step) -> Result<(), Memory>
        ensures { OnOk result (self.new ≡ self.old ++ step ∷ []) }
    {
        self.steps.push(step)?;
        Ok(())
    }

    /// The steps, in order.
    pub(crate) fn as_slice(&self) -> &[Step]
        ensures { result.now ≡ self.now }
    {
        self.steps.as_slice()
    }
}

// The object of an order.
fn ordered(at: Location) -> Option<u32>
    ensures { result ≡ order_object at }
{
    match at {
        Location::Order(o) => Some(o),
        Location::Var(..)
        | Location::Len(_)
        | Location::Item(..)
        | Location::Entry(..)
        | Location::File(_)
        | Location::Offset(_)
        | Location::Closed(_)
        | Location::Method(..)
        | Location::Base(_) => None,
    }
}

// The keys of a content.
fn keys_of(content: &Content) -> &[Value]
    ensures { result.now ≡ keys_in content.now }
{
    match content {
        Content::Order(keys) => keys.as_slice(),
        Content::Var(_)
        | Content::Len(_)
        | Content::Item(_)
        | Content::Entry(_)
        | Content::File(_)
        | Content::Offset(_)
        | Content::Closed(_)
        | Content::Method(_)
        | Content::Base(_) => &[],
    }
}

// An object's order has these steps.
fn set_steps(orders: &mut IndexMap<u32, Steps>, o: u32, steps: Steps) -> Result<(), Memory>
    ensures { OnOk result ((p : ℕ) → steps_in orders.new.entries p ≡ (if o == p then steps else steps_in orders.old.entries p)) }
{
    orders.insert(o, steps)?;
    Ok(())
}

// A first step of an object's order.
fn put_first(
    alloc: Global,
    orders: &mut IndexMap<u32, Steps>,
    o: u32,
    step: Step,
) -> Result<(), Memory>
    ensures { OnOk result ((p : ℕ) → steps_in orders.new.entries p ≡ (if o == p then step ∷ [] else steps_in orders.old.entries p)) }
{
    set_steps(orders, o, Steps::one(alloc, step)?)
}

// A step more of an object's order.
fn add_step(
    alloc: Global,
    orders: &mut IndexMap<u32, Steps>,
    o: u32,
    step: Step,
) -> Result<(), Memory>
    ensures { OnOk result ((p : ℕ) → steps_in orders.new.entries p ≡ (if o == p then steps_in orders.old.entries p ++ step ∷ [] else steps_in orders.old.entries p)) }
{
    match orders.get_mut(&o) {
        Some(steps) => steps.add(step),
        None => put_first(alloc, orders, o, step),
    }
}

// An object's order is changed.
fn change_order(
    alloc: Global,
    orders: &mut IndexMap<u32, Steps>,
    o: u32,
    change: Change,
) -> Result<(), Memory>
    ensures { OnOk result ((p : ℕ) → steps_in orders.new.entries p
        ≡ (if o == p then steps_changed change (steps_in orders.old.entries p) else steps_in orders.old.entries p)) }
{
    match change {
        Change::Insert(key) => add_step(alloc, orders, o, Step::Insert(key)),
        Change::Delete(key) => add_step(alloc, orders, o, Step::Delete(key)),
        Change::Append(_) => set_steps(orders, o, Steps::none(alloc)),
    }
}

// A location is given a content: if it is an order, it has its keys.
fn set_keys(
    alloc: Global,
    orders: &mut IndexMap<u32, Steps>,
    at: Location,
    content: &Content,
) -> Result<(), Memory>
    ensures { OnOk result ((p : ℕ) → steps_in orders.new.entries p ≡ at_object (order_object at) p (map Put (keys_in content.now)) (steps_in orders.old.entries p)) }
{
    match ordered(at) {
        Some(o) => set_steps(orders, o, Steps::puts(alloc, keys_of(content))?),
        None => Ok(()),
    }
}

// A location is changed, if it is an order.
fn change_keys(
    alloc: Global,
    orders: &mut IndexMap<u32, Steps>,
    at: Location,
    change: Change,
) -> Result<(), Memory>
    ensures { OnOk result ((p : ℕ) → steps_in orders.new.entries p
        ≡ at_object (order_object at) p (steps_changed change (steps_in orders.old.entries p)) (steps_in orders.old.entries p)) }
{
    match ordered(at) {
        Some(o) => change_order(alloc, orders, o, change),
        None => Ok(()),
    }
}

/// What an access leaves of an order is noted.
pub(crate) fn pass_order(
    alloc: Global,
    orders: &mut IndexMap<u32, Steps>,
    access: &Access,
) -> Result<(), Memory>
    ensures { OnOk result ((p : ℕ) → steps_in orders.new.entries p ≡ steps_after access.now p (steps_in orders.old.entries p)) }
{
    match access {
        Access::Read(_) => Ok(()),
        Access::Set(at, content) => set_keys(alloc, orders, *at, content),
        Access::Update(at, change) => change_keys(alloc, orders, *at, *change),
    }
}

/// The steps of an object's order.
pub(crate) fn steps_of(orders: &IndexMap<u32, Steps>, o: u32) -> &[Step]
    ensures { result.now ≡ steps_in orders.now.entries o }
{
    match orders.get(&o) {
        Some(steps) => steps.as_slice(),
        None => &[],
    }
}
