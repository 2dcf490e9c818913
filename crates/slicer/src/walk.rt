// Which objects are reached from a value.
ghost use Rattle.std.specs.Prelude.{◌≡◌, [], ◌∷◌, ℕ, List, map, IfOk, OnOk};
ghost use Rattle.py_value.specs.Values.{ValuesView, AreInterned};
ghost use Rattle.slicer.specs.Walk.{leads as leads_to, inside, Grows, IsWalked, AreReached};
ghost use Rattle.slicer.specs.Groups.{group_in, values_of};
ghost use Rattle.py_value.specs.declared.value.Value.{Value as OneValue};

use crate::groups::{Group, group_of, grouped};
use indexmap::{IndexMap, IndexSet};
use prov_base::Memory;
use py_value::Value;
use std::alloc::Global;

// Whether objects may stand in a value.
fn leads(v: Value) -> bool
    ensures { result ≡ leads_to v }
{
    match v {
        Value::Tuple(_) | Value::Object(_) => true,
        Value::None
        | Value::Bool(_)
        | Value::Int(_)
        | Value::Text(_)
        | Value::Range(..)
        | Value::Fn(_)
        | Value::Class(_)
        | Value::Exc(_)
        | Value::Builtin(_) => false,
    }
}

// A value is put behind the others, if objects may stand in it and it is not there.
fn find(found: &mut IndexSet<Value>, v: Value) -> Result<(), Memory>
    ensures { OnOk result (Grows found.old.keys (v ∷ []) found.new.keys) }
{
    if leads(v) {
        found.insert(v)?;
    }
    Ok(())
}

// Values are put behind the others, so far as objects may stand in them and they are not there.
fn find_all(found: &mut IndexSet<Value>, values: &[Value]) -> Result<(), Memory>
    ensures { OnOk result (Grows found.old.keys values.now found.new.keys) }
{
    for v in values {
        find(found, *v)?;
    }
    Ok(())
}

// The parts of a tuple, or the values that an object holds, are put behind the others.
fn find_inside(
    found: &mut IndexSet<Value>,
    tuples: &[&[Value]],
    groups: &IndexMap<u32, Group>,
    v: Value,
) -> Result<(), Memory>
    ensures { OnOk result (Grows found.old.keys (inside (map (λ k. k.now) tuples.now) groups.now.entries v) found.new.keys) }
{
    match v {
        Value::Tuple(t) => find_all(found, tuples.get(t as usize).copied().unwrap_or(&[])),
        Value::Object(o) => find_all(found, group_of(groups, o)),
        Value::None
        | Value::Bool(_)
        | Value::Int(_)
        | Value::Text(_)
        | Value::Range(..)
        | Value::Fn(_)
        | Value::Class(_)
        | Value::Exc(_)
        | Value::Builtin(_) => Ok(()),
    }
}

// All that stands in what is found is found, and what stands in that.
fn walk(
    found: &mut IndexSet<Value>,
    tuples: &[&[Value]],
    groups: &IndexMap<u32, Group>,
) -> Result<(), Memory>
    ensures { (view : ValuesView) (children : List (ℕ × OneValue)) (v : OneValue) → AreInterned view → view.tuples ≡ map (λ k. k.now) tuples.now
        → ((o : ℕ) → group_in groups.now.entries o ≡ values_of children o) → IsWalked view (map (λ k. k.now) tuples.now) children groups.now.entries v 0 found.old.keys
        → OnOk result (AreReached view children v found.new.keys) }
{
    let mut i = 0;
    while i < found.len() {
        let Some(v) = found.get_index(i).copied() else {
            return Ok(());
        };
        find_inside(found, tuples, groups, v)?;
        i += 1;
    }
    Ok(())
}

/// The objects that are reached from a value, each once, among tuples on the way. The children are the values that objects hold.
pub fn reached(
    alloc: Global,
    tuples: &[&[Value]],
    children: &[(u32, Value)],
    value: Value,
) -> Result<IndexSet<Value>, Memory>
    ensures { (view : ValuesView) → AreInterned view → view.tuples ≡ map (λ k. k.now) tuples.now → IfOk result (λ found. AreReached view children.now value found.keys) }
{
    let groups = grouped(alloc, children)?;
    let mut found = IndexSet::new(alloc);
    find(&mut found, value)?;
    walk(&mut found, tuples, &groups)?;
    Ok(found)
}
