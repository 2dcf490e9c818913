// The values of each object together.
ghost use Rattle.std.specs.Prelude.{◌≡◌, ◌==◌, ◌∷◌, ◌++◌, [], ℕ, IfOk, OnOk, if◌then◌else◌};
ghost use Rattle.slicer.specs.Groups.{group_in, values_of};

use indexmap::IndexMap;
use prov_base::Memory;
use py_value::Value;
use std::alloc::Global;
use std::marker::Model;

/// The values of one object.
#[derive(Drop)]
pub(crate) struct Group {
    values: Vec<Value>,
}

impl Model for Group {
    ghost use Rattle.std.specs.Prelude.{List};
    ghost use Rattle.py_value.specs.declared.value.Value.{Value as OneValue};

    ghost Value = { List OneValue };

    ghost view = { λ g. g.values.items };
}

impl Group {
    // One value.
    fn only(alloc: Global, v: Value) -> Result<Group, Memory>
        ensures { IfOk result (λ group. group ≡ v ∷ []) }
    {
        let mut values = Vec::new(alloc);
        values.push(v)?;
        Ok(Group { values })
    }

    // One value more.
    fn add(&mut self, v: Value) -> Result<(), Memory>
        ensures { OnOk result (self.new ≡ self.old ++ v ∷ []) }
    {
        self.values.push(v)?;
        Ok(())
    }

    /// The values.
    pub(crate) fn as_slice(&self) -> &[Value]
        ensures { result.now ≡ self.now }
    {
        self.values.as_slice()
    }
}

// A first value of an object.
fn put_first(
    alloc: Global,
    groups: &mut IndexMap<u32, Group>,
    o: u32,
    v: Value,
) -> Result<(), Memory>
    ensures { OnOk result ((p : ℕ) → group_in groups.new.entries p ≡ (if o == p then v ∷ [] else group_in groups.old.entries p)) }
{
    groups.insert(o, Group::only(alloc, v)?)?;
    Ok(())
}

// A value more of an object.
fn put(alloc: Global, groups: &mut IndexMap<u32, Group>, o: u32, v: Value) -> Result<(), Memory>
    ensures { OnOk result ((p : ℕ) → group_in groups.new.entries p ≡ (if o == p then group_in groups.old.entries p ++ v ∷ [] else group_in groups.old.entries p)) }
{
    match groups.get_mut(&o) {
        Some(group) => group.add(v),
        None => put_first(alloc, groups, o, v),
    }
}

/// The values of each object together.
pub(crate) fn grouped(alloc: Global, pairs: &[(u32, Value)]) -> Result<IndexMap<u32, Group>, Memory>
    ensures { IfOk result (λ groups. (o : ℕ) → group_in groups.entries o ≡ values_of pairs.now o) }
{
    let mut groups = IndexMap::new(alloc);
    for pair in pairs {
        put(alloc, &mut groups, pair.0, pair.1)?;
    }
    Ok(groups)
}

/// The values of an object.
pub(crate) fn group_of(groups: &IndexMap<u32, Group>, o: u32) -> &[Value]
    ensures { result.now ≡ group_in groups.now.entries o }
{
    match groups.get(&o) {
        Some(group) => group.as_slice(),
        None => &[],
    }
}
