// What a value asks for: the statements of the reach of the places that are reached from it.
ghost use Rattle.std.specs.Prelude.{◌≡◌, ◌↔◌, ◌⊎◌, ℕ, true, List, length, map, IfOk, OnOk};
ghost use Rattle.py_model.specs.Moment.{Moment};
ghost use Rattle.py_model.specs.Store.{RunStore};
ghost use Rattle.py_tree.specs.Tree.{ScriptTree};
ghost use Rattle.py_value.specs.Values.{ValuesView, AreInterned};
ghost use Rattle.py_value.specs.declared.value.Value.{Value as OneValue};
ghost use Rattle.slice_edges.specs.HasAsked.{HasAsked};
ghost use Rattle.slice_law.specs.Closed.{has, IsIn, store_after};
ghost use Rattle.slice_law.specs.Edges.{from_option, asked_by_value};
ghost use Rattle.py_value.specs.Contents.{contents};
ghost use Rattle.slice_things.specs.Children.{children_of, AreListEnds};
ghost use Rattle.slice_things.specs.Forms.{AreForms};
ghost use Rattle.slice_things.specs.Things.{HoldsStore, HoldsThings};
ghost use Rattle.slicer.specs.Roots.{HasNumbers, AsksAt, AsksAmong, IsEvaluation};
ghost use Rattle.slicer.specs.Walk.{AreReached};

use crate::places::is_reached_place;
use crate::walk::reached;
use indexmap::IndexSet;
use prov_base::Memory;
use py_value::{Location, Value};
use slice_edges::Asking;
use slice_law::reachable_is_reached;
use slice_things::{Forms, Things};
use std::alloc::Global;

// The statements of the reach of a place are put behind the roots, if the place is reached.
fn add_place(
    roots: &mut Vec<u32>,
    asking: &Asking,
    things: &Things,
    ends: &[u64],
    forms: &Forms,
    found: &IndexSet<Value>,
    texts: usize,
    tuples: usize,
    at: &Location,
) -> Result<(), Memory>
    requires { AreListEnds things.now ends.now }
    ensures { (view : ValuesView) (script : ScriptTree) (store : RunStore) (told : List Moment) (v : OneValue) → AreInterned view → AreForms view forms.now
        → HoldsStore view forms.now things.now store → AreReached view (children_of things.now) v found.now.keys → texts ≡ length view.texts → tuples ≡ length view.tuples
        → HasAsked view script asking.now told → HasNumbers view told
        → OnOk result ((s : ℕ) → (has s roots.new.items ≡ true) ↔ (AsksAt view store told v s at.now ⊎ (has s roots.old.items ≡ true))) }
{
    if is_reached_place(things, ends, forms, found, texts, tuples, *at) {
        roots.extend_from_slice(asking.writers(at))?;
    }
    Ok(())
}

// The statements of the reach of those places that are reached are put behind the roots.
fn add_places(
    roots: &mut Vec<u32>,
    asking: &Asking,
    things: &Things,
    ends: &[u64],
    forms: &Forms,
    found: &IndexSet<Value>,
    texts: usize,
    tuples: usize,
    places: &[Location],
) -> Result<(), Memory>
    requires { AreListEnds things.now ends.now }
    ensures { (view : ValuesView) (script : ScriptTree) (store : RunStore) (told : List Moment) (v : OneValue) → AreInterned view → AreForms view forms.now
        → HoldsStore view forms.now things.now store → AreReached view (children_of things.now) v found.now.keys → texts ≡ length view.texts → tuples ≡ length view.tuples
        → HasAsked view script asking.now told → HasNumbers view told
        → OnOk result ((s : ℕ) → (has s roots.new.items ≡ true) ↔ (AsksAmong view store told v places.now s ⊎ (has s roots.old.items ≡ true))) }
{
    for at in places {
        add_place(roots, asking, things, ends, forms, found, texts, tuples, at)?;
    }
    Ok(())
}

// The statement of the evaluation, if it has one.
fn start(alloc: Global, owner: Option<u32>) -> Result<Vec<u32>, Memory>
    ensures { IfOk result (λ roots. roots.items ≡ from_option owner) }
{
    let mut roots = Vec::new(alloc);
    if let Some(owner) = owner {
        roots.push(owner)?;
    }
    Ok(roots)
}

/// What the value of the evaluation asks for that is the last of the moments so far: its own statement, and those of the reach of all that is
/// reachable from the value. The table has so many texts.
pub fn value_roots(
    alloc: Global,
    asking: &Asking,
    things: &Things,
    forms: &Forms,
    texts: usize,
    tuples: &[&[Value]],
    value: Value,
) -> Result<Vec<u32>, Memory>
    ensures { (view : ValuesView) (script : ScriptTree) (opening : RunStore) (told : List Moment) → AreInterned view → texts ≡ length view.texts → view.tuples ≡ map (λ k. k.now) tuples.now
        → AreForms view forms.now → HasAsked view script asking.now told → HoldsThings view forms.now opening things.now told → HasNumbers view told
        → IsEvaluation (contents view value) told
        → IfOk result (λ roots. (s : ℕ) → IsIn roots.items s ↔ IsIn (asked_by_value (store_after opening told) told) s) }
{
    reachable_is_reached();
    let ends = things.list_ends(alloc)?;
    let children = things.children(alloc, ends.as_slice())?;
    let found = reached(alloc, tuples, children.as_slice(), value)?;
    let mut roots = start(alloc, asking.owner())?;
    add_places(
        &mut roots,
        asking,
        things,
        ends.as_slice(),
        forms,
        &found,
        texts,
        tuples.len(),
        asking.locations(),
    )?;
    Ok(roots)
}
