// The dependences of a run that rows tell.
ghost use Rattle.std.specs.Prelude.{◌≡◌, ◌||◌, ℕ, List, Some, map, reverse, slice_get, IfOk, OnOk};
ghost use Rattle.py_tree.specs.Erasure.{script_of};
ghost use Rattle.py_tree.specs.Numbering.{IsNumbered};
ghost use Rattle.py_value.specs.Values.{ValuesView, AreInterned};
ghost use Rattle.py_model.specs.Moment.{Moment as OneMoment};
ghost use Rattle.row_checks.specs.KeptRows.{AreKeptRows, texts_in, tuples_in};
ghost use Rattle.row_checks.specs.NamedRows.{NamesRow};
ghost use Rattle.row_moments.specs.Moments.{moments_by, moments_in};
ghost use Rattle.slice_edges.specs.Asks.{reason_of};
ghost use Rattle.slice_edges.specs.HasAsked.{HasAsked};
ghost use Rattle.trace_rows.specs.declared.row.Row.{Row as OneRow};
ghost use Rattle.dep_query.specs.declared.dependence.Dependence.{Dependence as OneDependence};
ghost use Rattle.dep_query.specs.Dependences.{AreDependences, kind_by};
ghost use Rattle.dep_query.specs.Noting.{is_found, is_parent_told, is_told, some_parent, some_told};

use crate::dependence::{Dependence, Kind, kind_of};
use crate::noting::{listed, note};
use prov_base::{Memory, Pos};
use py_tree::Script;
use py_value::Value;
use row_checks::kept_rows_name_in_order;
use row_moments::{rows_in_order_are_interned, texts_of, tuples_of};
use slice_edges::{Ask, Asking};
use slice_things::Forms;
use std::alloc::Global;
use std::collections::BTreeSet;
use trace_rows::Row;
use value_links::places_of;

// A statement depends on the one that has it in its suite, if there is one.
fn note_parent(
    found: &mut BTreeSet<Dependence>,
    places: &[Pos],
    stmt: u32,
    parent: Option<u32>,
) -> Result<(), Memory>
    ensures { OnOk result ((d : OneDependence) → is_found found.new.keys d ≡ (is_parent_told places.now stmt parent d || is_found found.old.keys d)) }
{
    match parent {
        Some(parent) => note(found, places, Kind::Control, stmt, parent),
        None => Ok(()),
    }
}

// Each statement of a script depends on the one that has it in its suite.
fn note_parents(
    found: &mut BTreeSet<Dependence>,
    places: &[Pos],
    script: &Script,
) -> Result<(), Memory>
    requires { IsNumbered (script_of script.now) }
    ensures { OnOk result ((d : OneDependence) → is_found found.new.keys d ≡ (some_parent places.now (script_of script.now) script.now.count d || is_found found.old.keys d)) }
{
    for stmt in 0..script.count {
        note_parent(found, places, stmt, script.parent_of(stmt))?;
    }
    Ok(())
}

// A statement depends on the one that it asks for.
fn note_ask(found: &mut BTreeSet<Dependence>, places: &[Pos], ask: &Ask) -> Result<(), Memory>
    ensures { OnOk result ((d : OneDependence) → is_found found.new.keys d ≡ (is_told places.now (kind_by (reason_of ask.now.why)) ask.now.asker ask.now.asked d || is_found found.old.keys d)) }
{
    note(found, places, kind_of(ask.why), ask.asker, ask.asked)
}

// Each statement depends on those that it asks for.
fn note_asks(found: &mut BTreeSet<Dependence>, places: &[Pos], asks: &[Ask]) -> Result<(), Memory>
    ensures { OnOk result ((d : OneDependence) → is_found found.new.keys d ≡ (some_told places.now asks.now d || is_found found.old.keys d)) }
{
    for ask in asks {
        note_ask(found, places, ask)?;
    }
    Ok(())
}

// What rows make statements ask for.
fn ask_all(alloc: Global, script: &Script, names: &[&str], rows: &[Row]) -> Result<Asking, Memory>
    requires { IsNumbered (script_of script.now) }
    ensures { (view : ValuesView) → AreInterned view → ((i : ℕ) (row : OneRow) → slice_get rows.now i ≡ Some row → NamesRow view row) → view.texts ≡ map (λ k. k.now) names.now
        → IfOk result (λ asking. HasAsked view (script_of script.now) asking (moments_by view (reverse rows.now))) }
{
    let mut asking = Asking::new(alloc);
    for row in rows {
        asking.pass(alloc, script, names, row)?;
    }
    Ok(asking)
}

// The dependences of what was asked for, and those on parents.
fn gathered(alloc: Global, script: &Script, asking: &Asking) -> Result<Vec<Dependence>, Memory>
    requires { IsNumbered (script_of script.now) }
    ensures { (view : ValuesView) (told : List OneMoment) → HasAsked view (script_of script.now) asking.now told
        → IfOk result (λ list. AreDependences (script_of script.now) told list.items) }
{
    let places = places_of(alloc, script)?;
    let mut found = BTreeSet::new(alloc);
    note_parents(&mut found, places.as_slice(), script)?;
    note_asks(&mut found, places.as_slice(), asking.edges())?;
    listed(alloc, &found)
}

// The dependences of a run that rows tell, where their texts and tuples were gathered. The table of forms takes all of these, so they are few.
fn dependences_by(
    alloc: Global,
    script: &Script,
    names: &[&str],
    parts: &[&[Value]],
    rows: &[Row],
) -> Result<Vec<Dependence>, Memory>
    requires numbered { IsNumbered (script_of script.now) }
    requires kept { AreKeptRows script.now.count rows.now }
    requires texts { map (λ k. k.now) names.now ≡ texts_in rows.now }
    requires tuples { map (λ k. k.now) parts.now ≡ tuples_in rows.now }
    ensures { IfOk result (λ list. AreDependences (script_of script.now) (moments_in rows.now) list.items) }
{
    kept_rows_name_in_order();
    rows_in_order_are_interned();
    let forms = Forms::of(alloc, names, parts)?;
    drop(forms);
    let asking = ask_all(alloc, script, names, rows)?;
    gathered(alloc, script, &asking)
}

/// Which statement of a script depends on which, and why, in the run that rows tell: each dependence once, in order. The rows are those of a well kept trial of the script.
pub fn dependences(alloc: Global, script: &Script, rows: &[Row]) -> Result<Vec<Dependence>, Memory>
    requires numbered { IsNumbered (script_of script.now) }
    requires kept { AreKeptRows script.now.count rows.now }
    ensures { IfOk result (λ list. AreDependences (script_of script.now) (moments_in rows.now) list.items) }
{
    let texts = texts_of(alloc, rows)?;
    let tuples = tuples_of(alloc, rows)?;
    let names = texts.as_slice();
    let parts = tuples.as_slice();
    dependences_by(alloc, script, names, parts, rows)
}
