// Dependences that were found, each once and in order.
ghost use Rattle.std.specs.Prelude.{◌≡◌, ◌||◌, slice_get, IfOk, OnOk};
ghost use Rattle.std.specs.List.Sorted.{IsStrictlySortedBy};
ghost use Rattle.std.specs.Ordering.{is_eq};
ghost use Rattle.dep_query.specs.declared.dependence.Dependence.{Dependence as OneDependence};
ghost use Rattle.dep_query.specs.Dependences.{dependence_cmp};
ghost use Rattle.dep_query.specs.Noting.{is_found, is_told};

use crate::dependence::{Dependence, Kind, order_of_dependences};
use prov_base::{Memory, Pos};
use std::alloc::Global;
use std::collections::BTreeSet;

// The place of a statement.
fn place_of(places: &[Pos], stmt: u32) -> Option<Pos>
    ensures { result ≡ slice_get places.now stmt }
{
    places.get(stmt as usize).copied()
}

// Puts a dependence among the others.
fn put(found: &mut BTreeSet<Dependence>, dependence: Dependence) -> Result<(), Memory>
    ensures { OnOk result ((d : OneDependence) → is_found found.new.keys d ≡ (is_eq (dependence_cmp dependence d) || is_found found.old.keys d)) }
{
    order_of_dependences();
    found.insert(dependence)?;
    Ok(())
}

/// One statement depends on another. It is found, if both are statements of the script.
pub(crate) fn note(
    found: &mut BTreeSet<Dependence>,
    places: &[Pos],
    kind: Kind,
    asker: u32,
    asked: u32,
) -> Result<(), Memory>
    ensures { OnOk result ((d : OneDependence) → is_found found.new.keys d ≡ (is_told places.now kind asker asked d || is_found found.old.keys d)) }
{
    match (place_of(places, asker), place_of(places, asked)) {
        (Some(asker), Some(asked)) => put(found, Dependence { asker, asked, kind }),
        _ => Ok(()),
    }
}

/// The dependences that were found, in order.
pub(crate) fn listed(alloc: Global, found: &BTreeSet<Dependence>) -> Result<Vec<Dependence>, Memory>
    ensures same { IfOk result (λ list. list.items ≡ found.now.keys) }
    ensures in_order { IfOk result (λ list. IsStrictlySortedBy dependence_cmp list.items) }
{
    order_of_dependences();
    let mut list = Vec::new(alloc);
    for dependence in found.iter() {
        list.push(*dependence)?;
    }
    Ok(list)
}
