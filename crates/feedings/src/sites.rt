// The evaluations at chosen moments.
ghost use Rattle.std.specs.Prelude.{◌≡◌, ◌++◌, ◌<◌, List, reverse, IfOk, OnOk};
ghost use Rattle.prov_base.specs.declared.place.Pos.{Pos as Place};
ghost use Rattle.py_value.specs.Values.{ValuesView};
ghost use Rattle.py_model.specs.Moment.{Moment};
ghost use Rattle.row_moments.specs.Moments.{moments_by, told_with};
ghost use Rattle.feedings.specs.Sites.{sites};
ghost use Rattle.feedings.specs.Marks.{mark_at};
ghost use Rattle.feedings.specs.RowSites.{AreCounted, site_at, evaluated as place_evaluated, tells as row_tells, count_in};

use crate::kinds::evaluates;
use crate::marks::mark_of;
use crate::site::Site;
use indexmap::IndexMap;
use prov_base::{Memory, Pos};
use py_model::Answer;
use std::alloc::Global;
use trace_rows::Row;

/// The place of the evaluation that a row tells, if it tells one.
pub(crate) fn evaluated(row: &Row) -> Option<Pos>
    ensures { result ≡ place_evaluated row.now }
{
    match row {
        Row::Do(place, op, _, Answer::Value(_), _, _, _) => {
            if evaluates(*op) { Some(*place) } else { None }
        }
        Row::Do(_, _, _, Answer::Raised(_) | Answer::End, _, _, _)
        | Row::Text(_)
        | Row::Tuple(_)
        | Row::Begin(_)
        | Row::Enter(..)
        | Row::Leave(_)
        | Row::End(_) => None,
    }
}

/// Whether a row tells a moment.
pub(crate) fn tells(row: &Row) -> bool
    ensures { result ≡ row_tells row.now }
{
    match row {
        Row::Text(_) | Row::Tuple(_) => false,
        Row::Begin(_) | Row::Do(..) | Row::Enter(..) | Row::Leave(_) | Row::End(_) => true,
    }
}

// How many evaluations there were at a place.
fn count_at(counts: &IndexMap<Pos, usize>, at: Pos) -> usize
    ensures { result ≡ count_in counts.now.entries at }
{
    counts.get(&at).copied().unwrap_or(0)
}

// Notes the evaluation that a row tells, if it tells one: its number at its place, and itself where it is chosen.
fn see(
    list: &mut Vec<Site>,
    counts: &mut IndexMap<Pos, usize>,
    row: &Row,
    chosen: bool,
) -> Result<(), Memory>
    requires few { (at : Place) → count_in counts.old.entries at < 18446744073709551615 }
    ensures listed { OnOk result (list.new.items ≡ list.old.items ++ site_at (place_evaluated row.now) counts.old.entries chosen) }
    ensures counted { OnOk result ((view : ValuesView) (told : List Moment) → AreCounted counts.old.entries told → AreCounted counts.new.entries (told_with view row.now told)) }
{
    let Some(at) = evaluated(row) else {
        return Ok(());
    };
    let k = count_at(counts, at) + 1;
    counts.insert(at, k)?;
    if chosen {
        list.push(Site { at, k })?;
    }
    Ok(())
}

/// The evaluations at the moments that are marked, in order. Each row is looked at once.
pub(crate) fn sites_of(alloc: Global, rows: &[Row], marks: &[bool]) -> Result<Vec<Site>, Memory>
    ensures { IfOk result (λ list. (view : ValuesView) → list.items ≡ sites (mark_at marks.now) (moments_by view (reverse rows.now))) }
{
    let mut list = Vec::new(alloc);
    let mut counts = IndexMap::new(alloc);
    let mut time: usize = 0;
    for row in rows {
        see(&mut list, &mut counts, row, mark_of(marks, time))?;
        if tells(row) {
            time += 1;
        }
    }
    Ok(list)
}
