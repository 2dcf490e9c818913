// The sources of a moment: one pass over rows, backward.
ghost use Rattle.std.specs.Prelude.{◌≡◌, ◌<◌, ◌==◌, ◌&&◌, ◌||◌, ◌↔◌, ℕ, true, false, List, Some, length, reverse, slice_get, IfOk, OnOk};
ghost use Rattle.slice_law.specs.Closed.{has};
ghost use Rattle.py_tree.specs.Tree.{ScriptTree};
ghost use Rattle.py_value.specs.Values.{ValuesView, AreInterned};
ghost use Rattle.py_value.specs.declared.access.Location.{Location as OneLocation};
ghost use Rattle.py_model.specs.Moment.{Moment as OneMoment};
ghost use Rattle.row_checks.specs.NamedRows.{NamesRow};
ghost use Rattle.row_moments.specs.Moments.{told_with, moments_by};
ghost use Rattle.trace_rows.specs.declared.row.Row.{Row as OneRow};
ghost use Rattle.feedings.specs.Feeding.{IsChain};
ghost use Rattle.feedings.specs.Passing.{all_passed};
ghost use Rattle.feedings.specs.Marks.{mark_at, flag_at, after_all, reads_in, mark_back};
ghost use Rattle.feedings.specs.Sweeps.{HasPassed, Later};

use crate::fed::Fed;
use crate::flags::{accesses_of, demand_all, note_all, some_written};
use crate::marks::{clear_mark, mark_of, no_marks, put_mark, put_marks};
use indexmap::IndexMap;
use prov_base::Memory;
use py_value::{Access, Location};
use std::alloc::Global;
use trace_rows::Row;

// Whether the moment at a time is wanted.
fn is_wanted(
    marks: &[bool],
    demanded: &IndexMap<Location, bool>,
    at: usize,
    accesses: &[Access],
) -> bool
    ensures { result ≡ mark_back at marks.now demanded.now.entries accesses.now }
{
    if mark_of(marks, at) {
        return true;
    }
    some_written(demanded, accesses)
}

// Where a moment is wanted, it is marked, so is what passes to it, and what it reads is demanded.
fn want(
    marks: &mut Vec<bool>,
    demanded: &mut IndexMap<Location, bool>,
    times: &[usize],
    at: usize,
    accesses: &[Access],
    wanted: bool,
) -> Result<(), Memory>
    ensures many { OnOk result (length marks.new.items ≡ length marks.old.items) }
    ensures marks { OnOk result ((t : ℕ) → t < length marks.old.items
        → mark_at marks.new.items t ≡ ((wanted && ((t == at) || has t times.now)) || mark_at marks.old.items t)) }
    ensures flags { OnOk result ((l : OneLocation) → flag_at demanded.new.entries l ≡ ((wanted && reads_in l accesses.now) || flag_at demanded.old.entries l)) }
{
    if !wanted {
        return Ok(());
    }
    put_mark(marks, at);
    put_marks(marks, times);
    demand_all(demanded, accesses)
}

// A moment is passed: what it sets is no longer demanded.
fn pass_moment(
    marks: &mut Vec<bool>,
    demanded: &mut IndexMap<Location, bool>,
    times: &[usize],
    at: usize,
    accesses: &[Access],
) -> Result<(), Memory>
    ensures many { OnOk result (length marks.new.items ≡ length marks.old.items) }
    ensures marks { OnOk result ((t : ℕ) → t < length marks.old.items → mark_at marks.new.items t
        ≡ ((mark_back at marks.old.items demanded.old.entries accesses.now && ((t == at) || has t times.now)) || mark_at marks.old.items t)) }
    ensures flags { OnOk result ((l : OneLocation) → flag_at demanded.new.entries l
        ≡ ((mark_back at marks.old.items demanded.old.entries accesses.now && reads_in l accesses.now) || after_all false l accesses.now (flag_at demanded.old.entries l))) }
{
    let wanted = is_wanted(marks.as_slice(), demanded, at, accesses);
    note_all(demanded, accesses, false)?;
    want(marks, demanded, times, at, accesses, wanted)
}

// A row is passed. It gives how many moments are before it.
fn pass_row(
    marks: &mut Vec<bool>,
    demanded: &mut IndexMap<Location, bool>,
    fed: &Fed,
    count: usize,
    row: &Row,
) -> Result<usize, Memory>
    ensures { (view : ValuesView) (script : ScriptTree) (time : ℕ) (all told : List OneMoment) → AreInterned view → NamesRow view row.now
        → Later all (told_with view row.now told) → fed.now ≡ all_passed script all
        → HasPassed view script time all (told_with view row.now told) count marks.old.items demanded.old.entries
        → IfOk result (λ left. HasPassed view script time all told left marks.new.items demanded.new.entries) }
{
    match accesses_of(row) {
        Some(accesses) => {
            let at = count.saturating_sub(1);
            pass_moment(marks, demanded, fed.of_moment(at), at, accesses)?;
            Ok(at)
        }
        None => Ok(count),
    }
}

/// Which moments are the sources of the one at a time: one mark for each moment.
pub(crate) fn sources_by(
    alloc: Global,
    rows: &[Row],
    fed: &Fed,
    time: usize,
) -> Result<Vec<bool>, Memory>
    ensures { (view : ValuesView) (script : ScriptTree) → AreInterned view → ((i : ℕ) (row : OneRow) → slice_get rows.now i ≡ Some row → NamesRow view row)
        → fed.now ≡ all_passed script (moments_by view (reverse rows.now)) → time < length (moments_by view (reverse rows.now))
        → IfOk result (λ marks. (t : ℕ) → (mark_at marks.items t ≡ true) ↔ IsChain script (moments_by view (reverse rows.now)) t time) }
{
    let mut marks = no_marks(alloc, fed.count())?;
    put_mark(&mut marks, time);
    let mut demanded = IndexMap::new(alloc);
    let mut count = fed.count();
    let mut left = rows.len();
    while left > 0 {
        left -= 1;
        count = pass_row(&mut marks, &mut demanded, fed, count, &rows[left])?;
    }
    clear_mark(&mut marks, time);
    Ok(marks)
}
