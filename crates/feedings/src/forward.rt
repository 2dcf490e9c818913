// The effects of a moment: one pass over rows, forward.
ghost use Rattle.std.specs.Prelude.{◌≡◌, ◌<◌, ◌↔◌, ◌∷◌, ◌++◌, ℕ, true, List, [], Some, length, reverse, slice_get, IfOk, OnOk};
ghost use Rattle.py_tree.specs.Tree.{ScriptTree};
ghost use Rattle.py_value.specs.Values.{ValuesView, AreInterned};
ghost use Rattle.py_value.specs.declared.access.Location.{Location as OneLocation};
ghost use Rattle.py_model.specs.Moment.{Moment as OneMoment};
ghost use Rattle.row_checks.specs.NamedRows.{NamesRow};
ghost use Rattle.row_moments.specs.Moments.{told_with, moments_by};
ghost use Rattle.trace_rows.specs.declared.row.Row.{Row as OneRow};
ghost use Rattle.feedings.specs.Feeding.{IsChain};
ghost use Rattle.feedings.specs.Passing.{all_passed};
ghost use Rattle.feedings.specs.Marks.{mark_at, flag_at, after_all, next_mark};
ghost use Rattle.feedings.specs.Sweeps.{HasMarked, Later};

use crate::fed::Fed;
use crate::flags::{accesses_of, note_all, some_read};
use crate::marks::{clear_mark, some_mark};
use indexmap::IndexMap;
use prov_base::Memory;
use py_value::{Access, Location};
use std::alloc::Global;
use trace_rows::Row;

// The mark of the next moment.
fn next_marked(
    marks: &[bool],
    tainted: &IndexMap<Location, bool>,
    times: &[usize],
    time: usize,
    accesses: &[Access],
) -> bool
    ensures { result ≡ next_mark time marks.now tainted.now.entries times.now accesses.now }
{
    if marks.len() == time {
        return true;
    }
    if some_mark(marks, times) {
        return true;
    }
    some_read(tainted, accesses)
}

// A moment is passed: it gets its mark, and so does what it writes.
fn pass_moment(
    marks: &mut Vec<bool>,
    tainted: &mut IndexMap<Location, bool>,
    times: &[usize],
    time: usize,
    accesses: &[Access],
) -> Result<(), Memory>
    ensures marks { OnOk result (marks.new.items ≡ marks.old.items ++ next_mark time marks.old.items tainted.old.entries times.now accesses.now ∷ []) }
    ensures flags { OnOk result ((l : OneLocation)
        → flag_at tainted.new.entries l ≡ after_all (next_mark time marks.old.items tainted.old.entries times.now accesses.now) l accesses.now (flag_at tainted.old.entries l)) }
{
    let marked = next_marked(marks.as_slice(), tainted, times, time, accesses);
    note_all(tainted, accesses, marked)?;
    marks.push(marked)?;
    Ok(())
}

// A row is passed.
fn pass_row(
    marks: &mut Vec<bool>,
    tainted: &mut IndexMap<Location, bool>,
    fed: &Fed,
    time: usize,
    row: &Row,
) -> Result<(), Memory>
    ensures { (view : ValuesView) (script : ScriptTree) (all told : List OneMoment) → AreInterned view → NamesRow view row.now → Later all (told_with view row.now told)
        → fed.now ≡ all_passed script all → HasMarked view script time told marks.old.items tainted.old.entries
        → OnOk result (HasMarked view script time (told_with view row.now told) marks.new.items tainted.new.entries) }
{
    match accesses_of(row) {
        Some(accesses) => {
            let times = fed.of_moment(marks.len());
            pass_moment(marks, tainted, times, time, accesses)
        }
        None => Ok(()),
    }
}

/// Which moments are the effects of the one at a time: one mark for each moment.
pub(crate) fn effects_by(
    alloc: Global,
    rows: &[Row],
    fed: &Fed,
    time: usize,
) -> Result<Vec<bool>, Memory>
    ensures { (view : ValuesView) (script : ScriptTree) → AreInterned view → ((i : ℕ) (row : OneRow) → slice_get rows.now i ≡ Some row → NamesRow view row)
        → fed.now ≡ all_passed script (moments_by view (reverse rows.now)) → time < length (moments_by view (reverse rows.now))
        → IfOk result (λ marks. (t : ℕ) → (mark_at marks.items t ≡ true) ↔ IsChain script (moments_by view (reverse rows.now)) time t) }
{
    let mut marks = Vec::new(alloc);
    let mut tainted = IndexMap::new(alloc);
    for row in rows {
        pass_row(&mut marks, &mut tainted, fed, time, row)?;
    }
    clear_mark(&mut marks, time);
    Ok(marks)
}
