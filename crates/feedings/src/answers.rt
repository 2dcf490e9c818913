// The sources and the effects of an evaluation.
ghost use Rattle.std.specs.Prelude.{◌≡◌, ◌<◌, ◌↔◌, ℕ, List, true, length, reverse, slice_get, Some, IfOk};
ghost use Rattle.py_tree.specs.Erasure.{script_of};
ghost use Rattle.py_tree.specs.Tree.{ScriptTree};
ghost use Rattle.py_value.specs.Values.{AreInterned, ValuesView};
ghost use Rattle.row_checks.specs.KeptRows.{view_in};
ghost use Rattle.row_checks.specs.NamedRows.{NamesRow};
ghost use Rattle.row_moments.specs.Moments.{moments_by, moments_in};
ghost use Rattle.trace_rows.specs.declared.row.Row.{Row as OneRow};
ghost use Rattle.feedings.specs.Marks.{mark_at};
ghost use Rattle.feedings.specs.Passing.{all_passed};
ghost use Rattle.feedings.specs.Sites.{AreFed, Finds, Leads};

use crate::backward::sources_by;
use crate::fed::Fed;
use crate::finding::find_time;
use crate::forward::effects_by;
use crate::noting::fed_by;
use crate::site::{Sites, Way};
use crate::sites::sites_of;
use prov_base::{Memory, Pos};
use py_tree::Script;
use std::alloc::Global;
use trace_rows::Row;

// Which moments are asked for, of the one at a time: one mark for each moment.
fn marks_by(
    alloc: Global,
    way: Way,
    rows: &[Row],
    fed: &Fed,
    time: usize,
) -> Result<Vec<bool>, Memory>
    ensures { (view : ValuesView) (script : ScriptTree) → AreInterned view → ((i : ℕ) (row : OneRow) → slice_get rows.now i ≡ Some row → NamesRow view row)
        → fed.now ≡ all_passed script (moments_by view (reverse rows.now)) → time < length (moments_by view (reverse rows.now))
        → IfOk result (λ marks. (t : ℕ) → (mark_at marks.items t ≡ true) ↔ Leads way script (moments_by view (reverse rows.now)) t time) }
{
    match way {
        Way::Sources => sources_by(alloc, rows, fed, time),
        Way::Effects => effects_by(alloc, rows, fed, time),
    }
}

/// The evaluations that feed the k-th evaluation at a place, counted from 1, in the run that rows tell, or those that it feeds: those from which chains of feedings lead
/// to it, or to which they lead from it, in the order of their moments. `None` comes exactly where the rows have no such evaluation.
pub fn feeding_sites(
    alloc: Global,
    way: Way,
    script: &Script,
    rows: &[Row],
    at: Pos,
    k: u32,
) -> Result<Option<Sites>, Memory>
    requires interned { AreInterned (view_in rows.now) }
    requires named { (i : ℕ) (row : OneRow) → slice_get rows.now i ≡ Some row → NamesRow (view_in rows.now) row }
    ensures { IfOk result (λ found. Finds (AreFed way (script_of script.now) at k (moments_in rows.now)) at k (moments_in rows.now) found) }
{
    let Some(time) = find_time(rows, at, k) else {
        return Ok(None);
    };
    let fed = fed_by(alloc, script, rows)?;
    let marks = marks_by(alloc, way, rows, &fed, time)?;
    let list = sites_of(alloc, rows, marks.as_slice())?;
    Ok(Some(Sites::of(list)))
}
