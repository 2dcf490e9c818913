// The sources and the effects of an evaluation of a loaded trial.
ghost use Rattle.std.specs.Prelude.{◌≡◌, map, None, Ok, IfOk, IfSome};
ghost use Rattle.py_tree.specs.Erasure.{script_of};
ghost use Rattle.row_checks.specs.KeptRows.{AreKeptRows, texts_in, tuples_in};
ghost use Rattle.row_moments.specs.Moments.{moments_in};
ghost use Rattle.feedings.specs.Sites.{AreFed, Finds};
ghost use Rattle.dep_query.specs.SiteTexts.{IsFedText, LacksSite};

use crate::site_lines::lines_of_sites;
use feedings::{Sites, Way, feeding_sites};
use prov_base::{Bytes, Memory, Pos};
use py_tree::Script;
use py_value::Value;
use row_checks::kept_rows_name_in_order;
use row_moments::{rows_in_order_are_interned, texts_of, tuples_of};
use slice_things::Forms;
use std::alloc::Global;
use trace_rows::Row;
use trial_loading::Trial;

// The evaluations that are asked for, among kept rows whose texts and tuples were gathered. The table of forms takes all of these, so they are few.
fn found_by(
    alloc: Global,
    way: Way,
    script: &Script,
    names: &[&str],
    parts: &[&[Value]],
    rows: &[Row],
    at: Pos,
    k: u32,
) -> Result<Option<Sites>, Memory>
    requires kept { AreKeptRows script.now.count rows.now }
    requires texts { map (λ k. k.now) names.now ≡ texts_in rows.now }
    requires tuples { map (λ k. k.now) parts.now ≡ tuples_in rows.now }
    ensures { IfOk result (λ found. Finds (AreFed way (script_of script.now) at k (moments_in rows.now)) at k (moments_in rows.now) found) }
{
    kept_rows_name_in_order();
    rows_in_order_are_interned();
    let forms = Forms::of(alloc, names, parts)?;
    drop(forms);
    feeding_sites(alloc, way, script, rows, at, k)
}

// The evaluations that are asked for, among kept rows.
fn found_in(
    alloc: Global,
    way: Way,
    script: &Script,
    rows: &[Row],
    at: Pos,
    k: u32,
) -> Result<Option<Sites>, Memory>
    requires { AreKeptRows script.now.count rows.now }
    ensures { IfOk result (λ found. Finds (AreFed way (script_of script.now) at k (moments_in rows.now)) at k (moments_in rows.now) found) }
{
    let texts = texts_of(alloc, rows)?;
    let tuples = tuples_of(alloc, rows)?;
    let names = texts.as_slice();
    let parts = tuples.as_slice();
    found_by(alloc, way, script, names, parts, rows, at, k)
}

/// The sources or the effects of the k-th evaluation at a place, counted from 1 in the order of the run: a line for each, in the order of their events. `None` comes exactly
/// where the trial's rows have no such evaluation.
pub fn feeding(
    alloc: Global,
    trial: &Trial,
    way: Way,
    at: Pos,
    k: u32,
) -> Result<Option<Bytes>, Memory>
    requires { AreKeptRows trial.now.script.count trial.now.rows }
    ensures found { IfOk result (λ found. IfSome found (IsFedText way at k trial.now)) }
    ensures absent { result ≡ Ok None → LacksSite at k trial.now }
{
    let found = found_in(alloc, way, &trial.script, trial.rows.as_slice(), at, k)?;
    let Some(list) = found else {
        return Ok(None);
    };
    let text = lines_of_sites(alloc, list.as_slice())?;
    Ok(Some(text))
}
