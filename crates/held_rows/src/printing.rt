// The text of the value of an evaluation.
ghost use Rattle.std.specs.Prelude.{◌≡◌, ◌≤◌, ℕ, List, Some, None, Err, length, map, take, reverse, string_bytes, IfOk};
ghost use Rattle.py_tree.specs.Erasure.{script_of};
ghost use Rattle.py_value.specs.Contents.{contents};
ghost use Rattle.py_value.specs.Values.{ValuesView, IsNamed};
ghost use Rattle.py_model.specs.Occurrences.{up_to_evaluation};
ghost use Rattle.py_model.specs.Store.{opening};
ghost use Rattle.row_checks.specs.KeptRows.{AreKeptRows, view_in};
ghost use Rattle.row_moments.specs.Moments.{moments_by, moments_in};
ghost use Rattle.slice_law.specs.Slices.{last_value};
ghost use Rattle.slicer.specs.Roots.{IsEvaluation};
ghost use Rattle.held_rows.specs.ValueTexts.{IsValueText};
ghost use Rattle.held_rows.specs.declared.printing.ValueFault.TheVariants.{NoEvaluation};

use crate::costs::steps_upto;
use crate::finding::find_evaluation;
use crate::front::held_front;
use graph_texts::{Names, graph_text};
use prov_base::{Memory, Name, Pos};
use py_tree::Script;
use py_value::Value;
use std::alloc::Global;
use trace_rows::Row;

/// Why there is no text of a value.
#[derive(Clone, Copy, Debug)]
pub enum ValueFault {
    /// The rows have no such evaluation.
    NoEvaluation,
    /// Out of memory.
    Memory,
}

/// The words that names are, as they stand there.
pub fn words_of(alloc: Global, names: &[Name]) -> Result<Vec<&str>, Memory>
    ensures { IfOk result (λ words. map (λ k. k.now) words.items ≡ names.now) }
{
    let mut words = Vec::new(alloc);
    for name in names {
        words.push(name.as_str())?;
    }
    Ok(words)
}

// The graph text of a value that the last of so many rows gave.
fn text_at<'a>(
    alloc: Global,
    script: &Script,
    rows: &'a [Row],
    path: &'a str,
    arguments: &[&'a str],
    n: usize,
    value: Value,
) -> Result<String, Memory>
    requires kept { AreKeptRows script.now.count rows.now }
    requires within { n ≤ length rows.now }
    requires named { IsNamed (view_in rows.now) value }
    requires last { (view : ValuesView) → IsEvaluation (contents view value) (moments_by view (reverse (take n rows.now))) }
    ensures { IfOk result (λ text. (files : List (List ℕ × List ℕ)) → last_value (script_of script.now) (opening path.now (map (λ k. k.now) arguments.now) files)
        (moments_by (view_in rows.now) (reverse (take n rows.now))) ≡ Some (string_bytes text)) }
{
    let held = held_front(alloc, script, rows, path, arguments, n)?;
    let names = Names::of(alloc, script)?;
    graph_text(alloc, &names, &held, value)
}

/// The graph text of the value of the k-th evaluation at a place, counted from 1, in the store just after it, and the steps up to it, at most
/// 4294967295. The rows are those of a well kept trial of the script, with its path and arguments.
pub fn value_text<'a>(
    alloc: Global,
    script: &Script,
    rows: &'a [Row],
    path: &'a str,
    arguments: &[&'a str],
    at: Pos,
    k: u32,
) -> Result<(String, u32), ValueFault>
    requires { AreKeptRows script.now.count rows.now }
    ensures text { IfOk result (λ told. (files : List (List ℕ × List ℕ)) → IsValueText (script_of script.now) (opening path.now (map (λ k. k.now) arguments.now) files) at k rows.now (string_bytes told.0) told.1) }
    ensures absent { result ≡ Err NoEvaluation → up_to_evaluation at k (moments_in rows.now) ≡ None }
{
    let Some((n, value)) = find_evaluation(rows, at, k) else {
        return Err(ValueFault::NoEvaluation);
    };
    match text_at(alloc, script, rows, path, arguments, n, value) {
        Ok(text) => Ok((text, steps_upto(&rows[..n]))),
        Err(Memory) => Err(ValueFault::Memory),
    }
}
