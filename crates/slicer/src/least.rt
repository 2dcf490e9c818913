// The least closed set of statements of an evaluation.
ghost use Rattle.std.specs.Prelude.{◌≡◌, ◌≤◌, ◌+◌, ℕ, List, None, Err, length, map, take, reverse, IfOk};
ghost use Rattle.py_tree.specs.Erasure.{script_of};
ghost use Rattle.py_tree.specs.Numbering.{IsNumbered};
ghost use Rattle.py_tree.specs.StmtSet.{has};
ghost use Rattle.py_tree.specs.Tree.{ScriptTree};
ghost use Rattle.py_value.specs.Contents.{contents};
ghost use Rattle.py_value.specs.Values.{ValuesView, AreInterned};
ghost use Rattle.py_model.specs.Moment.{Moment};
ghost use Rattle.py_model.specs.Occurrences.{up_to_evaluation};
ghost use Rattle.py_model.specs.Store.{RunStore, opening};
ghost use Rattle.row_checks.specs.KeptRows.{AreKeptRows, texts_in, tuples_in, view_in};
ghost use Rattle.row_moments.specs.Moments.{moments_by, moments_in};
ghost use Rattle.slice_edges.specs.HasAsked.{HasAsked};
ghost use Rattle.slice_law.specs.Closed.{IsLeast, roots as roots_of};
ghost use Rattle.slice_things.specs.Forms.{AreForms};
ghost use Rattle.slicer.specs.AskedPairs.{pair_of, AreAllPairs};
ghost use Rattle.slicer.specs.Pairs.{SameNumbers};
ghost use Rattle.slicer.specs.Passing.{Knows};
ghost use Rattle.slicer.specs.Roots.{HasNumbers, IsEvaluation};
ghost use Rattle.slicer.specs.Slices.{IsSliceSet};
ghost use Rattle.slicer.specs.declared.least.SliceFault.TheVariants.{NoEvaluation, Memory as MemoryFault};

use crate::closing::close;
use crate::finding::{Evaluation, find_evaluation};
use crate::parents::add_parents;
use crate::passing::{Passed, pass_rows};
use crate::roots::value_roots;
use prov_base::{Memory, Pos};
use py_tree::{Script, StmtSet};
use py_value::Value;
use row_checks::kept_rows_name_in_order;
use row_moments::{rows_in_order_are_interned, texts_of, tuples_of};
use slice_edges::Ask;
use slice_things::Forms;
use std::alloc::Global;
use trace_rows::Row;

/// Why there is no slice.
#[derive(Clone, Copy, Debug)]
pub enum SliceFault {
    /// The rows have no such evaluation.
    NoEvaluation,
    /// Out of memory.
    Memory,
}

impl From<Memory> for SliceFault {
    ghost from_gives = { λ _ fault. fault ≡ MemoryFault };

    fn from(_: Memory) -> Self {
        SliceFault::Memory
    }
}

// What the value of the last moment and jumps in the module ask for.
fn slice_roots(
    alloc: Global,
    passed: &Passed,
    forms: &Forms,
    texts: usize,
    tuples: &[&[Value]],
    value: Value,
) -> Result<Vec<u32>, Memory>
    ensures { (view : ValuesView) (script : ScriptTree) (opening : RunStore) (told : List Moment) → AreInterned view → texts ≡ length view.texts → view.tuples ≡ map (λ k. k.now) tuples.now
        → AreForms view forms.now → Knows view script forms.now opening passed.now told → HasNumbers view told → IsEvaluation (contents view value) told
        → IfOk result (λ roots. SameNumbers roots.items (roots_of opening told)) }
{
    let mut roots = value_roots(
        alloc,
        &passed.asking,
        &passed.things,
        forms,
        texts,
        tuples,
        value,
    )?;
    roots.extend_from_slice(passed.jumps.as_slice())?;
    Ok(roots)
}

// Who asks for what, as pairs of numbers.
fn pairs_of(alloc: Global, asks: &[Ask]) -> Result<Vec<(u32, u32)>, Memory>
    ensures { IfOk result (λ pairs. pairs.items ≡ map pair_of asks.now) }
{
    let mut pairs = Vec::new(alloc);
    for ask in asks {
        pairs.push((ask.asker, ask.asked))?;
    }
    Ok(pairs)
}

// The pairs of all rows that were passed, and those of parents.
fn all_pairs(alloc: Global, script: &Script, passed: &Passed) -> Result<Vec<(u32, u32)>, Memory>
    requires { IsNumbered (script_of script.now) }
    ensures { (view : ValuesView) (told : List Moment) → HasAsked view (script_of script.now) passed.now.asking told
        → IfOk result (λ pairs. AreAllPairs (script_of script.now) told pairs.items) }
{
    let mut pairs = pairs_of(alloc, passed.asking.edges())?;
    add_parents(script, &mut pairs)?;
    Ok(pairs)
}

// The least closed set of statements of an evaluation that was found, where the texts and tuples of the rows were gathered.
fn least_by(
    alloc: Global,
    script: &Script,
    names: &[&str],
    parts: &[&[Value]],
    rows: &[Row],
    words: u64,
    found: Evaluation,
) -> Result<StmtSet, Memory>
    requires numbered { IsNumbered (script_of script.now) }
    requires kept { AreKeptRows script.now.count rows.now }
    requires texts { map (λ k. k.now) names.now ≡ texts_in rows.now }
    requires tuples { map (λ k. k.now) parts.now ≡ tuples_in rows.now }
    requires within { found.rows ≤ length rows.now }
    requires last { (view : ValuesView) → IsEvaluation (contents view found.value) (moments_by view (reverse (take found.rows rows.now))) }
    ensures bound { IfOk result (λ keep. length keep ≡ script.now.count) }
    ensures least { IfOk result (λ keep. (path : List ℕ) (arguments : List (List ℕ)) (files : List (List ℕ × List ℕ)) → words ≡ length arguments + 1
        → IsLeast (script_of script.now) (opening path arguments files) (moments_by (view_in rows.now) (reverse (take found.rows rows.now))) (has keep)) }
{
    kept_rows_name_in_order();
    rows_in_order_are_interned();
    let forms = Forms::of(alloc, names, parts)?;
    let front = &rows[..found.rows];
    // The path is always there, so there is one word at least.
    let some_words = words.max(1);
    let passed = pass_rows(alloc, script, names, &forms, front, some_words)?;
    let roots = slice_roots(alloc, &passed, &forms, names.len(), parts, found.value)?;
    let pairs = all_pairs(alloc, script, &passed)?;
    close(alloc, script.count, pairs.as_slice(), roots.as_slice())
}

// The least closed set of statements of an evaluation that was found.
fn least_up_to(
    alloc: Global,
    script: &Script,
    rows: &[Row],
    words: u64,
    found: Evaluation,
) -> Result<StmtSet, Memory>
    requires numbered { IsNumbered (script_of script.now) }
    requires kept { AreKeptRows script.now.count rows.now }
    requires within { found.rows ≤ length rows.now }
    requires last { (view : ValuesView) → IsEvaluation (contents view found.value) (moments_by view (reverse (take found.rows rows.now))) }
    ensures bound { IfOk result (λ keep. length keep ≡ script.now.count) }
    ensures least { IfOk result (λ keep. (path : List ℕ) (arguments : List (List ℕ)) (files : List (List ℕ × List ℕ)) → words ≡ length arguments + 1
        → IsLeast (script_of script.now) (opening path arguments files) (moments_by (view_in rows.now) (reverse (take found.rows rows.now))) (has keep)) }
{
    let texts = texts_of(alloc, rows)?;
    let tuples = tuples_of(alloc, rows)?;
    let names = texts.as_slice();
    let parts = tuples.as_slice();
    least_by(alloc, script, names, parts, rows, words, found)
}

/// The least closed set of statements for the k-th evaluation at a place, counted from 1: the statement of the evaluation, all that its value
/// depends on, and the parents of these. The rows are those of a well kept trial of the script, whose path and arguments are so many words.
pub fn least_set(
    alloc: Global,
    script: &Script,
    rows: &[Row],
    words: u64,
    at: Pos,
    k: u32,
) -> Result<StmtSet, SliceFault>
    requires numbered { IsNumbered (script_of script.now) }
    requires kept { AreKeptRows script.now.count rows.now }
    ensures bound { IfOk result (λ keep. length keep ≡ script.now.count) }
    ensures least { IfOk result (λ keep. (path : List ℕ) (arguments : List (List ℕ)) (files : List (List ℕ × List ℕ)) → words ≡ length arguments + 1
        → IsSliceSet (script_of script.now) (opening path arguments files) at k rows.now (has keep)) }
    ensures absent { result ≡ Err NoEvaluation → up_to_evaluation at k (moments_in rows.now) ≡ None }
{
    match find_evaluation(rows, at, k) {
        Some(found) => match least_up_to(alloc, script, rows, words, found) {
            Ok(keep) => Ok(keep),
            Err(Memory) => Err(SliceFault::Memory),
        },
        None => Err(SliceFault::NoEvaluation),
    }
}
