// The store that the rows of a trial hold, up to a row.
ghost use Rattle.std.specs.Prelude.{◌≡◌, ◌≤◌, ◌∷◌, ◌++◌, ℕ, List, length, map, take, reverse, IfOk};
ghost use Rattle.py_value.specs.Values.{ValuesView, AreInterned, Keeps};
ghost use Rattle.py_model.specs.Store.{opening as opening_of};
ghost use Rattle.row_checks.specs.KeptRows.{AreKeptRows, texts_in, tuples_in, view_in};
ghost use Rattle.row_moments.specs.InOrder.{StandInOrder};
ghost use Rattle.row_moments.specs.Moments.{moments_by};
ghost use Rattle.slice_law.specs.Closed.{store_after};
ghost use Rattle.slice_things.specs.Forms.{AreForms};
ghost use Rattle.slicer.specs.Passing.{AreReadable};
ghost use Rattle.held_rows.specs.HeldStore.{store_of, AreReadAlike};
ghost use Rattle.held_rows.specs.Kept.{AreTexts};
ghost use Rattle.held_rows.specs.Leaves.{HoldsAfter};

use crate::words::texts_with;
use crate::{Held, RowStore};
use prov_base::Memory;
use py_tree::Script;
use py_value::Value;
use row_checks::kept_rows_name_in_order;
use row_moments::{rows_in_order_are_interned, texts_of, tuples_of};
use slice_things::Forms;
use std::alloc::Global;
use trace_rows::Row;

// Passes rows, in order. The words are the path and the arguments, by the numbers of their texts.
fn pass_rows(
    alloc: Global,
    forms: &Forms,
    words: Vec<u32>,
    rows: &[Row],
) -> Result<RowStore, Memory>
    ensures { (view : ValuesView) (path : List ℕ) (arguments : List (List ℕ)) (files : List (List ℕ × List ℕ)) → AreInterned view → AreForms view forms.now → AreReadable view rows.now
        → AreTexts view words.items (path ∷ arguments) → IfOk result (λ store. HoldsAfter view forms.now (opening_of path arguments files) store (moments_by view (reverse rows.now))) }
{
    let mut store = RowStore::new(alloc, words)?;
    for row in rows {
        store.pass(alloc, forms, row)?;
    }
    Ok(store)
}

// The path and the arguments.
fn all_words<'a>(
    alloc: Global,
    path: &'a str,
    arguments: &[&'a str],
) -> Result<Vec<&'a str>, Memory>
    ensures { IfOk result (λ words. map (λ k. k.now) words.items ≡ path.now ∷ map (λ k. k.now) arguments.now) }
{
    let mut words = Vec::new(alloc);
    words.push(path)?;
    words.extend_from_slice(arguments)?;
    Ok(words)
}

// The store that rows hold, with the texts and tuples that they and the words name.
fn held_by<'a>(
    alloc: Global,
    texts: Vec<&'a str>,
    tuples: Vec<&'a [Value]>,
    words: Vec<u32>,
    rows: &[Row],
) -> Result<Held<'a>, Memory>
    requires order { StandInOrder (record { texts = map (λ k. k.now) texts.items; tuples = map (λ k. k.now) tuples.items }) }
    requires readable { AreInterned (record { texts = map (λ k. k.now) texts.items; tuples = map (λ k. k.now) tuples.items })
        → AreReadable (record { texts = map (λ k. k.now) texts.items; tuples = map (λ k. k.now) tuples.items }) rows.now }
    requires words { (path : List ℕ) × ((arguments : List (List ℕ)) × AreTexts (record { texts = map (λ k. k.now) texts.items; tuples = map (λ k. k.now) tuples.items }) words.items (path ∷ arguments)) }
    ensures interned { IfOk result (λ held. AreInterned (record { texts = map (λ k. k.now) texts.entry.items; tuples = map (λ k. k.now) tuples.entry.items })) }
    ensures values { IfOk result (λ held. held.values ≡ record { texts = map (λ k. k.now) texts.entry.items; tuples = map (λ k. k.now) tuples.entry.items }) }
    ensures read { IfOk result (λ held. (path : List ℕ) (arguments : List (List ℕ)) (files : List (List ℕ × List ℕ))
        → AreTexts (record { texts = map (λ k. k.now) texts.entry.items; tuples = map (λ k. k.now) tuples.entry.items }) words.items (path ∷ arguments)
        → AreReadAlike (record { texts = map (λ k. k.now) texts.entry.items; tuples = map (λ k. k.now) tuples.entry.items }) (store_of held) (store_after (opening_of path arguments files)
        (moments_by (record { texts = map (λ k. k.now) texts.entry.items; tuples = map (λ k. k.now) tuples.entry.items }) (reverse rows.now)))) }
{
    let forms = Forms::of(alloc, texts.as_slice(), tuples.as_slice())?;
    let store = pass_rows(alloc, &forms, words, rows)?;
    Held::of(alloc, texts, tuples, forms, store)
}

/// The store that the first rows of a kept trial hold, so many, with the texts and tuples of all its rows and of its path and arguments.
pub(crate) fn held_front<'a>(
    alloc: Global,
    script: &Script,
    rows: &'a [Row],
    path: &'a str,
    arguments: &[&'a str],
    n: usize,
) -> Result<Held<'a>, Memory>
    requires kept { AreKeptRows script.now.count rows.now }
    requires within { n ≤ length rows.now }
    ensures interned { IfOk result (λ held. AreInterned held.values) }
    ensures first { IfOk result (λ held. AreInterned (view_in rows.now)) }
    ensures texts { IfOk result (λ held. Keeps (texts_in rows.now) held.values.texts) }
    ensures tuples { IfOk result (λ held. held.values.tuples ≡ tuples_in rows.now) }
    ensures read { IfOk result (λ held. (files : List (List ℕ × List ℕ)) → AreReadAlike held.values (store_of held)
        (store_after (opening_of path.now (map (λ k. k.now) arguments.now) files) (moments_by (view_in rows.now) (reverse (take n rows.now))))) }
{
    kept_rows_name_in_order();
    rows_in_order_are_interned();
    let names = texts_of(alloc, rows)?;
    let tuples = tuples_of(alloc, rows)?;
    let words = all_words(alloc, path, arguments)?;
    let (texts, numbers) = texts_with(alloc, names, words.as_slice())?;
    held_by(alloc, texts, tuples, numbers, &rows[..n])
}
