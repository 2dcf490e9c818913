// One pass over the rows up to an evaluation.
ghost use Rattle.std.specs.Prelude.{◌≡◌, ◌+◌, ℕ, List, [], length, map, reverse, IfOk, OnOk};
ghost use Rattle.py_tree.specs.Erasure.{script_of};
ghost use Rattle.py_tree.specs.Numbering.{IsNumbered};
ghost use Rattle.py_tree.specs.Tree.{ScriptTree};
ghost use Rattle.py_value.specs.Values.{ValuesView, AreInterned};
ghost use Rattle.py_model.specs.Moment.{Moment};
ghost use Rattle.py_model.specs.Store.{RunStore, opening as opening_of};
ghost use Rattle.row_moments.specs.Moments.{told_with, moments_by};
ghost use Rattle.slice_things.specs.Forms.{AreForms};
ghost use Rattle.slice_things.specs.declared.forms.Forms.{Forms as OneForms};
ghost use Rattle.slicer.specs.Passing.{Knows, IsReadable, AreReadable};

use crate::jumps::note_jump;
use prov_base::Memory;
use py_tree::Script;
use slice_edges::Asking;
use slice_things::{Forms, Things};
use std::alloc::Global;
use trace_rows::Row;

/// What is known after rows: which statement asks for which, what the objects hold, and which statements ended by a jump directly in the
/// module.
#[derive(Drop)]
pub(crate) struct Passed {
    pub asking: Asking,
    pub things: Things,
    pub jumps: Vec<u32>,
}

impl Passed {
    // Before all rows. The path and the arguments are so many words.
    fn new(alloc: Global, words: u64) -> Result<Passed, Memory>
        ensures { (view : ValuesView) (script : ScriptTree) (forms : OneForms) (path : List ℕ) (arguments : List (List ℕ)) (files : List (List ℕ × List ℕ)) → words ≡ length arguments + 1
            → IfOk result (λ passed. Knows view script forms (opening_of path arguments files) passed []) }
    {
        let asking = Asking::new(alloc);
        let things = Things::new(alloc, words)?;
        let jumps = Vec::new(alloc);
        Ok(Passed {
            asking,
            things,
            jumps,
        })
    }

    // Passes a row. After an `Err` nothing is known.
    fn pass(
        &mut self,
        alloc: Global,
        script: &Script,
        names: &[&str],
        forms: &Forms,
        row: &Row,
    ) -> Result<(), Memory>
        requires { IsNumbered (script_of script.now) }
        ensures { (view : ValuesView) (opening : RunStore) (told : List Moment) → AreInterned view → AreForms view forms.now → IsReadable view row.now → view.texts ≡ map (λ k. k.now) names.now
            → Knows view (script_of script.now) forms.now opening self.old told
            → OnOk result (Knows view (script_of script.now) forms.now opening self.new (told_with view row.now told)) }
    {
        let innermost = self.asking.owner();
        self.asking.pass(alloc, script, names, row)?;
        self.things.pass(alloc, forms, row)?;
        let is_open = self.asking.is_open();
        note_jump(&mut self.jumps, row, innermost, is_open)
    }
}

/// Passes rows, in order.
pub(crate) fn pass_rows(
    alloc: Global,
    script: &Script,
    names: &[&str],
    forms: &Forms,
    rows: &[Row],
    words: u64,
) -> Result<Passed, Memory>
    requires { IsNumbered (script_of script.now) }
    ensures { (view : ValuesView) (path : List ℕ) (arguments : List (List ℕ)) (files : List (List ℕ × List ℕ)) → AreInterned view → AreForms view forms.now → AreReadable view rows.now
        → view.texts ≡ map (λ k. k.now) names.now → words ≡ length arguments + 1
        → IfOk result (λ passed. Knows view (script_of script.now) forms.now (opening_of path arguments files) passed (moments_by view (reverse rows.now))) }
{
    let mut passed = Passed::new(alloc, words)?;
    for row in rows {
        passed.pass(alloc, script, names, forms, row)?;
    }
    Ok(passed)
}
