// One pass over rows, in order.
ghost use Rattle.std.specs.Prelude.{◌≡◌, ◌++◌, ◌∷◌, ℕ, List, [], map, IfOk, OnOk};
ghost use Rattle.std.specs.Option.{option_map};
ghost use Rattle.py_value.specs.Named.{IsNamedKind};
ghost use Rattle.py_value.specs.Seen.{access_seen, kind_seen};
ghost use Rattle.py_value.specs.Values.{ValuesView, AreInterned};
ghost use Rattle.py_model.specs.History.{with_kind};
ghost use Rattle.py_model.specs.Moment.{Moment};
ghost use Rattle.py_model.specs.Store.{RunStore, opening as opening_of};
ghost use Rattle.row_words.specs.Fits.{Each};
ghost use Rattle.row_checks.specs.NamedRows.{NamesAccess, NamesRow};
ghost use Rattle.row_moments.specs.Moments.{told_with};
ghost use Rattle.slice_things.specs.declared.forms.Forms.{Forms as OneForms};
ghost use Rattle.slice_things.specs.Forms.{AreForms};
ghost use Rattle.slice_things.specs.Things.{after_one, after_all, IsNormalAccess, IsNormalRow};
ghost use Rattle.held_rows.specs.Kept.{AreTexts};
ghost use Rattle.held_rows.specs.Leaves.{HoldsRows, HoldsAfter};

use crate::kept::{Kept, pass_place};
use crate::steps::{Steps, pass_order};
use indexmap::IndexMap;
use prov_base::Memory;
use py_value::{Access, Kind, Location};
use slice_things::Forms;
use std::alloc::Global;
use trace_rows::Row;

/// What rows leave of a store, as far as graph texts read it: the numbers of the texts of the path and the arguments, the kinds of the objects, what
/// stands at each place, where keys are their forms, and what was done to each order since it was set.
#[derive(Drop)]
pub struct RowStore {
    pub(crate) words: Vec<u32>,
    pub(crate) kinds: Vec<Kind>,
    pub(crate) places: IndexMap<Location, Kept>,
    pub(crate) orders: IndexMap<u32, Steps>,
}

impl RowStore {
    /// Before all rows: the path and the arguments, by the numbers of their texts, are the list with number 0.
    pub fn new(alloc: Global, words: Vec<u32>) -> Result<RowStore, Memory>
        ensures { (view : ValuesView) (forms : OneForms) (path : List ℕ) (arguments : List (List ℕ)) (files : List (List ℕ × List ℕ)) → AreTexts view words.items (path ∷ arguments)
            → IfOk result (λ rows. HoldsAfter view forms (opening_of path arguments files) rows []) }
    {
        let mut kinds = Vec::new(alloc);
        kinds.push(Kind::List)?;
        Ok(RowStore {
            words,
            kinds,
            places: IndexMap::new(alloc),
            orders: IndexMap::new(alloc),
        })
    }

    // What an access leaves is noted.
    fn note(&mut self, alloc: Global, forms: &Forms, access: &Access) -> Result<(), Memory>
        ensures { (view : ValuesView) (store : RunStore) → AreInterned view → AreForms view forms.now → NamesAccess view access.now → IsNormalAccess view access.now
            → HoldsRows view forms.now self.old store → OnOk result (HoldsRows view forms.now self.new (after_one (access_seen view access.now) store)) }
    {
        pass_place(forms, &mut self.places, access)?;
        pass_order(alloc, &mut self.orders, access)
    }

    // What accesses leave is noted.
    fn see(&mut self, alloc: Global, forms: &Forms, accesses: &[Access]) -> Result<(), Memory>
        ensures { (view : ValuesView) (store : RunStore) → AreInterned view → AreForms view forms.now → Each (NamesAccess view) accesses.now → Each (IsNormalAccess view) accesses.now
            → HoldsRows view forms.now self.old store → OnOk result (HoldsRows view forms.now self.new (after_all (map (access_seen view) accesses.now) store)) }
    {
        for access in accesses {
            self.note(alloc, forms, access)?;
        }
        Ok(())
    }

    // An object is made, if there is one.
    fn make(&mut self, made: Option<Kind>) -> Result<(), Memory>
        ensures { (view : ValuesView) (forms : OneForms) (store : RunStore) → IsNamedKind view made → HoldsRows view forms self.old store
            → OnOk result (HoldsRows view forms self.new (record store { kinds = with_kind (option_map (kind_seen view) made) store.kinds })) }
    {
        if let Some(kind) = made {
            self.kinds.push(kind)?;
        }
        Ok(())
    }

    /// Passes a row. The forms are those of the table in which the row's texts and tuples are found. After an `Err` nothing is known.
    pub fn pass(&mut self, alloc: Global, forms: &Forms, row: &Row) -> Result<(), Memory>
        ensures { (view : ValuesView) (opening : RunStore) (told : List Moment) → AreInterned view → AreForms view forms.now → NamesRow view row.now → IsNormalRow view row.now
            → HoldsAfter view forms.now opening self.old told → OnOk result (HoldsAfter view forms.now opening self.new (told_with view row.now told)) }
    {
        match row {
            Row::Do(_, _, _, _, made, accesses, _) => {
                self.see(alloc, forms, accesses.as_slice())?;
                self.make(*made)
            }
            Row::Enter(_, _, _, accesses) => self.see(alloc, forms, accesses.as_slice()),
            Row::Text(_) | Row::Tuple(_) | Row::Begin(_) | Row::Leave(_) | Row::End(_) => Ok(()),
        }
    }
}
