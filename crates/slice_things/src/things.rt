// One pass over rows, in order.
ghost use Rattle.std.specs.Prelude.{◌≡◌, ◌+◌, ◌++◌, ◌∷◌, ℕ, List, [], map, length, Option, IfOk, OnOk};
ghost use Rattle.std.specs.Option.{option_map};
ghost use Rattle.py_value.specs.Seen.{SeenKind, access_seen, kind_seen};
ghost use Rattle.py_value.specs.Values.{ValuesView, AreInterned};
ghost use Rattle.py_model.specs.History.{with_kind};
ghost use Rattle.py_model.specs.Moment.{Moment};
ghost use Rattle.py_model.specs.Store.{RunStore, opening as opening_of};
ghost use Rattle.row_words.specs.Fits.{Each};
ghost use Rattle.row_checks.specs.NamedRows.{NamesAccess, NamesRow};
ghost use Rattle.row_moments.specs.Moments.{told_with};
ghost use Rattle.slice_things.specs.Forms.{AreForms};
ghost use Rattle.slice_things.specs.Things.{HoldsStore, HoldsThings, after_one, after_all, shape_seen, IsNormalAccess, IsNormalRow};

use crate::held::{pass_place, put_words};
use crate::orders::pass_order;
use crate::{Counts, Forms, Held};
use indexmap::IndexMap;
use prov_base::Memory;
use py_value::{Access, Kind, Location};
use std::alloc::Global;
use trace_rows::Row;

/// What an object is, as far as it matters for what is reachable.
#[derive(Clone, Copy, Debug, PartialEq, Eq)]
pub enum Shape {
    /// A list.
    List,
    /// A dictionary or an instance.
    Keyed,
    /// A file.
    File,
}

/// What rows leave of the objects: what each is, what stands at each place, where keys are their forms, and how often each form stands in each
/// order.
#[derive(Drop)]
pub struct Things {
    pub(crate) kinds: Vec<Shape>,
    pub(crate) places: IndexMap<Location, Held>,
    pub(crate) orders: IndexMap<u32, Counts>,
}

// What an object is.
fn shape_of(kind: Kind) -> Shape
    ensures { (view : ValuesView) → result ≡ shape_seen (kind_seen view kind) }
{
    match kind {
        Kind::List => Shape::List,
        Kind::Dict | Kind::Instance(_) => Shape::Keyed,
        Kind::File(..) => Shape::File,
    }
}

impl Things {
    /// Before all rows: the path and the arguments, so many, are the list with number 0.
    pub fn new(alloc: Global, words: u64) -> Result<Things, Memory>
        ensures { (view : ValuesView) (forms : Forms) (path : List ℕ) (arguments : List (List ℕ)) (files : List (List ℕ × List ℕ)) → words ≡ length arguments + 1
            → IfOk result (λ things. HoldsThings view forms (opening_of path arguments files) things []) }
    {
        let mut kinds = Vec::new(alloc);
        kinds.push(Shape::List)?;
        let mut places = IndexMap::new(alloc);
        places.insert(Location::Len(0), Held::Length(words))?;
        put_words(&mut places, words)?;
        Ok(Things {
            kinds,
            places,
            orders: IndexMap::new(alloc),
        })
    }

    // What an access leaves is noted.
    fn note(&mut self, alloc: Global, forms: &Forms, access: &Access) -> Result<(), Memory>
        ensures { (view : ValuesView) (store : RunStore) → AreInterned view → AreForms view forms.now → NamesAccess view access.now → IsNormalAccess view access.now
            → HoldsStore view forms.now self.old store → OnOk result (HoldsStore view forms.now self.new (after_one (access_seen view access.now) store)) }
    {
        pass_place(forms, &mut self.places, access)?;
        pass_order(alloc, forms, &mut self.orders, access)
    }

    // What accesses leave is noted.
    fn see(&mut self, alloc: Global, forms: &Forms, accesses: &[Access]) -> Result<(), Memory>
        ensures { (view : ValuesView) (store : RunStore) → AreInterned view → AreForms view forms.now → Each (NamesAccess view) accesses.now → Each (IsNormalAccess view) accesses.now
            → HoldsStore view forms.now self.old store → OnOk result (HoldsStore view forms.now self.new (after_all (map (access_seen view) accesses.now) store)) }
    {
        for access in accesses {
            self.note(alloc, forms, access)?;
        }
        Ok(())
    }

    // An object is made, if there is one.
    fn make(&mut self, made: Option<Kind>) -> Result<(), Memory>
        ensures { (view : ValuesView) (forms : Forms) (store : RunStore) → HoldsStore view forms self.old store
            → OnOk result (HoldsStore view forms self.new (record store { kinds = with_kind (option_map (kind_seen view) made) store.kinds })) }
    {
        if let Some(kind) = made {
            self.kinds.push(shape_of(kind))?;
        }
        Ok(())
    }

    /// Passes a row. The forms are those of the table in which the row's texts and tuples are found. After an `Err` nothing is known.
    pub fn pass(&mut self, alloc: Global, forms: &Forms, row: &Row) -> Result<(), Memory>
        ensures { (view : ValuesView) (opening : RunStore) (told : List Moment) → AreInterned view → AreForms view forms.now → NamesRow view row.now → IsNormalRow view row.now
            → HoldsThings view forms.now opening self.old told → OnOk result (HoldsThings view forms.now opening self.new (told_with view row.now told)) }
    {
        match row {
            Row::Do(_, _, _, _, made, accesses, _) => {
                self.see(alloc, forms, accesses.as_slice())?;
                self.make(*made)
            }
            Row::Enter(_, _, _, accesses) => self.see(alloc, forms, accesses.as_slice()),
            Row::Text(_) | Row::Tuple(_) | Row::Begin(_) | Row::Leave(_) | Row::End(_) => Ok(()),
        }
    }
}
