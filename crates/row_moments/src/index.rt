// The index of rows.
ghost use Rattle.std.specs.Prelude.{◌≡◌, ◌<◌, ℕ, suc, List, Some, length, slice_get, IfOk, OnOk};
ghost use Rattle.trace_rows.specs.declared.row.Row.{Row as OneRow};
ghost use Rattle.row_moments.specs.IndexKnows.{HasBegun, HasGone, KnowsRows};
ghost use Rattle.row_moments.specs.IndexPlaces.{owner_by};
ghost use Rattle.row_moments.specs.RowOccurrences.{begun, occurrences_in, children_in, owner_in, IsIndexOf};

use crate::numbers::{Numbers, add_to, add_to_some, no_lists, numbers_at};
use crate::places::Places;
use prov_base::Memory;
use py_tree::Script;
use std::alloc::Global;
use trace_rows::Row;

/// Which rows begin a statement, which occurrences are children of which, and whose own moment a row tells.
#[derive(Drop)]
pub struct Index {
    occurrences: Vec<Numbers>,
    children: Vec<Numbers>,
    owners: Vec<Option<u32>>,
}

// The statement whose own moment a row tells, where these are open before it.
fn owner_of(places: &Places, row: &Row) -> Option<u32>
    ensures { result ≡ owner_by (Some row.now) places.now }
{
    match row {
        Row::Do(..) | Row::Enter(..) => places.stmt(),
        Row::Text(_) | Row::Tuple(_) | Row::Begin(_) | Row::Leave(_) | Row::End(_) => None,
    }
}

impl Index {
    // A statement begins at a row, which is the last that has a list of children.
    fn begin(&mut self, places: &mut Places, stmt: u32, at: u32) -> Result<(), Memory>
        ensures { OnOk result (HasBegun self.old places.old stmt at self.new places.new) }
    {
        add_to(&mut self.occurrences, stmt, at)?;
        add_to_some(&mut self.children, places.row(), at)?;
        places.begin(stmt, at)
    }

    // What a row opens or closes.
    fn go(&mut self, places: &mut Places, row: &Row, at: u32) -> Result<(), Memory>
        ensures { OnOk result (HasGone self.old places.old row.now at self.new places.new) }
    {
        match row {
            Row::Begin(stmt) => self.begin(places, *stmt, at),
            Row::Enter(..) => places.enter(),
            Row::Leave(_) | Row::End(_) => {
                places.close();
                Ok(())
            }
            Row::Do(..) | Row::Text(_) | Row::Tuple(_) => Ok(()),
        }
    }

    // One row is passed.
    fn pass(&mut self, alloc: Global, places: &mut Places, row: &Row) -> Result<(), Memory>
        ensures { OnOk result ((statements i : ℕ) (rows : List OneRow) → slice_get rows i ≡ Some row.now
            → KnowsRows statements rows i self.old places.old → KnowsRows statements rows (suc i) self.new places.new) }
    {
        let Ok(at) = u32::try_from(self.owners.len()) else {
            return Err(Memory);
        };
        self.owners.push(owner_of(places, row))?;
        self.children.push(Numbers::nothing(alloc))?;
        self.go(places, row, at)
    }

    /// The index of rows. The statements are those of the script.
    pub fn new(alloc: Global, script: &Script, rows: &[Row]) -> Result<Index, Memory>
        ensures { IfOk result (λ index. IsIndexOf script.now.count rows.now index) }
    {
        let mut index = Index {
            occurrences: no_lists(alloc, script.count)?,
            children: Vec::new(alloc),
            owners: Vec::new(alloc),
        };
        let mut places = Places::new(alloc);
        for row in rows {
            index.pass(alloc, &mut places, row)?;
        }
        Ok(index)
    }

    /// A row, by its number.
    pub fn row<'a>(&self, rows: &'a [Row], i: u32) -> &'a Row
        requires { i < length rows.now }
        ensures { slice_get rows.now i ≡ Some result.now }
    {
        &rows[i as usize]
    }

    /// The rows that begin a statement, in order. A number that no statement has gives none.
    pub fn occurrences(&self, s: u32) -> &[u32]
        ensures { (statements : ℕ) (rows : List OneRow) → IsIndexOf statements rows self.now → s < statements → result.now ≡ occurrences_in rows s }
    {
        numbers_at(self.occurrences.as_slice(), s)
    }

    /// The rows that begin the children of the occurrence which a row begins, in order: those in its block and those in activations that it
    /// entered. A row that begins no statement has none.
    pub fn children(&self, begin: u32) -> &[u32]
        ensures { (statements s : ℕ) (rows : List OneRow) → IsIndexOf statements rows self.now → begun (slice_get rows begin) ≡ Some s → result.now ≡ children_in rows begin }
    {
        numbers_at(self.children.as_slice(), begin)
    }

    /// The statement whose own moment a row tells, if it tells one.
    pub fn owner(&self, i: u32) -> Option<u32>
        ensures { (statements : ℕ) (rows : List OneRow) → IsIndexOf statements rows self.now → i < length rows → result ≡ owner_in rows i }
    {
        match self.owners.get(i as usize) {
            Some(owner) => *owner,
            None => None,
        }
    }

    /// The statement that entered the activation which a row enters: an Enter is its own moment. Where there is none the answer is 0.
    pub fn call_site(&self, enter: u32) -> u32
        ensures { (statements s : ℕ) (rows : List OneRow) → IsIndexOf statements rows self.now → enter < length rows → owner_in rows enter ≡ Some s → result ≡ s }
    {
        self.owner(enter).unwrap_or(0)
    }
}
