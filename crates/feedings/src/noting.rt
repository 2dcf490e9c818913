// One pass over rows, in order: what passes to each moment.
ghost use Rattle.std.specs.Prelude.{◌≡◌, ◌∷◌, ℕ, List, [], length, reverse, IfOk, OnOk};
ghost use Rattle.prov_base.specs.declared.place.Pos.{Pos as OnePos};
ghost use Rattle.py_tree.specs.Erasure.{script_of};
ghost use Rattle.py_tree.specs.Places.{suite_starts};
ghost use Rattle.py_tree.specs.Tree.{ScriptTree};
ghost use Rattle.py_value.specs.Contents.{Contents};
ghost use Rattle.py_value.specs.Seen.{SeenAccess, SeenKind};
ghost use Rattle.py_value.specs.Values.{ValuesView};
ghost use Rattle.py_model.specs.Moment.{Moment, begins, does, enters, leaves, ends};
ghost use Rattle.py_model.specs.Plan.{Answer as OneAnswer};
ghost use Rattle.py_model.specs.Told.{how_seen};
ghost use Rattle.std.specs.Prelude.{Option};
ghost use Rattle.row_moments.specs.Moments.{moments_in, told_with};
ghost use Rattle.feedings.specs.HasNoted.{HasNoted, given_of};
ghost use Rattle.value_links.specs.Links.{links};
ghost use Rattle.feedings.specs.Passing.{all_passed};
ghost use Rattle.value_links.specs.Takings.{IsTaking};

use crate::fed::{Fed, Times};
use crate::kinds::{given_as, taken_as};
use crate::stack::Stack;
use prov_base::{Memory, Pos};
use py_model::How;
use py_tree::Script;
use std::alloc::Global;
use trace_rows::Row;
use value_links::{AN_ENTER, Point, Taking, links_of, places_of};

/// What is known after rows: what is open, the times that were returned in the activation that the last moment left, and what passed to each moment.
#[derive(Drop)]
pub(crate) struct Noting {
    stack: Stack,
    left: Times,
    fed: Fed,
}

impl Noting {
    // Before all rows.
    fn new(alloc: Global) -> Noting
        ensures { (script : ScriptTree) → HasNoted script result [] }
    {
        Noting {
            stack: Stack::new(alloc),
            left: Times::of(Vec::new(alloc)),
            fed: Fed::new(alloc),
        }
    }

    // What a call gives back.
    fn given_back(&self, op: u8) -> &[usize]
        ensures { result.now ≡ given_of op self.now.left }
    {
        if op == 2 { self.left.as_slice() } else { &[] }
    }

    // A statement begins.
    fn begin(&mut self, alloc: Global, stmt: u32) -> Result<(), Memory>
        ensures { (script : ScriptTree) (told : List Moment) → HasNoted script self.old told → OnOk result (HasNoted script self.new (begins stmt ∷ told)) }
    {
        self.left = Times::of(Vec::new(alloc));
        self.fed.push(Times::of(Vec::new(alloc)))?;
        self.stack.begin(alloc, stmt)
    }

    // An operation is done.
    fn see(
        &mut self,
        alloc: Global,
        taking: &Taking,
        at: Pos,
        op: u8,
        count: usize,
    ) -> Result<(), Memory>
        ensures { (script : ScriptTree) (told : List Moment) (values : List Contents) (answer : OneAnswer) (made : Option SeenKind) (accesses : List SeenAccess) (weight : ℕ)
            → IsTaking (links script) taking.now → length values ≡ count → HasNoted script self.old told
            → OnOk result (HasNoted script self.new (does at op values answer made accesses weight ∷ told)) }
    {
        let to = Point {
            at,
            kind: taken_as(op),
        };
        let mut times = self.stack.taken(alloc, taking, to, count)?;
        times.extend_from_slice(self.given_back(op))?;
        let time = self.fed.count();
        self.left = Times::of(Vec::new(alloc));
        self.fed.push(Times::of(times))?;
        let from = Point {
            at,
            kind: given_as(op),
        };
        self.stack.note(from, time)
    }

    // An activation is entered.
    fn enter(&mut self, alloc: Global, taking: &Taking, at: Pos, count: usize) -> Result<(), Memory>
        ensures { (script : ScriptTree) (told : List Moment) (def : OnePos) (values : List Contents) (accesses : List SeenAccess)
            → IsTaking (links script) taking.now → length values ≡ count → HasNoted script self.old told
            → OnOk result (HasNoted script self.new (enters at def values accesses ∷ told)) }
    {
        let to = Point { at, kind: AN_ENTER };
        let times = self.stack.taken(alloc, taking, to, count)?;
        self.left = Times::of(Vec::new(alloc));
        self.fed.push(Times::of(times))?;
        self.stack.enter(alloc)
    }

    // An activation is left.
    fn leave(&mut self, alloc: Global) -> Result<(), Memory>
        ensures { (script : ScriptTree) (told : List Moment) (v : Contents) → HasNoted script self.old told → OnOk result (HasNoted script self.new (leaves v ∷ told)) }
    {
        self.left = self.stack.close(alloc);
        self.fed.push(Times::of(Vec::new(alloc)))
    }

    // A statement ends.
    fn end(
        &mut self,
        alloc: Global,
        taking: &Taking,
        places: &[Pos],
        how: How,
    ) -> Result<(), Memory>
        ensures { (script : ScriptTree) (told : List Moment) (number : ℕ) → IsTaking (links script) taking.now → places.now ≡ suite_starts script.body → HasNoted script self.old told
            → OnOk result (HasNoted script self.new (ends number (how_seen how) ∷ told)) }
    {
        self.left = Times::of(Vec::new(alloc));
        self.fed.push(Times::of(Vec::new(alloc)))?;
        match how {
            How::Return => self.stack.end_by_return(alloc, taking, places),
            How::Normal | How::Break | How::Continue | How::Raise => {
                self.stack.close(alloc);
                Ok(())
            }
        }
    }

    // Passes a row.
    fn pass(
        &mut self,
        alloc: Global,
        taking: &Taking,
        places: &[Pos],
        row: &Row,
    ) -> Result<(), Memory>
        ensures { (view : ValuesView) (script : ScriptTree) (told : List Moment) → IsTaking (links script) taking.now → places.now ≡ suite_starts script.body → HasNoted script self.old told
            → OnOk result (HasNoted script self.new (told_with view row.now told)) }
    {
        match row {
            Row::Begin(stmt) => self.begin(alloc, *stmt),
            Row::Do(at, op, values, _, _, _, _) => {
                self.see(alloc, taking, *at, *op, values.as_slice().len())
            }
            Row::Enter(at, _, values, _) => {
                self.enter(alloc, taking, *at, values.as_slice().len())
            }
            Row::Leave(_) => self.leave(alloc),
            Row::End(how) => self.end(alloc, taking, places, *how),
            Row::Text(_) | Row::Tuple(_) => Ok(()),
        }
    }
}

// What passes to each moment that rows tell, where the links and the places of a script are known.
fn fed_along(alloc: Global, taking: &Taking, places: &[Pos], rows: &[Row]) -> Result<Fed, Memory>
    ensures { (script : ScriptTree) → IsTaking (links script) taking.now → places.now ≡ suite_starts script.body → IfOk result (λ fed. fed ≡ all_passed script (moments_in rows.now)) }
{
    let mut noting = Noting::new(alloc);
    for row in rows {
        noting.pass(alloc, taking, places, row)?;
    }
    Ok(noting.fed)
}

/// What passes to each moment that rows tell, by the links of a script: each row is looked at once.
pub(crate) fn fed_by(alloc: Global, script: &Script, rows: &[Row]) -> Result<Fed, Memory>
    ensures { IfOk result (λ fed. fed ≡ all_passed (script_of script.now) (moments_in rows.now)) }
{
    let links = links_of(alloc, script)?;
    let taking = Taking::of(alloc, links.as_slice())?;
    let places = places_of(alloc, script)?;
    fed_along(alloc, &taking, places.as_slice(), rows)
}
