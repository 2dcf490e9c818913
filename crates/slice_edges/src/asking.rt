// One pass over rows, in order.
ghost use Rattle.std.specs.Prelude.{◌≡◌, ◌∷◌, ℕ, true, nat_lt, List, [], length, map, unwrap_or, OnOk};
ghost use Rattle.prov_base.specs.declared.place.Pos.{Pos};
ghost use Rattle.py_tree.specs.Erasure.{script_of};
ghost use Rattle.py_tree.specs.Numbering.{IsNumbered};
ghost use Rattle.py_tree.specs.Tree.{ScriptTree};
ghost use Rattle.py_value.specs.Contents.{Contents};
ghost use Rattle.py_value.specs.Seen.{SeenKind, access_seen, location_seen, IsNamedLocation};
ghost use Rattle.py_value.specs.Values.{ValuesView, AreInterned, StandOnce};
ghost use Rattle.py_value.specs.declared.access.Location.{Location as OneLocation};
ghost use Rattle.py_model.specs.Occurrences.{frames_after, owner_stmt};
ghost use Rattle.py_model.specs.Moment.{Moment, begins, does, enters, leaves, ends};
ghost use Rattle.py_model.specs.Plan.{Answer as OneAnswer};
ghost use Rattle.py_model.specs.Told.{how_seen};
ghost use Rattle.std.specs.Prelude.{Option};
ghost use Rattle.row_words.specs.Fits.{Each};
ghost use Rattle.row_checks.specs.NamedRows.{NamesAccess, NamesRow};
ghost use Rattle.slice_law.specs.Closed.{has, IsIn};
ghost use Rattle.slice_law.specs.Edges.{Reason, reach_stmts, run_asks};
ghost use Rattle.slice_edges.specs.Asks.{among, among_by, some_ask_by, some_asks};
ghost use Rattle.slice_edges.specs.HasAsked.{HasAsked};
ghost use Rattle.row_moments.specs.Moments.{told_with};

use crate::ask::{ask_for, ask_jump};
use crate::counts::forget;
use crate::frames::Frames;
use crate::memo::Memo;
use crate::reads::ask_owner;
use crate::stmts::Stmts;
use crate::writers::{note, writers_at};
use crate::{Ask, Why};
use indexmap::{IndexMap, IndexSet};
use prov_base::Memory;
use py_model::How;
use py_tree::Script;
use py_value::{Access, Location};
use std::alloc::Global;
use trace_rows::Row;

/// What is known after rows: what is open, the statements of the reach of each location, which statement asks for which and why,
/// and what need not be sought or asked for again.
#[derive(Drop)]
pub struct Asking {
    frames: Frames,
    writers: IndexMap<Location, Stmts>,
    asks: IndexSet<Ask>,
    memo: Memo,
}

impl Asking {
    /// Before all rows.
    pub fn new(alloc: Global) -> Asking
        ensures { (view : ValuesView) (script : ScriptTree) → HasAsked view script result [] }
    {
        Asking {
            frames: Frames::new(alloc),
            writers: IndexMap::new(alloc),
            asks: IndexSet::new(alloc),
            memo: Memo {
                binders: IndexMap::new(alloc),
                counts: IndexMap::new(alloc),
            },
        }
    }

    // An operation is done: its reads ask for what stands before it, and then its writes are noted.
    fn see(
        &mut self,
        alloc: Global,
        script: &Script,
        names: &[&str],
        accesses: &[Access],
    ) -> Result<(), Memory>
        requires { IsNumbered (script_of script.now) }
        ensures { (view : ValuesView) (told : List Moment) → AreInterned view → Each (NamesAccess view) accesses.now → view.texts ≡ map (λ k. k.now) names.now
            → HasAsked view (script_of script.now) self.old told
            → OnOk result ((at : Pos) (op : ℕ) (values : List Contents) (answer : OneAnswer) (made : Option SeenKind) (weight : ℕ)
            → HasAsked view (script_of script.now) self.new (does at op values answer made (map (access_seen view) accesses.now) weight ∷ told)) }
    {
        let owner = self.frames.owner();
        ask_owner(
            alloc,
            &mut self.asks,
            &mut self.memo,
            script,
            names,
            &self.writers,
            owner,
            accesses,
        )?;
        forget(&mut self.memo.counts, accesses);
        note(alloc, &mut self.writers, accesses, owner)
    }

    // An activation is entered.
    fn enter(
        &mut self,
        alloc: Global,
        script: &Script,
        names: &[&str],
        accesses: &[Access],
    ) -> Result<(), Memory>
        requires { IsNumbered (script_of script.now) }
        ensures { (view : ValuesView) (told : List Moment) → AreInterned view → Each (NamesAccess view) accesses.now → view.texts ≡ map (λ k. k.now) names.now
            → HasAsked view (script_of script.now) self.old told
            → OnOk result ((at def : Pos) (values : List Contents) → HasAsked view (script_of script.now) self.new (enters at def values (map (access_seen view) accesses.now) ∷ told)) }
    {
        self.see(alloc, script, names, accesses)?;
        self.frames.enter()
    }

    // A statement begins.
    fn begin(&mut self, stmt: u32) -> Result<(), Memory>
        ensures { (view : ValuesView) (script : ScriptTree) (told : List Moment) → HasAsked view script self.old told
            → OnOk result (HasAsked view script self.new (begins stmt ∷ told)) }
    {
        let caller = self.frames.caller();
        ask_for(&mut self.asks, Why::Control, stmt, caller)?;
        self.frames.begin(stmt)
    }

    // An activation is left.
    fn leave(&mut self)
        ensures { (view : ValuesView) (script : ScriptTree) (told : List Moment) (v : Contents) → HasAsked view script self.old told
            → HasAsked view script self.new (leaves v ∷ told) }
    {
        self.frames.close();
    }

    // A statement ends.
    fn end(&mut self, how: How) -> Result<(), Memory>
        ensures { (view : ValuesView) (script : ScriptTree) (told : List Moment) → HasAsked view script self.old told
            → OnOk result (HasAsked view script self.new (ends (unwrap_or (owner_stmt told) 0) (how_seen how) ∷ told)) }
    {
        let ended = self.frames.owner().unwrap_or(0);
        self.frames.close();
        ask_jump(&mut self.asks, how, self.frames.owner(), ended)
    }

    /// Passes a row. The names are the texts of the table in which the row's texts and tuples are found. After an `Err` nothing is known.
    pub fn pass(
        &mut self,
        alloc: Global,
        script: &Script,
        names: &[&str],
        row: &Row,
    ) -> Result<(), Memory>
        requires { IsNumbered (script_of script.now) }
        ensures { (view : ValuesView) (told : List Moment) → AreInterned view → NamesRow view row.now → view.texts ≡ map (λ k. k.now) names.now
            → HasAsked view (script_of script.now) self.old told
            → OnOk result (HasAsked view (script_of script.now) self.new (told_with view row.now told)) }
    {
        match row {
            Row::Begin(stmt) => self.begin(*stmt),
            Row::Do(_, _, _, _, _, accesses, _) => {
                self.see(alloc, script, names, accesses.as_slice())
            }
            Row::Enter(_, _, _, accesses) => {
                self.enter(alloc, script, names, accesses.as_slice())
            }
            Row::Leave(_) => {
                self.leave();
                Ok(())
            }
            Row::End(how) => self.end(*how),
            Row::Text(_) | Row::Tuple(_) => Ok(()),
        }
    }

    /// The statement whose own moment the next one is: the innermost that is open.
    pub fn owner(&self) -> Option<u32>
        ensures { (view : ValuesView) (script : ScriptTree) (told : List Moment) → HasAsked view script self.now told → result ≡ owner_stmt told }
    {
        self.frames.owner()
    }

    /// The statements of the reach of a location: that of the last Set, and those of later Updates.
    pub fn writers(&self, at: &Location) -> &[u32]
        ensures { (view : ValuesView) (script : ScriptTree) (told : List Moment) → HasAsked view script self.now told → IsNamedLocation view at.now
            → (s : ℕ) → has s result.now ≡ has s (reach_stmts (location_seen view at.now) told) }
    {
        writers_at(&self.writers, at)
    }

    /// Whether something is open.
    pub fn is_open(&self) -> bool
        ensures { (view : ValuesView) (script : ScriptTree) (told : List Moment) → HasAsked view script self.now told → result ≡ nat_lt 0 (length (frames_after told)) }
    {
        self.frames.is_open()
    }

    /// The locations at which statements are noted: among them each that has a statement in its reach.
    pub fn locations(&self) -> &[Location]
        ensures { (view : ValuesView) (script : ScriptTree) (told : List Moment) → HasAsked view script self.now told
            → (l : OneLocation) → IsNamedLocation view l → (s : ℕ) → has s (reach_stmts (location_seen view l) told) ≡ true → IsIn result.now l }
    {
        self.writers.keys().as_slice()
    }

    /// Which statement asks for which, and why, each once.
    pub fn edges(&self) -> &[Ask]
        ensures asked { (view : ValuesView) (script : ScriptTree) (told : List Moment) → HasAsked view script self.now told
            → (s r : ℕ) → among result.now s r ≡ some_asks (run_asks script told) s r }
        ensures reasons { (view : ValuesView) (script : ScriptTree) (told : List Moment) → HasAsked view script self.now told
            → (reason : Reason) (s r : ℕ) → among_by result.now reason s r ≡ some_ask_by (run_asks script told) reason s r }
        ensures once { StandOnce result.now }
    {
        self.asks.as_slice()
    }
}
