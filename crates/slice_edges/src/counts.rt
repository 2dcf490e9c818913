// How many of the statements at a location each statement asked for already.
ghost use Rattle.std.specs.Prelude.{◌≡◌, ◌==◌, ◌&&◌, ℕ, [], OnOk, if◌then◌else◌};
ghost use Rattle.py_value.specs.declared.access.Location.{Location as OneLocation};
ghost use Rattle.py_value.specs.contracts.access.LocationPartialEq.TheImpl.{ghosts as locations};
ghost use Rattle.slice_edges.specs.Counts.{count_in, count_at};
ghost use Rattle.slice_edges.specs.Writers.{sets_one, sets_in};

use indexmap::IndexMap;
use prov_base::Memory;
use py_value::{Access, Location};
use std::alloc::Global;
use std::marker::Model;

/// How many of the statements at one location each statement asked for.
#[derive(Drop)]
pub(crate) struct Counts {
    by_asker: IndexMap<u32, usize>,
}

impl Model for Counts {
    ghost use Rattle.std.specs.Prelude.{List, ℕ};

    ghost Value = { List (ℕ × ℕ) };

    ghost view = { λ c. c.by_asker.entries };
}

impl Counts {
    // Nobody asked.
    fn nothing(alloc: Global) -> Counts
        ensures { result ≡ [] }
    {
        Counts {
            by_asker: IndexMap::new(alloc),
        }
    }

    // How many a statement asked for.
    fn of(&self, asker: u32) -> usize
        ensures { result ≡ count_in self.now asker }
    {
        self.by_asker.get(&asker).copied().unwrap_or(0)
    }

    // A statement asked for so many.
    fn put(&mut self, asker: u32, count: usize) -> Result<(), Memory>
        ensures { OnOk result ((a : ℕ) → count_in self.new a ≡ (if asker == a then count else count_in self.old a)) }
    {
        self.by_asker.insert(asker, count)?;
        Ok(())
    }

    // Nobody asked for what stands there now.
    fn clear(&mut self)
        ensures { self.new ≡ [] }
    {
        self.by_asker.clear();
    }
}

/// How many of the statements at a location a statement asked for.
pub(crate) fn count_of(counts: &IndexMap<Location, Counts>, at: &Location, asker: u32) -> usize
    ensures { result ≡ count_at counts.now.entries at.now asker }
{
    match counts.get(at) {
        Some(here) => here.of(asker),
        None => 0,
    }
}

// It is noted how many statements at a location the first one asked for.
fn put_first(
    alloc: Global,
    counts: &mut IndexMap<Location, Counts>,
    at: Location,
    asker: u32,
    count: usize,
) -> Result<(), Memory>
    ensures { OnOk result ((l : OneLocation) (a : ℕ) → count_at counts.new.entries l a
        ≡ (if locations.eq at l then (if asker == a then count else 0) else count_at counts.old.entries l a)) }
{
    let mut first = Counts::nothing(alloc);
    first.put(asker, count)?;
    counts.insert(at, first)?;
    Ok(())
}

/// It is noted how many of the statements at a location a statement asked for.
pub(crate) fn note_count(
    alloc: Global,
    counts: &mut IndexMap<Location, Counts>,
    at: Location,
    asker: u32,
    count: usize,
) -> Result<(), Memory>
    ensures { OnOk result ((l : OneLocation) (a : ℕ) → count_at counts.new.entries l a
        ≡ (if locations.eq at l && (asker == a) then count else count_at counts.old.entries l a)) }
{
    match counts.get_mut(&at) {
        Some(here) => here.put(asker, count),
        None => put_first(alloc, counts, at, asker, count),
    }
}

// Nobody asked for what stands at a location now.
fn forget_one(counts: &mut IndexMap<Location, Counts>, at: Location)
    ensures { (l : OneLocation) (a : ℕ) → count_at counts.new.entries l a ≡ (if locations.eq at l then 0 else count_at counts.old.entries l a) }
{
    if let Some(here) = counts.get_mut(&at) {
        here.clear();
    }
}

// Nobody asked for what an access sets.
fn forget_set(counts: &mut IndexMap<Location, Counts>, access: &Access)
    ensures { (l : OneLocation) (a : ℕ) → count_at counts.new.entries l a ≡ (if sets_one l access.now then 0 else count_at counts.old.entries l a) }
{
    match access {
        Access::Set(at, _) => forget_one(counts, *at),
        Access::Read(_) | Access::Update(..) => {}
    }
}

/// Nobody asked for what accesses set.
pub(crate) fn forget(counts: &mut IndexMap<Location, Counts>, accesses: &[Access])
    ensures { (l : OneLocation) (a : ℕ) → count_at counts.new.entries l a ≡ (if sets_in l accesses.now then 0 else count_at counts.old.entries l a) }
{
    for access in accesses {
        forget_set(counts, access);
    }
}
