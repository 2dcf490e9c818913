// Which statements wrote what stands at each location.
ghost use Rattle.std.specs.Prelude.{◌≡◌, OnOk};
ghost use Rattle.py_value.specs.declared.access.Location.{Location as OneLocation};
ghost use Rattle.py_value.specs.contracts.access.LocationPartialEq.TheImpl.{ghosts as locations};
ghost use Rattle.slice_edges.specs.Writers.{found_at, noted_at, after_set, after_change, sets_one, updates_one, sets_in, updates_in};

use crate::stmts::Stmts;
use indexmap::IndexMap;
use prov_base::Memory;
use py_value::{Access, Location};
use std::alloc::Global;

/// The statements at a location.
pub(crate) fn writers_at<'a>(writers: &'a IndexMap<Location, Stmts>, at: &Location) -> &'a [u32]
    ensures { result.now ≡ noted_at writers.now.entries at.now }
{
    match writers.get(at) {
        Some(stmts) => stmts.as_slice(),
        None => &[],
    }
}

// One statement alone, or none, is noted at a location.
fn put_one(
    alloc: Global,
    writers: &mut IndexMap<Location, Stmts>,
    at: Location,
    stmt: Option<u32>,
) -> Result<(), Memory>
    ensures { OnOk result ((l : OneLocation) → found_at writers.new.entries l ≡ after_set (locations.eq at l) stmt (found_at writers.old.entries l)) }
{
    writers.insert(at, Stmts::only(alloc, stmt)?)?;
    Ok(())
}

// What stands at a location is set: the statement that does it alone is noted there, or none.
fn set_one(
    alloc: Global,
    writers: &mut IndexMap<Location, Stmts>,
    at: Location,
    stmt: Option<u32>,
) -> Result<(), Memory>
    ensures { OnOk result ((l : OneLocation) → found_at writers.new.entries l ≡ after_set (locations.eq at l) stmt (found_at writers.old.entries l)) }
{
    match writers.get_mut(&at) {
        Some(stmts) => stmts.set_only(stmt),
        None => put_one(alloc, writers, at, stmt),
    }
}

// What stands at a location is changed: the statement that does it, if there is one, is noted there with the others.
fn update_one(
    alloc: Global,
    writers: &mut IndexMap<Location, Stmts>,
    at: Location,
    stmt: Option<u32>,
) -> Result<(), Memory>
    ensures { OnOk result ((l : OneLocation) → found_at writers.new.entries l ≡ after_change (locations.eq at l) stmt (found_at writers.old.entries l)) }
{
    match writers.get_mut(&at) {
        Some(stmts) => stmts.add(alloc, stmt),
        None => put_one(alloc, writers, at, stmt),
    }
}

// What an access sets is set.
fn set_access(
    alloc: Global,
    writers: &mut IndexMap<Location, Stmts>,
    access: &Access,
    stmt: Option<u32>,
) -> Result<(), Memory>
    ensures { OnOk result ((l : OneLocation) → found_at writers.new.entries l ≡ after_set (sets_one l access.now) stmt (found_at writers.old.entries l)) }
{
    match access {
        Access::Set(at, _) => set_one(alloc, writers, *at, stmt),
        Access::Read(_) | Access::Update(..) => Ok(()),
    }
}

// What an access changes is changed.
fn update_access(
    alloc: Global,
    writers: &mut IndexMap<Location, Stmts>,
    access: &Access,
    stmt: Option<u32>,
) -> Result<(), Memory>
    ensures { OnOk result ((l : OneLocation) → found_at writers.new.entries l ≡ after_change (updates_one l access.now) stmt (found_at writers.old.entries l)) }
{
    match access {
        Access::Update(at, _) => update_one(alloc, writers, *at, stmt),
        Access::Read(_) | Access::Set(..) => Ok(()),
    }
}

// Each location that the accesses set is set.
fn set_each(
    alloc: Global,
    writers: &mut IndexMap<Location, Stmts>,
    accesses: &[Access],
    stmt: Option<u32>,
) -> Result<(), Memory>
    ensures { OnOk result ((l : OneLocation) → found_at writers.new.entries l ≡ after_set (sets_in l accesses.now) stmt (found_at writers.old.entries l)) }
{
    for access in accesses {
        set_access(alloc, writers, access, stmt)?;
    }
    Ok(())
}

// Each location that the accesses change is changed.
fn update_each(
    alloc: Global,
    writers: &mut IndexMap<Location, Stmts>,
    accesses: &[Access],
    stmt: Option<u32>,
) -> Result<(), Memory>
    ensures { OnOk result ((l : OneLocation) → found_at writers.new.entries l ≡ after_change (updates_in l accesses.now) stmt (found_at writers.old.entries l)) }
{
    for access in accesses {
        update_access(alloc, writers, access, stmt)?;
    }
    Ok(())
}

/// What accesses write is noted: what they set has the statement alone, and what they change has it with the others. Where there is no
/// statement, it is noted that something was written.
pub(crate) fn note(
    alloc: Global,
    writers: &mut IndexMap<Location, Stmts>,
    accesses: &[Access],
    stmt: Option<u32>,
) -> Result<(), Memory>
    ensures { OnOk result ((l : OneLocation) → found_at writers.new.entries l
        ≡ after_change (updates_in l accesses.now) stmt (after_set (sets_in l accesses.now) stmt (found_at writers.old.entries l))) }
{
    set_each(alloc, writers, accesses, stmt)?;
    update_each(alloc, writers, accesses, stmt)
}
