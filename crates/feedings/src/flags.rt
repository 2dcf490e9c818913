// Flags of locations, and what accesses do to them.
ghost use Rattle.std.specs.Prelude.{◌≡◌, ◌||◌, OnOk, if◌then◌else◌};
ghost use Rattle.std.specs.Option.{option_map};
ghost use Rattle.py_value.specs.declared.access.Location.{Location as OneLocation};
ghost use Rattle.py_value.specs.contracts.access.LocationPartialEq.TheImpl.{ghosts as locations};
ghost use Rattle.feedings.specs.Marks.{flag_at, accesses_in, reads_one, reads_some, writes_one, writes_some, after_access, after_all, reads_in};

use indexmap::IndexMap;
use prov_base::Memory;
use py_value::{Access, Location};
use trace_rows::Row;

/// The accesses of the moment that a row tells, if it tells one.
pub(crate) fn accesses_of(row: &Row) -> Option<&[Access]>
    ensures { option_map (λ a. a.now) result ≡ accesses_in row.now }
{
    match row {
        Row::Do(_, _, _, _, _, accesses, _) => Some(accesses.as_slice()),
        Row::Enter(_, _, _, accesses) => Some(accesses.as_slice()),
        Row::Begin(_) | Row::Leave(_) | Row::End(_) => Some(&[]),
        Row::Text(_) | Row::Tuple(_) => None,
    }
}

// The flag of a location.
fn flag_of(flags: &IndexMap<Location, bool>, at: &Location) -> bool
    ensures { result ≡ flag_at flags.now.entries at.now }
{
    flags.get(at).copied().unwrap_or(false)
}

// A location gets a flag.
fn put_flag(flags: &mut IndexMap<Location, bool>, at: Location, flag: bool) -> Result<(), Memory>
    ensures { OnOk result ((l : OneLocation) → flag_at flags.new.entries l ≡ (if locations.eq at l then flag else flag_at flags.old.entries l)) }
{
    flags.insert(at, flag)?;
    Ok(())
}

// A flag is added at a location.
fn add_flag(flags: &mut IndexMap<Location, bool>, at: Location, flag: bool) -> Result<(), Memory>
    ensures { OnOk result ((l : OneLocation) → flag_at flags.new.entries l ≡ (if locations.eq at l then flag || flag_at flags.old.entries l else flag_at flags.old.entries l)) }
{
    if flag {
        return put_flag(flags, at, true);
    }
    Ok(())
}

// What an access sets gets a flag, and to what it changes the flag is added.
fn note_one(flags: &mut IndexMap<Location, bool>, access: &Access, flag: bool) -> Result<(), Memory>
    ensures { OnOk result ((l : OneLocation) → flag_at flags.new.entries l ≡ after_access flag l access.now (flag_at flags.old.entries l)) }
{
    match access {
        Access::Set(at, _) => put_flag(flags, *at, flag),
        Access::Update(at, _) => add_flag(flags, *at, flag),
        Access::Read(_) => Ok(()),
    }
}

/// What accesses set gets a flag, and to what they change the flag is added.
pub(crate) fn note_all(
    flags: &mut IndexMap<Location, bool>,
    accesses: &[Access],
    flag: bool,
) -> Result<(), Memory>
    ensures { OnOk result ((l : OneLocation) → flag_at flags.new.entries l ≡ after_all flag l accesses.now (flag_at flags.old.entries l)) }
{
    for access in accesses {
        note_one(flags, access, flag)?;
    }
    Ok(())
}

// What an access reads gets the flag.
fn demand_one(flags: &mut IndexMap<Location, bool>, access: &Access) -> Result<(), Memory>
    ensures { OnOk result ((l : OneLocation) → flag_at flags.new.entries l ≡ (reads_one (λ m. locations.eq m l) access.now || flag_at flags.old.entries l)) }
{
    match access {
        Access::Read(at) => put_flag(flags, *at, true),
        Access::Set(..) | Access::Update(..) => Ok(()),
    }
}

/// What accesses read gets the flag.
pub(crate) fn demand_all(
    flags: &mut IndexMap<Location, bool>,
    accesses: &[Access],
) -> Result<(), Memory>
    ensures { OnOk result ((l : OneLocation) → flag_at flags.new.entries l ≡ (reads_in l accesses.now || flag_at flags.old.entries l)) }
{
    for access in accesses {
        demand_one(flags, access)?;
    }
    Ok(())
}

// Whether an access reads a location with a flag.
fn one_read(flags: &IndexMap<Location, bool>, access: &Access) -> bool
    ensures { result ≡ reads_one (flag_at flags.now.entries) access.now }
{
    match access {
        Access::Read(at) => flag_of(flags, at),
        Access::Set(..) | Access::Update(..) => false,
    }
}

/// Whether accesses read a location with a flag.
pub(crate) fn some_read(flags: &IndexMap<Location, bool>, accesses: &[Access]) -> bool
    ensures { result ≡ reads_some (flag_at flags.now.entries) accesses.now }
{
    for access in accesses {
        if one_read(flags, access) {
            return true;
        }
    }
    false
}

// Whether an access writes a location with a flag.
fn one_written(flags: &IndexMap<Location, bool>, access: &Access) -> bool
    ensures { result ≡ writes_one (flag_at flags.now.entries) access.now }
{
    match access {
        Access::Set(at, _) => flag_of(flags, at),
        Access::Update(at, _) => flag_of(flags, at),
        Access::Read(_) => false,
    }
}

/// Whether accesses write a location with a flag.
pub(crate) fn some_written(flags: &IndexMap<Location, bool>, accesses: &[Access]) -> bool
    ensures { result ≡ writes_some (flag_at flags.now.entries) accesses.now }
{
    for access in accesses {
        if one_written(flags, access) {
            return true;
        }
    }
    false
}
