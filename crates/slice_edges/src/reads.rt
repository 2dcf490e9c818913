// Which statements the reads of a row ask for, and why.
ghost use Rattle.std.specs.Prelude.{◌≡◌, ◌≤◌, ◌==◌, ◌&&◌, ◌||◌, ℕ, List, drop, length, map, OnOk};
ghost use Rattle.py_tree.specs.Erasure.{script_of};
ghost use Rattle.py_tree.specs.Numbering.{IsNumbered};
ghost use Rattle.py_value.specs.declared.access.Location.{Location as OneLocation};
ghost use Rattle.slice_law.specs.Closed.{has};
ghost use Rattle.slice_law.specs.Edges.{Reason, by_data, by_name};
ghost use Rattle.slice_edges.specs.Asks.{among_by, is_by};
ghost use Rattle.slice_edges.specs.Binder.{AreBinders};
ghost use Rattle.slice_edges.specs.Counts.{AreCounted, IsRight};
ghost use Rattle.slice_edges.specs.Reading.{local_name as local_name_of, binder_for, stmts_or, read_stmts, is_read, owner_reads};
ghost use Rattle.slice_edges.specs.Writers.{found_at, noted_at};

use crate::ask::{ask_each, ask_for};
use crate::binder::{Local, binder_of};
use crate::counts::{Counts, count_of, note_count};
use crate::memo::Memo;
use crate::stmts::Stmts;
use crate::{Ask, Why};
use indexmap::{IndexMap, IndexSet};
use prov_base::Memory;
use py_tree::Script;
use py_value::{Access, Location};
use std::alloc::Global;

// Of no more statements than these it is not noted who asked for them.
const FEW: usize = 8;

// The number of a local name.
fn local_name(at: Location) -> Option<u32>
    ensures { result ≡ local_name_of at }
{
    match at {
        Location::Var(scope, name) => if scope == 0 { None } else { Some(name) },
        Location::Len(_)
        | Location::Item(..)
        | Location::Entry(..)
        | Location::Order(_)
        | Location::File(_)
        | Location::Offset(_)
        | Location::Closed(_)
        | Location::Method(..)
        | Location::Base(_) => None,
    }
}

// The first statement that binds a local name is asked for.
fn ask_binder(
    asks: &mut IndexSet<Ask>,
    binders: &mut IndexMap<Local, Option<u32>>,
    script: &Script,
    names: &[&str],
    asker: u32,
    name: Option<u32>,
) -> Result<(), Memory>
    requires { IsNumbered (script_of script.now) }
    ensures asked { OnOk result (AreBinders (script_of script.now) (map (λ k. k.now) names.now) binders.old.entries → (reason : Reason) (s r : ℕ) → among_by asks.new.keys reason s r
        ≡ ((is_by by_name asker reason s && has r (binder_for (script_of script.now) (map (λ k. k.now) names.now) asker name)) || among_by asks.old.keys reason s r)) }
    ensures kept { OnOk result (AreBinders (script_of script.now) (map (λ k. k.now) names.now) binders.old.entries
        → AreBinders (script_of script.now) (map (λ k. k.now) names.now) binders.new.entries) }
{
    let Some(name) = name else {
        return Ok(());
    };
    let binder = binder_of(binders, script, names, asker, name)?;
    ask_for(asks, Why::Name, asker, binder)
}

// The numbers behind the first so many.
fn behind(numbers: &[u32], count: usize) -> &[u32]
    ensures { count ≤ length numbers.now → result.now ≡ drop count numbers.now }
{
    if count <= numbers.len() {
        numbers.split_at(count).1
    } else {
        numbers
    }
}

// The statements that are noted at a location are asked for, but for those that the asker asked for there before.
fn ask_noted(
    alloc: Global,
    asks: &mut IndexSet<Ask>,
    counts: &mut IndexMap<Location, Counts>,
    asker: u32,
    at: Location,
    stmts: &[u32],
) -> Result<(), Memory>
    ensures asked { OnOk result ((entries : List (OneLocation × List ℕ)) → AreCounted asks.old.keys entries counts.old.entries → noted_at entries at ≡ stmts.now
        → (reason : Reason) (s r : ℕ) → among_by asks.new.keys reason s r ≡ ((is_by by_data asker reason s && has r stmts.now) || among_by asks.old.keys reason s r)) }
    ensures kept { OnOk result ((entries : List (OneLocation × List ℕ)) → AreCounted asks.old.keys entries counts.old.entries → noted_at entries at ≡ stmts.now
        → AreCounted asks.new.keys entries counts.new.entries) }
{
    if stmts.len() <= FEW {
        return ask_each(asks, Why::Data, asker, stmts);
    }
    ask_each(
        asks,
        Why::Data,
        asker,
        behind(stmts, count_of(counts, &at, asker)),
    )?;
    note_count(alloc, counts, at, asker, stmts.len())
}

// The statements that a read of a location asks for: those that are noted there; where nothing is, the one that binds its name.
fn ask_location(
    alloc: Global,
    asks: &mut IndexSet<Ask>,
    memo: &mut Memo,
    script: &Script,
    names: &[&str],
    writers: &IndexMap<Location, Stmts>,
    asker: u32,
    at: &Location,
) -> Result<(), Memory>
    requires { IsNumbered (script_of script.now) }
    ensures asked { OnOk result (IsRight (script_of script.now) (map (λ k. k.now) names.now) asks.old.keys writers.now.entries memo.old → (reason : Reason) (s r : ℕ) → among_by asks.new.keys reason s r
        ≡ (((asker == s) && has r (stmts_or (script_of script.now) (map (λ k. k.now) names.now) asker reason at.now (found_at writers.now.entries at.now))) || among_by asks.old.keys reason s r)) }
    ensures kept { OnOk result (IsRight (script_of script.now) (map (λ k. k.now) names.now) asks.old.keys writers.now.entries memo.old
        → IsRight (script_of script.now) (map (λ k. k.now) names.now) asks.new.keys writers.now.entries memo.new) }
{
    match writers.get(at) {
        Some(stmts) => ask_noted(alloc, asks, &mut memo.counts, asker, *at, stmts.as_slice()),
        None => ask_binder(
            asks,
            &mut memo.binders,
            script,
            names,
            asker,
            local_name(*at),
        ),
    }
}

// The statements that an access asks for.
fn ask_access(
    alloc: Global,
    asks: &mut IndexSet<Ask>,
    memo: &mut Memo,
    script: &Script,
    names: &[&str],
    writers: &IndexMap<Location, Stmts>,
    asker: u32,
    access: &Access,
) -> Result<(), Memory>
    requires { IsNumbered (script_of script.now) }
    ensures asked { OnOk result (IsRight (script_of script.now) (map (λ k. k.now) names.now) asks.old.keys writers.now.entries memo.old → (reason : Reason) (s r : ℕ) → among_by asks.new.keys reason s r
        ≡ (((asker == s) && has r (read_stmts (script_of script.now) (map (λ k. k.now) names.now) asker writers.now.entries reason access.now)) || among_by asks.old.keys reason s r)) }
    ensures kept { OnOk result (IsRight (script_of script.now) (map (λ k. k.now) names.now) asks.old.keys writers.now.entries memo.old
        → IsRight (script_of script.now) (map (λ k. k.now) names.now) asks.new.keys writers.now.entries memo.new) }
{
    match access {
        Access::Read(at) => ask_location(alloc, asks, memo, script, names, writers, asker, at),
        Access::Set(..) | Access::Update(..) => Ok(()),
    }
}

/// The statements that the reads among accesses ask for.
pub(crate) fn ask_reads(
    alloc: Global,
    asks: &mut IndexSet<Ask>,
    memo: &mut Memo,
    script: &Script,
    names: &[&str],
    writers: &IndexMap<Location, Stmts>,
    asker: u32,
    accesses: &[Access],
) -> Result<(), Memory>
    requires { IsNumbered (script_of script.now) }
    ensures asked { OnOk result (IsRight (script_of script.now) (map (λ k. k.now) names.now) asks.old.keys writers.now.entries memo.old → (reason : Reason) (s r : ℕ) → among_by asks.new.keys reason s r
        ≡ (((asker == s) && is_read (script_of script.now) (map (λ k. k.now) names.now) asker writers.now.entries reason r accesses.now) || among_by asks.old.keys reason s r)) }
    ensures kept { OnOk result (IsRight (script_of script.now) (map (λ k. k.now) names.now) asks.old.keys writers.now.entries memo.old
        → IsRight (script_of script.now) (map (λ k. k.now) names.now) asks.new.keys writers.now.entries memo.new) }
{
    for access in accesses {
        ask_access(alloc, asks, memo, script, names, writers, asker, access)?;
    }
    Ok(())
}

/// The statements that the owner of a row asks for by its reads, if it has an owner.
pub(crate) fn ask_owner(
    alloc: Global,
    asks: &mut IndexSet<Ask>,
    memo: &mut Memo,
    script: &Script,
    names: &[&str],
    writers: &IndexMap<Location, Stmts>,
    owner: Option<u32>,
    accesses: &[Access],
) -> Result<(), Memory>
    requires { IsNumbered (script_of script.now) }
    ensures asked { OnOk result (IsRight (script_of script.now) (map (λ k. k.now) names.now) asks.old.keys writers.now.entries memo.old → (reason : Reason) (s r : ℕ) → among_by asks.new.keys reason s r
        ≡ (owner_reads (script_of script.now) (map (λ k. k.now) names.now) writers.now.entries owner accesses.now reason s r || among_by asks.old.keys reason s r)) }
    ensures kept { OnOk result (IsRight (script_of script.now) (map (λ k. k.now) names.now) asks.old.keys writers.now.entries memo.old
        → IsRight (script_of script.now) (map (λ k. k.now) names.now) asks.new.keys writers.now.entries memo.new) }
{
    match owner {
        Some(asker) => ask_reads(alloc, asks, memo, script, names, writers, asker, accesses),
        None => Ok(()),
    }
}
