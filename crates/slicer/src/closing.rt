// The least set of statements that is closed along pairs.
ghost use Rattle.std.specs.Prelude.{◌≡◌, ◌<◌, ◌==◌, ◌∷◌, ◌++◌, ℕ, Bool, true, [], length, IfOk, OnOk, if◌then◌else◌};
ghost use Rattle.py_tree.specs.StmtSet.{has};
ghost use Rattle.slicer.specs.Along.{AllIn, IsClosedAlong, IsLeastAlong, AreBelow, ArePairsBelow};
ghost use Rattle.slicer.specs.Following.{asked_by, group_at, HasGrown};

use prov_base::Memory;
use py_tree::StmtSet;
use std::alloc::Global;
use std::marker::Model;

/// What one statement asks for.
#[derive(Drop)]
struct Asked {
    numbers: Vec<u32>,
}

impl Model for Asked {
    ghost use Rattle.std.specs.Prelude.{List, ℕ};

    ghost Value = { List ℕ };

    ghost view = { λ a. a.numbers.items };
}

impl Asked {
    // Nothing.
    fn nothing(alloc: Global) -> Asked
        ensures { result ≡ [] }
    {
        Asked {
            numbers: Vec::new(alloc),
        }
    }

    // One statement more.
    fn add(&mut self, s: u32) -> Result<(), Memory>
        ensures { OnOk result (self.new ≡ self.old ++ s ∷ []) }
    {
        self.numbers.push(s)?;
        Ok(())
    }

    // The statements.
    fn as_slice(&self) -> &[u32]
        ensures { result.now ≡ self.now }
    {
        self.numbers.as_slice()
    }
}

// Nothing for each of so many statements.
fn no_groups(alloc: Global, count: u32) -> Result<Vec<Asked>, Memory>
    ensures many { IfOk result (λ groups. length groups.items ≡ count) }
    ensures each { IfOk result (λ groups. (s : ℕ) → group_at groups.items s ≡ []) }
{
    let mut groups = Vec::new(alloc);
    'fill: for _ in 0..count {
        groups.push(Asked::nothing(alloc))?;
    }
    Ok(groups)
}

// A statement asks for one more.
fn put(groups: &mut Vec<Asked>, asker: u32, asked: u32) -> Result<(), Memory>
    requires { asker < length groups.old.items }
    ensures many { OnOk result (length groups.new.items ≡ length groups.old.items) }
    ensures each { OnOk result ((s : ℕ) → group_at groups.new.items s ≡ (if asker == s then group_at groups.old.items s ++ asked ∷ [] else group_at groups.old.items s)) }
{
    let group = &mut groups[asker as usize];
    group.add(asked)
}

// What each statement asks for, together.
fn grouped(alloc: Global, count: u32, pairs: &[(u32, u32)]) -> Result<Vec<Asked>, Memory>
    requires { ArePairsBelow count pairs.now }
    ensures { IfOk result (λ groups. (s : ℕ) → group_at groups.items s ≡ asked_by pairs.now s) }
{
    let mut groups = no_groups(alloc, count)?;
    for pair in pairs {
        put(&mut groups, pair.0, pair.1)?;
    }
    Ok(groups)
}

// What a statement asks for.
fn asked_of(groups: &[Asked], s: u32) -> &[u32]
    ensures { result.now ≡ group_at groups.now s }
{
    match groups.get(s as usize) {
        Some(group) => group.as_slice(),
        None => &[],
    }
}

// Puts a statement into the set. Where it is new there, it is found.
fn reach(keep: &mut StmtSet, found: &mut Vec<u32>, s: u32) -> Result<(), Memory>
    requires { s < length keep.old }
    ensures grown { OnOk result (HasGrown keep.old found.old.items keep.new found.new.items) }
    ensures there { OnOk result (has keep.new s ≡ true) }
    ensures inside { OnOk result ((other : ℕ → Bool) → ((i : ℕ) → has keep.old i ≡ true → other i ≡ true) → other s ≡ true
        → (i : ℕ) → has keep.new i ≡ true → other i ≡ true) }
{
    if keep.add(s) {
        found.push(s)?;
    }
    Ok(())
}

// Puts statements into the set. Those that are new there are found, in order.
fn reach_all(keep: &mut StmtSet, found: &mut Vec<u32>, numbers: &[u32]) -> Result<(), Memory>
    requires { AreBelow (length keep.old) numbers.now }
    ensures grown { OnOk result (HasGrown keep.old found.old.items keep.new found.new.items) }
    ensures there { OnOk result (AllIn (has keep.new) numbers.now) }
    ensures inside { OnOk result ((other : ℕ → Bool) → ((i : ℕ) → has keep.old i ≡ true → other i ≡ true) → AllIn other numbers.now
        → (i : ℕ) → has keep.new i ≡ true → other i ≡ true) }
{
    for s in numbers {
        reach(keep, found, *s)?;
    }
    Ok(())
}

/// The least set of statements that has the roots and, with each asker of a pair, what it asks for. The script has `count` statements.
/// Each statement of the set is followed once.
pub fn close(
    alloc: Global,
    count: u32,
    pairs: &[(u32, u32)],
    roots: &[u32],
) -> Result<StmtSet, Memory>
    requires pairs { ArePairsBelow count pairs.now }
    requires roots { AreBelow count roots.now }
    ensures bound { IfOk result (λ keep. length keep ≡ count) }
    ensures least { IfOk result (λ keep. IsLeastAlong pairs.now roots.now (has keep)) }
{
    let groups = grouped(alloc, count, pairs)?;
    let mut keep = StmtSet::new(alloc, count)?;
    let mut found = Vec::new(alloc);
    reach_all(&mut keep, &mut found, roots)?;
    let mut next = 0;
    while next < found.len() {
        let s = found[next];
        next += 1;
        reach_all(&mut keep, &mut found, asked_of(groups.as_slice(), s))?;
    }
    Ok(keep)
}
