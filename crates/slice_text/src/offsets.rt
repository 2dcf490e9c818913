// Sets of offsets in a text, and the two that the gaps of a cut make.
ghost use Rattle.std.specs.Prelude.{◌≡◌, ℕ, ◌<◌, ◌≤◌, ◌==◌, ◌||◌, ◌&&◌, nat_le, nat_lt, length, replicate, false, IfOk};
ghost use Rattle.py_tree.specs.StmtSet.{has};
ghost use Rattle.slice_text.specs.Cut.{is_filled, is_in};

use crate::gaps::Gap;
use prov_base::Memory;
use std::alloc::Global;
use std::marker::Model;

/// A set of offsets below a bound, seen as a list that tells of each whether it is in the set.
#[derive(Drop, Debug)]
pub(crate) struct Offsets {
    marks: Vec<bool>,
}

impl Model for Offsets {
    ghost use Rattle.std.specs.Prelude.{List, Bool};

    ghost Value = { List Bool };

    ghost view = { λ o. o.marks.items };
}

impl Offsets {
    /// None of the offsets below `count`.
    fn new(alloc: Global, count: usize) -> Result<Offsets, Memory>
        ensures { IfOk result (λ offsets. offsets ≡ replicate count false) }
    {
        Ok(Offsets {
            marks: vec![in alloc; false; count]?,
        })
    }

    /// Whether the offset is in the set.
    pub fn has(&self, at: usize) -> bool
        ensures { result ≡ has self.now at }
    {
        self.marks.get(at).copied().unwrap_or(false)
    }

    /// Puts the offset into the set, if it is below the bound.
    fn add(&mut self, at: usize)
        ensures bound { length self.new ≡ length self.old }
        ensures members { (i : ℕ) → i < length self.old → has self.new i ≡ (has self.old i || i == at) }
    {
        if at < self.marks.len() {
            self.marks[at] = true;
        }
    }

    /// Puts in the offsets from `from` up to and without `to`, as far as they are below the bound.
    fn add_span(&mut self, from: usize, to: usize)
        ensures bound { length self.new ≡ length self.old }
        ensures members { (i : ℕ) → i < length self.old → has self.new i ≡ (has self.old i || (nat_le from i && nat_lt i to)) }
    {
        let end = to.min(self.marks.len());
        for at in from..end {
            self.add(at);
        }
    }
}

/// The offsets below `count` of the bytes that are in a gap.
pub(crate) fn gone(alloc: Global, count: usize, gaps: &[Gap]) -> Result<Offsets, Memory>
    ensures { IfOk result (λ offsets. (i : ℕ) → i < count → has offsets i ≡ is_in gaps.now i) }
{
    let mut offsets = Offsets::new(alloc, count)?;
    for gap in gaps {
        offsets.add_span(gap.span.from as usize, gap.span.to as usize);
    }
    Ok(offsets)
}

/// The offsets below `count` where a gap begins that is filled.
pub(crate) fn filled(alloc: Global, count: usize, gaps: &[Gap]) -> Result<Offsets, Memory>
    ensures { IfOk result (λ offsets. (i : ℕ) → i < count → has offsets i ≡ is_filled gaps.now i) }
{
    let mut offsets = Offsets::new(alloc, count)?;
    for gap in gaps {
        if gap.filled {
            offsets.add(gap.span.from as usize);
        }
    }
    Ok(offsets)
}
