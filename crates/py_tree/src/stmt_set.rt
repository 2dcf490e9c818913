// Sets of statements.
ghost use Rattle.std.specs.Prelude.{◌≡◌, ℕ, ◌<◌, ◌==◌, ◌||◌, not, false, length, count_by, replicate, slice_set, true, IfOk};
ghost use Rattle.py_tree.specs.StmtSet.{has};

use prov_base::Memory;
use std::alloc::Global;
use std::marker::Model;

/// A set of statements of a script, by their numbers. It is made for so many statements, and the numbers that it may
/// have are those below: contracts see a list that tells of each whether it is in the set.
#[derive(Drop)]
pub struct StmtSet {
    marks: Vec<bool>,
}

impl Model for StmtSet {
    ghost use Rattle.std.specs.Prelude.{List, Bool, length, ◌<◌, ◌^◌};

    ghost Value = { List Bool };

    ghost view = { λ s. s.marks.items };

    ghost invariant = { λ s. length s.marks.items < 2 ^ 32 };
}

impl StmtSet {
    /// No statement of a script of `count` statements.
    pub fn new(alloc: Global, count: u32) -> Result<StmtSet, Memory>
        ensures { IfOk result (λ s. s ≡ replicate count false) }
    {
        Ok(StmtSet {
            marks: vec![in alloc; false; count as usize]?,
        })
    }

    /// For how many statements the set is made.
    pub fn bound(&self) -> u32
        ensures { result ≡ length self.now }
    {
        self.marks.len() as u32
    }

    /// Whether the statement is in the set.
    pub fn has(&self, s: u32) -> bool
        requires { s < length self.now }
        ensures { result ≡ has self.now s }
    {
        self.marks[s as usize]
    }

    /// Puts the statement into the set, and answers whether it is new there.
    pub fn add(&mut self, s: u32) -> bool
        requires { s < length self.old }
        ensures new { result ≡ not (has self.old s) }
        ensures added { self.new ≡ slice_set self.old s true }
        ensures members { (i : ℕ) → has self.new i ≡ (has self.old i || i == s) }
    {
        let is_new = !self.marks[s as usize];
        self.marks[s as usize] = true;
        is_new
    }

    /// How many statements are in the set.
    pub fn count(&self) -> u32
        ensures { result ≡ count_by (λ is_in. is_in) self.now }
    {
        self.marks.iter().filter(|is_in| **is_in).count() as u32
    }
}
