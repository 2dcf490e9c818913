// Statements by number, each once.
ghost use Rattle.std.specs.Prelude.{◌≡◌, ◌∷◌, ◌++◌, [], true, IfOk, OnOk};
ghost use Rattle.slice_law.specs.Closed.{has};
ghost use Rattle.slice_law.specs.Edges.{from_option};
ghost use Rattle.slice_edges.specs.Writers.{with_stmt, with_owner};

use crate::known::Known;
use prov_base::Memory;
use std::alloc::Global;
use std::marker::Model;

// A list of more numbers than these is not gone through again for a number that was found in it.
const FEW: usize = 8;

/// The numbers of statements, each once, in the order in which they came; and of those of a long list some that were found in it.
#[derive(Drop)]
pub(crate) struct Stmts {
    numbers: Vec<u32>,
    known: Known,
}

impl Model for Stmts {
    ghost use Rattle.std.specs.Prelude.{List, ℕ};
    ghost use Rattle.slice_edges.specs.Writers.{AreAmong};

    ghost Value = { List ℕ };

    ghost view = { λ s. s.numbers.items };

    ghost invariant = { λ s. AreAmong s.numbers.items s.known };
}

impl Stmts {
    /// This statement alone, or none.
    pub(crate) fn only(alloc: Global, stmt: Option<u32>) -> Result<Stmts, Memory>
        ensures { IfOk result (λ stmts. stmts ≡ from_option stmt) }
    {
        let mut numbers = Vec::new(alloc);
        if let Some(stmt) = stmt {
            numbers.push(stmt)?;
        }
        Ok(Stmts {
            numbers,
            known: Known::nothing(),
        })
    }

    /// Makes it this statement alone, or none.
    pub(crate) fn set_only(&mut self, stmt: Option<u32>) -> Result<(), Memory>
        ensures { OnOk result (self.new ≡ from_option stmt) }
    {
        self.known = Known::nothing();
        self.numbers.clear();
        if let Some(stmt) = stmt {
            self.numbers.push(stmt)?;
        }
        Ok(())
    }

    /// The statements.
    pub(crate) fn as_slice(&self) -> &[u32]
        ensures { result.now ≡ self.now }
    {
        self.numbers.as_slice()
    }

    // Whether it is one of these.
    fn contains(&self, stmt: u32) -> bool
        ensures { result ≡ has stmt self.now }
    {
        for number in self.numbers.as_slice() {
            if *number == stmt {
                return true;
            }
        }
        false
    }

    // A statement that is there was found.
    fn find(&mut self, alloc: Global, stmt: u32) -> Result<(), Memory>
        requires { has stmt self.old ≡ true }
        ensures { self.new ≡ self.old }
    {
        if self.numbers.len() > FEW {
            self.known.add(alloc, stmt)?;
        }
        Ok(())
    }

    // Puts a statement behind the others.
    fn push(&mut self, stmt: u32) -> Result<(), Memory>
        ensures { OnOk result (self.new ≡ self.old ++ stmt ∷ []) }
    {
        self.numbers.push(stmt)?;
        Ok(())
    }

    // Puts a statement behind the others, unless it is there.
    fn add_one(&mut self, alloc: Global, stmt: u32) -> Result<(), Memory>
        ensures { OnOk result (self.new ≡ with_stmt stmt self.old) }
    {
        if self.known.has(stmt) {
            return Ok(());
        }
        if self.contains(stmt) {
            return self.find(alloc, stmt);
        }
        self.push(stmt)
    }

    /// Puts a statement behind the others, unless there is none or it is there.
    pub(crate) fn add(&mut self, alloc: Global, stmt: Option<u32>) -> Result<(), Memory>
        ensures { OnOk result (self.new ≡ with_owner stmt self.old) }
    {
        match stmt {
            Some(stmt) => self.add_one(alloc, stmt),
            None => Ok(()),
        }
    }
}
