// The operations that were done in the open statements.
ghost use Rattle.std.specs.Prelude.{◌≡◌, ◌∷◌, [], List, IfOk, OnOk};
ghost use Rattle.std.specs.Option.{option_copied};
ghost use Rattle.value_links.specs.declared.link.Link.{Link as OneLink};
ghost use Rattle.value_links.specs.DoneMap.{IsDone};
ghost use Rattle.value_links.specs.Taken.{Done, taken_by_links};
ghost use Rattle.feedings.specs.Noted.{AreDone, closed, first, first_done, rest, taken_by_return, with_first};
ghost use Rattle.value_links.specs.Takings.{IsTaking};

use indexmap::IndexMap;
use prov_base::{Memory, Pos};
use std::alloc::Global;
use std::marker::Model;
use value_links::{A_RETURN, Point, Taking};

/// When an operation was done last at each point.
#[derive(Drop)]
pub(crate) struct LastDone {
    times: IndexMap<Point, usize>,
}

impl Model for LastDone {
    ghost use Rattle.std.specs.Prelude.{List, ℕ};
    ghost use Rattle.value_links.specs.declared.link.Point.{Point};

    ghost Value = { List (Point × ℕ) };

    ghost view = { λ d. d.times.entries };
}

impl LastDone {
    // Nothing was done.
    fn nothing(alloc: Global) -> LastDone
        ensures { result ≡ [] }
    {
        LastDone {
            times: IndexMap::new(alloc),
        }
    }

    // An operation is done.
    fn note(&mut self, point: Point, time: usize) -> Result<(), Memory>
        ensures { OnOk result ((done : List Done) → IsDone self.old done → IsDone self.new (record { point = point; time = time } ∷ done)) }
    {
        self.times.insert(point, time)?;
        Ok(())
    }

    // What an operation takes.
    fn taken(
        &self,
        alloc: Global,
        taking: &Taking,
        to: Point,
        count: usize,
    ) -> Result<Vec<usize>, Memory>
        ensures { (links : List OneLink) (done : List Done) → IsTaking links taking.now → IsDone self.now done → IfOk result (λ times. times.items ≡ taken_by_links to count done links) }
    {
        taking.taken(alloc, to, count, &self.times)
    }
}

/// What was done in the open statements, the innermost last. Contracts see it innermost first.
#[derive(Drop)]
pub(crate) struct Dones {
    list: Vec<LastDone>,
}

impl Model for Dones {
    ghost use Rattle.std.specs.Prelude.{List, ℕ, reverse};
    ghost use Rattle.value_links.specs.declared.link.Point.{Point};

    ghost Value = { List (List (Point × ℕ)) };

    ghost view = { λ d. reverse d.list.items };
}

impl Dones {
    /// No statement is open.
    pub(crate) fn new(alloc: Global) -> Dones
        ensures { result ≡ [] }
    {
        Dones {
            list: Vec::new(alloc),
        }
    }

    // A statement is open, with what was done in it.
    fn put(&mut self, done: LastDone) -> Result<(), Memory>
        ensures { OnOk result (self.new ≡ done ∷ self.old) }
    {
        self.list.push(done)?;
        Ok(())
    }

    /// A statement begins: nothing was done in it.
    pub(crate) fn open(&mut self, alloc: Global) -> Result<(), Memory>
        ensures { OnOk result (self.new ≡ [] ∷ self.old) }
    {
        self.put(LastDone::nothing(alloc))
    }

    // What was done in the innermost statement is taken out.
    fn take(&mut self) -> Option<LastDone>
        ensures taken { result ≡ first self.old }
        ensures left { self.new ≡ rest self.old }
    {
        self.list.pop()
    }

    /// A statement ends, or an activation is left, in which nothing is done.
    pub(crate) fn close(&mut self, stmt: Option<u32>)
        ensures { self.new ≡ closed stmt self.old }
    {
        if stmt.is_some() {
            self.take();
        }
    }

    /// An operation is done in the innermost statement.
    pub(crate) fn note(&mut self, point: Point, time: usize) -> Result<(), Memory>
        ensures { OnOk result ((dones : List (List Done)) → AreDone self.old dones → AreDone self.new (with_first (record { point = point; time = time }) dones)) }
    {
        match self.take() {
            Some(mut done) => {
                done.note(point, time)?;
                self.put(done)
            }
            None => Ok(()),
        }
    }

    // What was done in the innermost statement.
    fn innermost(&self) -> Option<&LastDone>
        ensures { option_copied result ≡ first self.now }
    {
        self.list.last()
    }

    /// What an operation in the innermost statement takes.
    pub(crate) fn taken(
        &self,
        alloc: Global,
        taking: &Taking,
        to: Point,
        count: usize,
    ) -> Result<Vec<usize>, Memory>
        ensures { (links : List OneLink) (dones : List (List Done)) → IsTaking links taking.now → AreDone self.now dones → IfOk result (λ times. times.items ≡ taken_by_links to count (first_done dones) links) }
    {
        match self.innermost() {
            Some(done) => done.taken(alloc, taking, to, count),
            None => Ok(Vec::new(alloc)),
        }
    }

    /// What a `return` in the innermost statement takes, if its place is known.
    pub(crate) fn taken_by_return(
        &self,
        alloc: Global,
        taking: &Taking,
        at: Option<Pos>,
    ) -> Result<Vec<usize>, Memory>
        ensures { (links : List OneLink) (dones : List (List Done)) → IsTaking links taking.now → AreDone self.now dones → IfOk result (λ times. times.items ≡ taken_by_return at (first_done dones) links) }
    {
        match at {
            Some(at) => self.taken(alloc, taking, Point { at, kind: A_RETURN }, 0),
            None => Ok(Vec::new(alloc)),
        }
    }
}
