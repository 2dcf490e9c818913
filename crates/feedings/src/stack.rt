// What is open, with what was done and returned in each.
ghost use Rattle.std.specs.Prelude.{◌≡◌, ◌∷◌, [], List, Some, None, IfOk, OnOk};
ghost use Rattle.py_tree.specs.Places.{suite_starts};
ghost use Rattle.py_tree.specs.Tree.{ScriptTree};
ghost use Rattle.value_links.specs.declared.link.Link.{Link as OneLink};
ghost use Rattle.value_links.specs.Taken.{taken_by_links};
ghost use Rattle.feedings.specs.Feeding.{Notes, done_in, ended_by_return, fresh, top_returned, with_done, without_notes};
ghost use Rattle.value_links.specs.Links.{links};
ghost use Rattle.feedings.specs.Noted.{IsStack, place_by};
ghost use Rattle.value_links.specs.Takings.{IsTaking};

use crate::dones::Dones;
use crate::fed::Times;
use crate::frames::{Frame, Frames};
use prov_base::{Memory, Pos};
use std::alloc::Global;
use value_links::{Point, Taking};

// Where a statement stands.
fn place_at(places: &[Pos], stmt: Option<u32>) -> Option<Pos>
    ensures { result ≡ place_by places.now stmt }
{
    match stmt {
        Some(s) => places.get(s as usize).copied(),
        None => None,
    }
}

/// What is open: statements and activations, and apart from them what was done in the statements.
#[derive(Drop)]
pub(crate) struct Stack {
    frames: Frames,
    dones: Dones,
}

impl Stack {
    /// Nothing is open.
    pub(crate) fn new(alloc: Global) -> Stack
        ensures { IsStack result [] }
    {
        Stack {
            frames: Frames::new(alloc),
            dones: Dones::new(alloc),
        }
    }

    /// A statement begins.
    pub(crate) fn begin(&mut self, alloc: Global, stmt: u32) -> Result<(), Memory>
        ensures { (notes : List Notes) → IsStack self.old notes → OnOk result (IsStack self.new (fresh (Some stmt) ∷ notes)) }
    {
        self.frames.open(Frame {
            stmt: Some(stmt),
            returned: Times::of(Vec::new(alloc)),
        })?;
        self.dones.open(alloc)
    }

    /// An activation is entered.
    pub(crate) fn enter(&mut self, alloc: Global) -> Result<(), Memory>
        ensures { (notes : List Notes) → IsStack self.old notes → OnOk result (IsStack self.new (fresh None ∷ notes)) }
    {
        self.frames.open(Frame {
            stmt: None,
            returned: Times::of(Vec::new(alloc)),
        })
    }

    /// An operation is done.
    pub(crate) fn note(&mut self, point: Point, time: usize) -> Result<(), Memory>
        ensures { (notes : List Notes) → IsStack self.old notes → OnOk result (IsStack self.new (with_done (record { point = point; time = time }) notes)) }
    {
        self.dones.note(point, time)
    }

    /// What is innermost ends, other than by a `return`, or is left. It gives the times that were returned in it.
    pub(crate) fn close(&mut self, alloc: Global) -> Times
        ensures left { (notes : List Notes) → IsStack self.old notes → IsStack self.new (without_notes notes) }
        ensures returned { (notes : List Notes) → IsStack self.old notes → result ≡ top_returned notes }
    {
        match self.frames.close() {
            Some(frame) => {
                self.dones.close(frame.stmt);
                frame.returned
            }
            None => Times::of(Vec::new(alloc)),
        }
    }

    /// What is innermost ends by a `return`.
    pub(crate) fn end_by_return(
        &mut self,
        alloc: Global,
        taking: &Taking,
        places: &[Pos],
    ) -> Result<(), Memory>
        ensures { (script : ScriptTree) (notes : List Notes) → IsTaking (links script) taking.now → places.now ≡ suite_starts script.body
            → IsStack self.old notes → OnOk result (IsStack self.new (ended_by_return script notes)) }
    {
        let Some(frame) = self.frames.close() else {
            return Ok(());
        };
        let mut times = self
            .dones
            .taken_by_return(alloc, taking, place_at(places, frame.stmt))?;
        times.extend_from_slice(frame.returned.as_slice())?;
        self.dones.close(frame.stmt);
        self.frames.put_returned(Times::of(times))
    }

    /// What an operation takes.
    pub(crate) fn taken(
        &self,
        alloc: Global,
        taking: &Taking,
        to: Point,
        count: usize,
    ) -> Result<Vec<usize>, Memory>
        ensures { (links : List OneLink) (notes : List Notes) → IsTaking links taking.now → IsStack self.now notes → IfOk result (λ times. times.items ≡ taken_by_links to count (done_in notes) links) }
    {
        self.dones.taken(alloc, taking, to, count)
    }
}
