// A source over a capture that was kept.
ghost use Rattle.std.specs.Prelude.{◌≡◌, ℕ, [], OnOk, OnErr, if◌then◌else◌};
ghost use Rattle.answer_source.specs.Kept.{IsExactly, AreCounted};
ghost use Rattle.capture.specs.AnswersView.{noted_last};
ghost use Rattle.prov_base.specs.declared.place.Pos.{Pos as Place};
ghost use Rattle.prov_base.specs.contracts.place.PosPartialEq.TheImpl.{ghosts as places};

use crate::Source;
use capture::{Ask, Capture, Given};
use indexmap::IndexMap;
use prov_base::{Memory, Pos};
use prov_outside::Found;
use std::alloc::Global;

/// A capture that was kept, and the number of the last asking at each place in this run.
#[derive(Drop)]
pub struct Kept<'a> {
    capture: &'a Capture,
    last: IndexMap<Pos, u32>,
}

impl<'a> Kept<'a> {
    /// A source over a capture, of which nothing was asked yet. It takes no memory yet.
    pub fn new(alloc: Global, capture: &'a Capture) -> Kept<'a>
        ensures kept { result.capture.now ≡ capture.now }
        ensures begins { AreCounted result.last.entries [] }
    {
        Kept {
            capture,
            last: IndexMap::new(alloc),
        }
    }
}

// The number of the last asking at a place, or 0.
fn last_at(last: &IndexMap<Pos, u32>, at: Pos) -> u32
    ensures { result ≡ noted_last last.now.entries at }
{
    last.get(&at).copied().unwrap_or(0)
}

// Notes the number of an asking at a place.
fn note_asked(last: &mut IndexMap<Pos, u32>, at: Pos, k: u32) -> Result<(), Memory>
    ensures noted { OnOk result ((place : Place) → noted_last last.new.entries place ≡ (if places.eq at place then k else noted_last last.old.entries place)) }
    ensures err { OnErr result (last.new.entries ≡ last.old.entries) }
{
    last.insert(at, k)?;
    Ok(())
}

impl<'a> Source for Kept<'a> {
    ghost fits = { λ s held. IsExactly s.capture.now held };

    ghost stands = { λ s askings fetches. AreCounted s.last.entries askings };

    fn some_fits(&self) {}

    fn paths_once(&self) {
        let _ = self.capture.files();
    }

    fn ask(&mut self, alloc: Global, what: Ask, at: Pos) -> Result<Option<Given>, Memory> {
        let Some(k) = last_at(&self.last, at).checked_add(1) else {
            return Err(Memory);
        };
        let _ = self.capture.answers();
        note_asked(&mut self.last, at, k)?;
        self.capture.copy_kept(alloc, what, at, k)
    }

    ghost has = { λ s path. Unit {0} };

    fn fetch(&mut self, alloc: Global, path: &str) -> Result<(), Memory> {
        let _ = alloc;
        let _ = path;
        Ok(())
    }

    fn found(&self, path: &str) -> Option<&Found> {
        match self.capture.touch_kept(path) {
            Ok(found) => Some(found),
            Err(_) => None,
        }
    }
}
