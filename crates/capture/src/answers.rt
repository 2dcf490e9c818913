// The answers of a capture, with a look-up by place and number and the last number at each place.
ghost use Rattle.std.specs.Prelude.{◌≡◌, ℕ, ◌<◌, ◌++◌, ◌∷◌, [], OnOk, OnErr, false, option_copied, max, if◌then◌else◌};
ghost use Rattle.std.specs.List.Sorted.{IsPermutation};
ghost use Rattle.indexmap.specs.IndexMap.{spare as spare_entries};
ghost use Rattle.indexmap.specs.IndexSet.{spare as spare_keys};
ghost use Rattle.prov_base.specs.declared.place.Pos.{Pos as Place};
ghost use Rattle.prov_base.specs.contracts.place.PosPartialEq.TheImpl.{ghosts as places};
ghost use Rattle.capture.specs.AnswersView.{noted_last};
ghost use Rattle.capture.specs.Answers.{answer_at, is_kept, IsLast, AreInOrder, AreOnce};

use crate::answer::{Ask, Asked, Given};
use indexmap::{IndexMap, IndexSet};
use prov_base::{Memory, Pos};
use std::alloc::Global;
use std::marker::Model;

/// Answers in the order in which they were kept, each found by its place and number in constant time. Contracts see the
/// answers, and for how many more there is room.
#[derive(Drop)]
pub(crate) struct Answers {
    kept: IndexSet<Asked>,
    last: IndexMap<Pos, u32>,
}

impl Model for Answers {
    ghost use Rattle.indexmap.specs.IndexSet.{spare as spare_keys};
    ghost use Rattle.indexmap.specs.IndexMap.{spare as spare_entries};
    ghost use Rattle.prov_base.specs.declared.place.Pos.{Pos as Place};
    ghost use Rattle.capture.specs.Answers.{IsLast};
    ghost use Rattle.capture.specs.AnswersView.{AnswersView, noted_last};

    ghost Value = { AnswersView };

    ghost view = { λ a. record { kept = a.kept.keys; spare = spare_keys a.kept; spare_places = spare_entries a.last } };

    ghost invariant = { λ a. (at : Place) → IsLast a.kept.keys at (noted_last a.last.entries at) };
}

impl Answers {
    /// No answers.
    pub(crate) fn new(alloc: Global) -> Answers
        ensures { result.kept ≡ [] }
    {
        Answers {
            kept: IndexSet::new(alloc),
            last: IndexMap::new(alloc),
        }
    }

    /// The answers, in the order in which they were kept.
    pub(crate) fn as_slice(&self) -> &[Asked]
        ensures answers { result.now ≡ self.now.kept }
        ensures once { AreOnce result.now }
    {
        self.kept.as_slice()
    }

    /// The answer under a place and a number.
    pub(crate) fn find(&self, at: Pos, k: u32) -> Option<&Asked>
        ensures { option_copied result ≡ answer_at self.now.kept at k }
    {
        let sought = Asked {
            at,
            k,
            what: Ask::Time,
            given: Given::Failed,
        };
        self.kept.get(&sought)
    }

    /// The number of the last answer at a place, or 0.
    pub(crate) fn last_at(&self, at: Pos) -> u32
        ensures { IsLast self.now.kept at result }
    {
        self.last.get(&at).copied().unwrap_or(0)
    }

    /// Puts the answers in the order of their places and numbers. After an `Err` all is as before.
    pub(crate) fn sort(&mut self) -> Result<(), Memory>
        ensures sorted { OnOk result (AreInOrder self.new.kept) }
        ensures same { OnOk result (IsPermutation self.old.kept self.new.kept) }
        ensures found { OnOk result ((at : Place) (k : ℕ) → answer_at self.new.kept at k ≡ answer_at self.old.kept at k) }
        ensures err { OnErr result (self.new.kept ≡ self.old.kept) }
    {
        self.kept.sort_unstable()?;
        Ok(())
    }

    /// Makes room for one more answer.
    pub(crate) fn reserve(&mut self) -> Result<(), Memory>
        ensures kept { self.new.kept ≡ self.old.kept }
        ensures room { OnOk result ((0 < self.new.spare) × (0 < self.new.spare_places)) }
    {
        self.kept.reserve(1)?;
        self.last.reserve(1)?;
        Ok(())
    }

    /// Keeps one more answer, for which there is room.
    pub(crate) fn push(&mut self, asked: Asked)
        requires absent { is_kept self.old.kept asked.at asked.k ≡ false }
        requires room { 0 < self.old.spare }
        requires room_at_place { 0 < self.old.spare_places }
        ensures { self.new.kept ≡ self.old.kept ++ asked ∷ [] }
    {
        note_last(&mut self.last, asked.at, asked.k);
        put_new(&mut self.kept, asked);
    }
}

// Notes a number at a place, unless a greater one is noted there.
fn note_last(last: &mut IndexMap<Pos, u32>, at: Pos, k: u32)
    requires { 0 < spare_entries last.old }
    ensures { (place : Place) → noted_last last.new.entries place
        ≡ (if places.eq at place then max (noted_last last.old.entries place) k else noted_last last.old.entries place) }
{
    let before = last.get(&at).copied().unwrap_or(0);
    if before < k {
        let _ = last.insert(at, k);
    }
}

// Puts an answer behind the others.
fn put_new(kept: &mut IndexSet<Asked>, asked: Asked)
    requires absent { is_kept kept.old.keys asked.at asked.k ≡ false }
    requires room { 0 < spare_keys kept.old }
    ensures { kept.new.keys ≡ kept.old.keys ++ asked ∷ [] }
{
    let _ = kept.insert(asked);
}
