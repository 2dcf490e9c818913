// The store of trials as a trait: four tables, and a batch of changes that is open or not.
ghost use Rattle.std.specs.Prelude.{◌≡◌, ◌<◌, Option, ℕ, Bool, false, None, IsTrue, length, is_ok, is_err, IfSome};
ghost use Rattle.prov_outside.specs.Tells.{Tells};
ghost use Rattle.keeper.specs.Count.{Counts};
ghost use Rattle.keeper.specs.Fault.{has_failed};
ghost use Rattle.keeper.specs.Tables.{TablesView, HasTrial, head_at, most_trials, with_page, with_content, with_current};
ghost use Rattle.keeper.specs.Keeping.{KeeperView, AreKept, Reads, Writes, AddsTrial, Commits, Drops, LeavesAmong, CommitLeaves};

use crate::{Head, KeepFault, Page};
use prov_base::{Bytes, Digest};
use std::alloc::Global;

/// Trials by number, pages by trial and number, contents by digest, and the current trial by path. What is written
/// goes into a batch, which `begin` opens and `commit` makes part of the tables, whole or not at all.
///
/// A keeper that does not tell its tables promises safety, and that it fails only where it counts that.
pub trait Keeper {
    /// The committed tables and what readers see, where it tells them.
    ghost told: { Self → Option KeeperView };

    /// The committed tables that a stop of the program at this moment may leave, where it tells its tables.
    ghost may_leave: { Self → TablesView → Type 0 };

    /// Whether a batch is open.
    ghost is_open: { Self → Bool };

    /// How often a call has failed.
    ghost faults: { Self → ℕ };

    /// How many trials there are.
    fn trials(&mut self, alloc: Global) -> Result<u32, KeepFault>
        ensures reads { Tells (told self.old) (told self.new) (Reads (λ tables. length tables.heads) result) }
        ensures kept { IfSome (told self.new) (AreKept (is_open self.new)) }
        ensures stops { Tells (told self.old) (told self.new) (λ _ _. LeavesAmong (may_leave self.old) (may_leave self.new)) }
        ensures batch { is_open self.new ≡ is_open self.old }
        ensures cause { Counts (has_failed result) (faults self.old) (faults self.new) };

    /// The head of the trial with this number, which counts from 1.
    fn head(&mut self, alloc: Global, trial: u32) -> Result<Option<Head>, KeepFault>
        ensures reads { Tells (told self.old) (told self.new) (Reads (λ tables. head_at tables.heads trial) result) }
        ensures kept { IfSome (told self.new) (AreKept (is_open self.new)) }
        ensures stops { Tells (told self.old) (told self.new) (λ _ _. LeavesAmong (may_leave self.old) (may_leave self.new)) }
        ensures batch { is_open self.new ≡ is_open self.old }
        ensures cause { Counts (has_failed result) (faults self.old) (faults self.new) };

    /// A trial's page with this number.
    fn page(&mut self, alloc: Global, trial: u32, number: u32) -> Result<Option<Page>, KeepFault>
        ensures reads { Tells (told self.old) (told self.new) (Reads (λ tables. tables.pages trial number) result) }
        ensures kept { IfSome (told self.new) (AreKept (is_open self.new)) }
        ensures stops { Tells (told self.old) (told self.new) (λ _ _. LeavesAmong (may_leave self.old) (may_leave self.new)) }
        ensures batch { is_open self.new ≡ is_open self.old }
        ensures cause { Counts (has_failed result) (faults self.old) (faults self.new) };

    /// The content with this digest.
    fn content(&mut self, alloc: Global, digest: &Digest) -> Result<Option<Bytes>, KeepFault>
        ensures reads { Tells (told self.old) (told self.new) (Reads (λ tables. tables.contents digest.now) result) }
        ensures kept { IfSome (told self.new) (AreKept (is_open self.new)) }
        ensures stops { Tells (told self.old) (told self.new) (λ _ _. LeavesAmong (may_leave self.old) (may_leave self.new)) }
        ensures batch { is_open self.new ≡ is_open self.old }
        ensures cause { Counts (has_failed result) (faults self.old) (faults self.new) };

    /// The number of the trial that is current for this path.
    fn current(&mut self, alloc: Global, path: &str) -> Result<Option<u32>, KeepFault>
        ensures reads { Tells (told self.old) (told self.new) (Reads (λ tables. tables.current path.now) result) }
        ensures kept { IfSome (told self.new) (AreKept (is_open self.new)) }
        ensures stops { Tells (told self.old) (told self.new) (λ _ _. LeavesAmong (may_leave self.old) (may_leave self.new)) }
        ensures batch { is_open self.new ≡ is_open self.old }
        ensures cause { Counts (has_failed result) (faults self.old) (faults self.new) };

    /// Drops whatever an open batch held and opens an empty one. After an `Err` none is open.
    fn begin(&mut self, alloc: Global) -> Result<(), KeepFault>
        ensures drops { Tells (told self.old) (told self.new) Drops }
        ensures kept { IfSome (told self.new) (AreKept (is_open self.new)) }
        ensures stops { Tells (told self.old) (told self.new) (λ _ _. LeavesAmong (may_leave self.old) (may_leave self.new)) }
        ensures batch { is_open self.new ≡ is_ok result }
        ensures cause { Counts (has_failed result) (faults self.old) (faults self.new) };

    /// Adds a trial behind the others and answers its number.
    fn add_trial(&mut self, alloc: Global, head: &Head) -> Result<u32, KeepFault>
        requires batch { IsTrue (is_open self.old) }
        requires room { IfSome (told self.old) (λ kept. length kept.seen.heads < most_trials) }
        ensures writes { Tells (told self.old) (told self.new) (AddsTrial head.now result) }
        ensures kept { IfSome (told self.new) (AreKept (is_open self.new)) }
        ensures stops { Tells (told self.old) (told self.new) (λ _ _. LeavesAmong (may_leave self.old) (may_leave self.new)) }
        ensures batch { is_open self.new ≡ is_open self.old }
        ensures cause { Counts (has_failed result) (faults self.old) (faults self.new) };

    /// Adds a page of a trial that is there, under a number that it has no page of yet.
    fn add_page(
        &mut self,
        alloc: Global,
        trial: u32,
        number: u32,
        page: &Page,
    ) -> Result<(), KeepFault>
        requires batch { IsTrue (is_open self.old) }
        requires trial { IfSome (told self.old) (λ kept. HasTrial kept.seen trial) }
        requires new { IfSome (told self.old) (λ kept. kept.seen.pages trial number ≡ None) }
        ensures writes { Tells (told self.old) (told self.new) (Writes (with_page trial number page.now) result) }
        ensures kept { IfSome (told self.new) (AreKept (is_open self.new)) }
        ensures stops { Tells (told self.old) (told self.new) (λ _ _. LeavesAmong (may_leave self.old) (may_leave self.new)) }
        ensures batch { is_open self.new ≡ is_open self.old }
        ensures cause { Counts (has_failed result) (faults self.old) (faults self.new) };

    /// Adds a content under a digest that has none yet.
    fn add_content(&mut self, alloc: Global, digest: &Digest, bytes: &[u8]) -> Result<(), KeepFault>
        requires batch { IsTrue (is_open self.old) }
        requires new { IfSome (told self.old) (λ kept. kept.seen.contents digest.now ≡ None) }
        ensures writes { Tells (told self.old) (told self.new) (Writes (with_content digest.now bytes.now) result) }
        ensures kept { IfSome (told self.new) (AreKept (is_open self.new)) }
        ensures stops { Tells (told self.old) (told self.new) (λ _ _. LeavesAmong (may_leave self.old) (may_leave self.new)) }
        ensures batch { is_open self.new ≡ is_open self.old }
        ensures cause { Counts (has_failed result) (faults self.old) (faults self.new) };

    /// Makes a trial that is there the current one for this path, in place of an earlier one.
    fn set_current(&mut self, alloc: Global, path: &str, trial: u32) -> Result<(), KeepFault>
        requires batch { IsTrue (is_open self.old) }
        requires trial { IfSome (told self.old) (λ kept. HasTrial kept.seen trial) }
        ensures writes { Tells (told self.old) (told self.new) (Writes (with_current path.now trial) result) }
        ensures kept { IfSome (told self.new) (AreKept (is_open self.new)) }
        ensures stops { Tells (told self.old) (told self.new) (λ _ _. LeavesAmong (may_leave self.old) (may_leave self.new)) }
        ensures batch { is_open self.new ≡ is_open self.old }
        ensures cause { Counts (has_failed result) (faults self.old) (faults self.new) };

    /// Makes the open batch part of the tables and closes it. After an `Err` the committed tables are as before.
    fn commit(&mut self, alloc: Global) -> Result<(), KeepFault>
        requires batch { IsTrue (is_open self.old) }
        ensures commits { Tells (told self.old) (told self.new) (Commits result) }
        ensures kept { IfSome (told self.new) (AreKept (is_open self.new)) }
        ensures stops { Tells (told self.old) (told self.new) (CommitLeaves result (may_leave self.old) (may_leave self.new)) }
        ensures batch { is_open self.new ≡ is_err result }
        ensures cause { Counts (has_failed result) (faults self.old) (faults self.new) };

    /// Drops the open batch, where there is one. After an `Err` none is open either.
    fn undo(&mut self, alloc: Global) -> Result<(), KeepFault>
        ensures drops { Tells (told self.old) (told self.new) Drops }
        ensures kept { IfSome (told self.new) (AreKept (is_open self.new)) }
        ensures stops { Tells (told self.old) (told self.new) (λ _ _. LeavesAmong (may_leave self.old) (may_leave self.new)) }
        ensures batch { is_open self.new ≡ false }
        ensures cause { Counts (has_failed result) (faults self.old) (faults self.new) };
}
