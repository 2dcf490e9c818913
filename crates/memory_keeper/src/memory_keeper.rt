// A keeper in memory, which tells all that it holds.
ghost use Rattle.std.specs.Prelude.{◌≡◌, ◌↔◌, ◌<◌, ◌≤◌, Bool, true, false, Some, None, IsTrue, length, is_ok, is_err, OnErr, IfErr};
ghost use Rattle.prov_outside.specs.Numbering.{NextFails, after_call};
ghost use Rattle.keeper.specs.Batch.{empty_batch};
ghost use Rattle.keeper.specs.Count.{Counts};
ghost use Rattle.keeper.specs.Fault.{has_failed};
ghost use Rattle.memory_keeper.specs.Held.{after_answer, are_whole, listed, maps_of, told_of};
ghost use Rattle.keeper.specs.Keeping.{AreKept, Reads, Writes, AddsTrial, Commits, Drops, LeavesAmong, CommitLeaves};
ghost use Rattle.keeper.specs.Tables.{HasTrial, head_at, most_trials, with_page, with_content, with_current};

use crate::Tables;
use crate::held::Held;
use keeper::{Head, KeepFault, Keeper, Page};
use prov_base::{Bytes, Digest};
use prov_outside::Calls;
use std::alloc::Global;
use std::marker::Model;

/// A keeper in memory, which tells all that it holds. It numbers its calls from 1 in one order, whatever their kind; a
/// call fails, and raises the count by one, exactly where its number is in a list that was given. A call that fails
/// changes nothing else, but that `begin` and `undo` leave no batch open.
#[derive(Drop)]
pub struct MemoryKeeper {
    held: Held,
    calls: Calls,
    faults: u64,
}

impl Model for MemoryKeeper {
    ghost use Rattle.std.specs.Prelude.{◌^◌, ◌<◌};
    ghost use Rattle.memory_keeper.specs.Held.{MemoryKeeperView, told_of};
    ghost use Rattle.keeper.specs.Keeping.{AreKept};

    ghost Value = { MemoryKeeperView };

    ghost view = { λ k. record { held = k.held; calls = k.calls; faults = k.faults } };

    // The tables are a keeper's, and the count is in the range of its type.
    ghost invariant = { λ k. AreKept k.held.is_open (told_of k.held) × (k.faults < 2 ^ 64) };
}

impl MemoryKeeper {
    /// A keeper with these tables and no open batch, at which the calls with the listed numbers fail. It takes no
    /// memory. Of several entries with one key the last one stands. `Tables::are_whole` tests what it needs.
    pub fn of(tables: Tables, failing: Vec<u64>) -> MemoryKeeper
        requires { IsTrue (are_whole (listed tables)) }
        ensures held { result.held ≡ record { tables = listed tables; batch = empty_batch (length tables.heads.items); is_open = false } }
        ensures calls { result.calls ≡ record { failing = failing.items; made = 0 } }
        ensures faults { result.faults ≡ 0 }
    {
        let alloc = *failing.allocator();
        MemoryKeeper {
            held: Held::of(alloc, tables),
            calls: Calls::of(failing),
            faults: 0,
        }
    }

    /// The committed tables.
    pub fn committed(&self) -> &Tables
        ensures { listed result.now ≡ self.now.held.tables }
    {
        self.held.committed()
    }

    /// Whether a batch is open, as each writer and `commit` need.
    pub fn is_open(&self) -> bool
        ensures { result ≡ self.now.held.is_open }
    {
        self.held.is_open()
    }

    /// How many trials readers see. This is no call that could fail, and takes no number.
    pub fn seen_trials(&self) -> u32
        ensures { result ≡ length (told_of self.now.held).seen.heads }
    {
        self.held.trials()
    }

    // Takes the number of the next call, and fails where it is listed, which is counted.
    fn next_call(&mut self) -> Result<(), KeepFault>
        ensures call { self.new ≡ after_answer result self.old }
        ensures fails { IsTrue (has_failed result) ↔ NextFails self.old.calls }
        ensures cause { Counts (has_failed result) self.old.faults self.new.faults }
        ensures failed { IfErr result (λ fault. fault ≡ KeepFault.Failed) }
        ensures kept { AreKept self.new.held.is_open (told_of self.new.held) }
    {
        if self.calls.next_fails() {
            self.faults = self.faults.saturating_add(1);
            return Err(KeepFault::Failed);
        }
        Ok(())
    }
}

impl Keeper for MemoryKeeper {
    ghost told = { λ k. Some (told_of k.held) };

    ghost may_leave = { λ k tables. tables ≡ maps_of k.held.tables };

    ghost is_open = { λ k. k.held.is_open };

    ghost faults = { λ k. k.faults };

    /// How many trials there are.
    fn trials(&mut self, _alloc: Global) -> Result<u32, KeepFault>
        ensures reads { Reads (λ tables. length tables.heads) result (told_of self.old.held) (told_of self.new.held) }
        ensures kept { AreKept self.new.held.is_open (told_of self.new.held) }
        ensures stops { LeavesAmong (λ tables. tables ≡ maps_of self.old.held.tables) (λ tables. tables ≡ maps_of self.new.held.tables) }
        ensures batch { self.new.held.is_open ≡ self.old.held.is_open }
        ensures cause { Counts (has_failed result) self.old.faults self.new.faults }
        ensures fails { IsTrue (has_failed result) ↔ NextFails self.old.calls }
        ensures numbered { self.new.calls ≡ after_call self.old.calls }
    {
        self.next_call()?;
        Ok(self.held.trials())
    }

    /// A copy of a trial's head.
    fn head(&mut self, alloc: Global, trial: u32) -> Result<Option<Head>, KeepFault>
        ensures reads { Reads (λ tables. head_at tables.heads trial) result (told_of self.old.held) (told_of self.new.held) }
        ensures kept { AreKept self.new.held.is_open (told_of self.new.held) }
        ensures stops { LeavesAmong (λ tables. tables ≡ maps_of self.old.held.tables) (λ tables. tables ≡ maps_of self.new.held.tables) }
        ensures batch { self.new.held.is_open ≡ self.old.held.is_open }
        ensures cause { Counts (has_failed result) self.old.faults self.new.faults }
        ensures fails { IsTrue (has_failed result) ↔ NextFails self.old.calls }
        ensures numbered { self.new.calls ≡ after_call self.old.calls }
    {
        self.next_call()?;
        self.held.head(alloc, trial)
    }

    /// A copy of a trial's page.
    fn page(&mut self, alloc: Global, trial: u32, number: u32) -> Result<Option<Page>, KeepFault>
        ensures reads { Reads (λ tables. tables.pages trial number) result (told_of self.old.held) (told_of self.new.held) }
        ensures kept { AreKept self.new.held.is_open (told_of self.new.held) }
        ensures stops { LeavesAmong (λ tables. tables ≡ maps_of self.old.held.tables) (λ tables. tables ≡ maps_of self.new.held.tables) }
        ensures batch { self.new.held.is_open ≡ self.old.held.is_open }
        ensures cause { Counts (has_failed result) self.old.faults self.new.faults }
        ensures fails { IsTrue (has_failed result) ↔ NextFails self.old.calls }
        ensures numbered { self.new.calls ≡ after_call self.old.calls }
    {
        self.next_call()?;
        self.held.page(alloc, trial, number)
    }

    /// A copy of a content.
    fn content(&mut self, alloc: Global, digest: &Digest) -> Result<Option<Bytes>, KeepFault>
        ensures reads { Reads (λ tables. tables.contents digest.now) result (told_of self.old.held) (told_of self.new.held) }
        ensures kept { AreKept self.new.held.is_open (told_of self.new.held) }
        ensures stops { LeavesAmong (λ tables. tables ≡ maps_of self.old.held.tables) (λ tables. tables ≡ maps_of self.new.held.tables) }
        ensures batch { self.new.held.is_open ≡ self.old.held.is_open }
        ensures cause { Counts (has_failed result) self.old.faults self.new.faults }
        ensures fails { IsTrue (has_failed result) ↔ NextFails self.old.calls }
        ensures numbered { self.new.calls ≡ after_call self.old.calls }
    {
        self.next_call()?;
        self.held.content(alloc, digest)
    }

    /// The number of the trial that is current for this path.
    fn current(&mut self, _alloc: Global, path: &str) -> Result<Option<u32>, KeepFault>
        ensures reads { Reads (λ tables. tables.current path.now) result (told_of self.old.held) (told_of self.new.held) }
        ensures kept { AreKept self.new.held.is_open (told_of self.new.held) }
        ensures stops { LeavesAmong (λ tables. tables ≡ maps_of self.old.held.tables) (λ tables. tables ≡ maps_of self.new.held.tables) }
        ensures batch { self.new.held.is_open ≡ self.old.held.is_open }
        ensures cause { Counts (has_failed result) self.old.faults self.new.faults }
        ensures fails { IsTrue (has_failed result) ↔ NextFails self.old.calls }
        ensures numbered { self.new.calls ≡ after_call self.old.calls }
    {
        self.next_call()?;
        Ok(self.held.current(path))
    }

    /// Drops whatever an open batch held and opens an empty one, or after an `Err` none.
    fn begin(&mut self, alloc: Global) -> Result<(), KeepFault>
        ensures drops { Drops (told_of self.old.held) (told_of self.new.held) }
        ensures kept { AreKept self.new.held.is_open (told_of self.new.held) }
        ensures stops { LeavesAmong (λ tables. tables ≡ maps_of self.old.held.tables) (λ tables. tables ≡ maps_of self.new.held.tables) }
        ensures batch { self.new.held.is_open ≡ is_ok result }
        ensures cause { Counts (has_failed result) self.old.faults self.new.faults }
        ensures fails { IsTrue (has_failed result) ↔ NextFails self.old.calls }
        ensures numbered { self.new.calls ≡ after_call self.old.calls }
    {
        let answer = self.next_call();
        self.held.restart(alloc, answer.is_ok());
        answer
    }

    /// Adds a trial behind the others and answers its number.
    fn add_trial(&mut self, alloc: Global, head: &Head) -> Result<u32, KeepFault>
        requires batch { IsTrue self.old.held.is_open }
        requires room { length (told_of self.old.held).seen.heads < most_trials }
        ensures writes { AddsTrial head.now result (told_of self.old.held) (told_of self.new.held) }
        ensures kept { AreKept self.new.held.is_open (told_of self.new.held) }
        ensures stops { LeavesAmong (λ tables. tables ≡ maps_of self.old.held.tables) (λ tables. tables ≡ maps_of self.new.held.tables) }
        ensures batch { self.new.held.is_open ≡ self.old.held.is_open }
        ensures cause { Counts (has_failed result) self.old.faults self.new.faults }
        ensures fails { IsTrue (has_failed result) ↔ NextFails self.old.calls }
        ensures numbered { self.new.calls ≡ after_call self.old.calls }
        ensures unchanged { OnErr result (self.new.held ≡ self.old.held) }
    {
        self.next_call()?;
        Ok(self.held.add_trial(alloc, head)?)
    }

    /// Adds a page. That its number is new is not asked here.
    fn add_page(
        &mut self,
        alloc: Global,
        trial: u32,
        number: u32,
        page: &Page,
    ) -> Result<(), KeepFault>
        requires batch { IsTrue self.old.held.is_open }
        requires trial { HasTrial (told_of self.old.held).seen trial }
        ensures writes { Writes (with_page trial number page.now) result (told_of self.old.held) (told_of self.new.held) }
        ensures kept { AreKept self.new.held.is_open (told_of self.new.held) }
        ensures stops { LeavesAmong (λ tables. tables ≡ maps_of self.old.held.tables) (λ tables. tables ≡ maps_of self.new.held.tables) }
        ensures batch { self.new.held.is_open ≡ self.old.held.is_open }
        ensures cause { Counts (has_failed result) self.old.faults self.new.faults }
        ensures fails { IsTrue (has_failed result) ↔ NextFails self.old.calls }
        ensures numbered { self.new.calls ≡ after_call self.old.calls }
        ensures unchanged { OnErr result (self.new.held ≡ self.old.held) }
    {
        self.next_call()?;
        Ok(self.held.add_page(alloc, trial, number, page)?)
    }

    /// Adds a content. That its digest is new is not asked here.
    fn add_content(&mut self, alloc: Global, digest: &Digest, bytes: &[u8]) -> Result<(), KeepFault>
        requires batch { IsTrue self.old.held.is_open }
        ensures writes { Writes (with_content digest.now bytes.now) result (told_of self.old.held) (told_of self.new.held) }
        ensures kept { AreKept self.new.held.is_open (told_of self.new.held) }
        ensures stops { LeavesAmong (λ tables. tables ≡ maps_of self.old.held.tables) (λ tables. tables ≡ maps_of self.new.held.tables) }
        ensures batch { self.new.held.is_open ≡ self.old.held.is_open }
        ensures cause { Counts (has_failed result) self.old.faults self.new.faults }
        ensures fails { IsTrue (has_failed result) ↔ NextFails self.old.calls }
        ensures numbered { self.new.calls ≡ after_call self.old.calls }
        ensures unchanged { OnErr result (self.new.held ≡ self.old.held) }
    {
        self.next_call()?;
        Ok(self.held.add_content(alloc, digest, bytes)?)
    }

    /// Makes a trial the current one for this path.
    fn set_current(&mut self, alloc: Global, path: &str, trial: u32) -> Result<(), KeepFault>
        requires batch { IsTrue self.old.held.is_open }
        ensures writes { Writes (with_current path.now trial) result (told_of self.old.held) (told_of self.new.held) }
        ensures kept { AreKept self.new.held.is_open (told_of self.new.held) }
        ensures stops { LeavesAmong (λ tables. tables ≡ maps_of self.old.held.tables) (λ tables. tables ≡ maps_of self.new.held.tables) }
        ensures batch { self.new.held.is_open ≡ self.old.held.is_open }
        ensures cause { Counts (has_failed result) self.old.faults self.new.faults }
        ensures fails { IsTrue (has_failed result) ↔ NextFails self.old.calls }
        ensures numbered { self.new.calls ≡ after_call self.old.calls }
        ensures unchanged { OnErr result (self.new.held ≡ self.old.held) }
    {
        self.next_call()?;
        Ok(self.held.set_current(alloc, path, trial)?)
    }

    /// Makes the open batch part of the tables and closes it.
    fn commit(&mut self, alloc: Global) -> Result<(), KeepFault>
        requires batch { IsTrue self.old.held.is_open }
        ensures commits { Commits result (told_of self.old.held) (told_of self.new.held) }
        ensures kept { AreKept self.new.held.is_open (told_of self.new.held) }
        ensures stops { CommitLeaves result (λ tables. tables ≡ maps_of self.old.held.tables) (λ tables. tables ≡ maps_of self.new.held.tables) (told_of self.old.held) (told_of self.new.held) }
        ensures batch { self.new.held.is_open ≡ is_err result }
        ensures cause { Counts (has_failed result) self.old.faults self.new.faults }
        ensures fails { IsTrue (has_failed result) ↔ NextFails self.old.calls }
        ensures numbered { self.new.calls ≡ after_call self.old.calls }
        ensures unchanged { OnErr result (self.new.held ≡ self.old.held) }
    {
        self.next_call()?;
        Ok(self.held.commit(alloc)?)
    }

    /// Drops the open batch, where there is one.
    fn undo(&mut self, alloc: Global) -> Result<(), KeepFault>
        ensures drops { Drops (told_of self.old.held) (told_of self.new.held) }
        ensures kept { AreKept self.new.held.is_open (told_of self.new.held) }
        ensures stops { LeavesAmong (λ tables. tables ≡ maps_of self.old.held.tables) (λ tables. tables ≡ maps_of self.new.held.tables) }
        ensures batch { self.new.held.is_open ≡ false }
        ensures cause { Counts (has_failed result) self.old.faults self.new.faults }
        ensures fails { IsTrue (has_failed result) ↔ NextFails self.old.calls }
        ensures numbered { self.new.calls ≡ after_call self.old.calls }
    {
        self.held.restart(alloc, false);
        self.next_call()
    }
}
