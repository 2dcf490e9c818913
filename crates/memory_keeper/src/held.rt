// What a keeper in memory holds: the committed tables, and the batch over them. Nothing here fails but for memory.
ghost use Rattle.std.specs.Prelude.{◌≡◌, ◌+◌, ◌<◌, ◌≤◌, ◌++◌, false, IsTrue, length, map, OnOk, OnErr, IfOk, vec_len, vec_capacity};
ghost use Rattle.std.specs.Option.{option_copied};
ghost use Rattle.memory_keeper.specs.Held.{joined, listed};
ghost use Rattle.keeper.specs.Fault.{has_failed};
ghost use Rattle.keeper.specs.Keeping.{AreKept, Drops, Reads};
ghost use Rattle.keeper.specs.Tables.{HasTrial, head_at, most_trials, with_trial, with_page, with_content, with_current};

use crate::Tables;
use keeper::{Batch, Head, KeepFault, Page, content_in, copied_bytes, current_in, page_in};
use prov_base::{Bytes, Digest, Memory};
use std::alloc::Global;
use std::marker::Model;
use std::mem;

// The committed tables, and what was written since the last `begin`, which is nothing where no batch is open.
#[derive(Drop)]
pub struct Held {
    tables: Tables,
    batch: Batch,
    is_open: bool,
}

impl Model for Held {
    ghost use Rattle.memory_keeper.specs.Held.{HeldView, IsHeld, listed};

    ghost Value = { HeldView };

    ghost view = { λ h. record { tables = listed h.tables; batch = h.batch; is_open = h.is_open } };

    ghost invariant = { λ h. IsHeld (listed h.tables) h.batch h.is_open };
}

impl Held {
    ghost use Rattle.memory_keeper.specs.Held.{are_whole, told_of};
    ghost use Rattle.keeper.specs.Batch.{empty_batch};

    // These tables, with no batch open.
    pub(crate) fn of(alloc: Global, tables: Tables) -> Held
        requires { IsTrue (are_whole (listed tables)) }
        ensures held { result ≡ record { tables = listed tables; batch = empty_batch (length tables.heads.items); is_open = false } }
        ensures kept { AreKept result.is_open (told_of result) }
    {
        let committed = tables.heads.len() as u32;
        Held {
            tables,
            batch: Batch::new(alloc, committed),
            is_open: false,
        }
    }

    // The committed tables.
    pub(crate) fn committed(&self) -> &Tables
        ensures { listed result.now ≡ self.now.tables }
    {
        &self.tables
    }

    // Whether a batch is open.
    pub(crate) fn is_open(&self) -> bool
        ensures { result ≡ self.now.is_open }
    {
        self.is_open
    }

    // How many trials are seen.
    pub(crate) fn trials(&self) -> u32
        ensures { result ≡ length (told_of self.now).seen.heads }
    {
        self.batch.committed + self.batch.added
    }

    // The head of a trial that is seen.
    fn head_seen(&self, trial: u32) -> Option<&Head>
        ensures { option_copied result ≡ head_at (told_of self.now).seen.heads trial }
    {
        match self.batch.head(trial) {
            Some(head) => Some(head),
            None => head_of(&self.tables.heads, trial),
        }
    }

    // A page that is seen.
    fn page_seen(&self, trial: u32, number: u32) -> Option<&Page>
        ensures { option_copied result ≡ (told_of self.now).seen.pages trial number }
    {
        match self.batch.page(trial, number) {
            Some(page) => Some(page),
            None => page_in(&self.tables.pages, trial, number),
        }
    }

    // A content that is seen.
    fn content_seen(&self, digest: &Digest) -> Option<&Bytes>
        ensures { option_copied result ≡ (told_of self.now).seen.contents digest.now }
    {
        match self.batch.content(digest) {
            Some(bytes) => Some(bytes),
            None => content_in(&self.tables.contents, digest),
        }
    }

    // A copy of the head of a trial.
    pub(crate) fn head(&self, alloc: Global, trial: u32) -> Result<Option<Head>, KeepFault>
        ensures reads { Reads (λ tables. head_at tables.heads trial) result (told_of self.now) (told_of self.now) }
        ensures memory { has_failed result ≡ false }
    {
        match self.head_seen(trial) {
            Some(head) => Ok(Some(head.copied(alloc)?)),
            None => Ok(None),
        }
    }

    // A copy of a page.
    pub(crate) fn page(
        &self,
        alloc: Global,
        trial: u32,
        number: u32,
    ) -> Result<Option<Page>, KeepFault>
        ensures reads { Reads (λ tables. tables.pages trial number) result (told_of self.now) (told_of self.now) }
        ensures memory { has_failed result ≡ false }
    {
        match self.page_seen(trial, number) {
            Some(page) => Ok(Some(page.copied(alloc)?)),
            None => Ok(None),
        }
    }

    // A copy of a content.
    pub(crate) fn content(&self, alloc: Global, digest: &Digest) -> Result<Option<Bytes>, KeepFault>
        ensures reads { Reads (λ tables. tables.contents digest.now) result (told_of self.now) (told_of self.now) }
        ensures memory { has_failed result ≡ false }
    {
        match self.content_seen(digest) {
            Some(bytes) => Ok(Some(copied_bytes(alloc, bytes.as_slice())?)),
            None => Ok(None),
        }
    }

    // The current trial of a path that is seen.
    pub(crate) fn current(&self, path: &str) -> Option<u32>
        ensures { result ≡ (told_of self.now).seen.current path.now }
    {
        match self.batch.current(path) {
            Some(trial) => Some(trial),
            None => current_in(&self.tables.current, path),
        }
    }

    // Drops what the batch holds, and opens an empty one or none.
    pub(crate) fn restart(&mut self, alloc: Global, is_open: bool)
        ensures drops { Drops (told_of self.old) (told_of self.new) }
        ensures batch { self.new.is_open ≡ is_open }
        ensures kept { AreKept self.new.is_open (told_of self.new) }
    {
        self.batch = Batch::new(alloc, self.tables.heads.len() as u32);
        self.is_open = is_open;
    }

    // Adds a trial to the batch.
    pub(crate) fn add_trial(&mut self, alloc: Global, head: &Head) -> Result<u32, Memory>
        requires batch { IsTrue self.old.is_open }
        requires room { length (told_of self.old).seen.heads < most_trials }
        ensures number { IfOk result (λ number. number ≡ length (told_of self.old).seen.heads + 1) }
        ensures added { OnOk result (told_of self.new ≡ record (told_of self.old) { seen = with_trial head.now (told_of self.old).seen }) }
        ensures batch { self.new.is_open ≡ self.old.is_open }
        ensures kept { AreKept self.new.is_open (told_of self.new) }
        ensures err { OnErr result (self.new ≡ self.old) }
    {
        self.batch.add_trial(alloc, head)
    }

    // Adds a page to the batch.
    pub(crate) fn add_page(
        &mut self,
        alloc: Global,
        trial: u32,
        number: u32,
        page: &Page,
    ) -> Result<(), Memory>
        requires batch { IsTrue self.old.is_open }
        requires trial { HasTrial (told_of self.old).seen trial }
        ensures added { OnOk result (told_of self.new ≡ record (told_of self.old) { seen = with_page trial number page.now (told_of self.old).seen }) }
        ensures batch { self.new.is_open ≡ self.old.is_open }
        ensures kept { AreKept self.new.is_open (told_of self.new) }
        ensures err { OnErr result (self.new ≡ self.old) }
    {
        self.batch.add_page(alloc, trial, number, page)
    }

    // Adds a content to the batch.
    pub(crate) fn add_content(
        &mut self,
        alloc: Global,
        digest: &Digest,
        bytes: &[u8],
    ) -> Result<(), Memory>
        requires batch { IsTrue self.old.is_open }
        ensures added { OnOk result (told_of self.new ≡ record (told_of self.old) { seen = with_content digest.now bytes.now (told_of self.old).seen }) }
        ensures batch { self.new.is_open ≡ self.old.is_open }
        ensures kept { AreKept self.new.is_open (told_of self.new) }
        ensures err { OnErr result (self.new ≡ self.old) }
    {
        self.batch.add_content(alloc, digest, bytes)
    }

    // Makes a trial current in the batch.
    pub(crate) fn set_current(
        &mut self,
        alloc: Global,
        path: &str,
        trial: u32,
    ) -> Result<(), Memory>
        requires batch { IsTrue self.old.is_open }
        ensures added { OnOk result (told_of self.new ≡ record (told_of self.old) { seen = with_current path.now trial (told_of self.old).seen }) }
        ensures batch { self.new.is_open ≡ self.old.is_open }
        ensures kept { AreKept self.new.is_open (told_of self.new) }
        ensures err { OnErr result (self.new ≡ self.old) }
    {
        self.batch.set_current(alloc, path, trial)
    }

    // Makes the batch part of the tables and closes it.
    pub(crate) fn commit(&mut self, alloc: Global) -> Result<(), Memory>
        ensures committed { OnOk result (told_of self.new ≡ record { committed = (told_of self.old).seen; seen = (told_of self.old).seen }) }
        ensures closed { OnOk result (self.new.is_open ≡ false) }
        ensures kept { AreKept self.new.is_open (told_of self.new) }
        ensures err { OnErr result (self.new ≡ self.old) }
    {
        join(alloc, &mut self.tables, &mut self.batch)?;
        self.batch = Batch::new(alloc, self.tables.heads.len() as u32);
        self.is_open = false;
        Ok(())
    }
}

// Puts the heads behind the others, for which there is room.
fn push_all(heads: &mut Vec<Head>, entries: Vec<(u32, Head)>)
    requires room { vec_len heads.old + vec_len entries ≤ vec_capacity heads.old }
    ensures { heads.new.items ≡ heads.old.items ++ map (λ e. e.1) entries.items }
{
    for (_, head) in entries {
        heads.push_reserved(head);
    }
}

// Puts what a batch wrote behind the entries of the tables: all of it or, for lack of memory, nothing.
fn join(alloc: Global, tables: &mut Tables, batch: &mut Batch) -> Result<(), Memory>
    ensures joined { OnOk result (listed tables.new ≡ joined batch.old (listed tables.old)) }
    ensures err { OnErr result ((listed tables.new ≡ listed tables.old) × (batch.new ≡ batch.old)) }
{
    tables.heads.reserve(batch.heads.len())?;
    tables.pages.reserve(batch.pages.len())?;
    tables.contents.reserve(batch.contents.len())?;
    tables.current.reserve(batch.current.len())?;
    let heads = mem::replace(&mut batch.heads, Vec::new(alloc));
    push_all(&mut tables.heads, heads);
    let _ = tables.pages.append(&mut batch.pages);
    let _ = tables.contents.append(&mut batch.contents);
    let _ = tables.current.append(&mut batch.current);
    Ok(())
}

// The head of the trial with this number, of heads that are numbered from 1.
fn head_of(heads: &[Head], trial: u32) -> Option<&Head>
    ensures { option_copied result ≡ head_at heads.now trial }
{
    let earlier = trial.checked_sub(1)?;
    heads.get(earlier as usize)
}
