// An open batch: what was written since it began, as lists whose later entries stand over earlier ones.
ghost use Rattle.std.specs.Prelude.{◌≡◌, ◌+◌, ◌<◌, [], ◌∷◌, ◌++◌, IfOk, OnOk, OnErr};
ghost use Rattle.std.specs.Option.{option_copied};
ghost use Rattle.keeper.specs.Tables.{most_trials};

use crate::entries::{content_in, current_in, head_in, page_in};
use crate::records::{copied_bytes, copied_name};
use crate::{Head, Page};
use prov_base::{Bytes, Digest, Memory, Name};
use std::alloc::Global;
use std::marker::Model;

/// What was written since a batch began. A keeper holds its open batch as one of these.
#[derive(Drop)]
pub struct Batch {
    /// How many heads were committed as it began.
    pub committed: u32,
    /// How many heads it added.
    pub added: u32,
    /// The heads that it wrote, by the number of their trial.
    pub heads: Vec<(u32, Head)>,
    /// The pages that it added, by trial and number.
    pub pages: Vec<(u32, u32, Page)>,
    /// The contents that it added, by digest.
    pub contents: Vec<(Digest, Bytes)>,
    /// The trials that it made current, by path.
    pub current: Vec<(Name, u32)>,
    /// The trials whose committed pages it drops: none yet.
    pub dropped: Vec<u32>,
}

impl Model for Batch {
    ghost use Rattle.keeper.specs.Batch.{BatchView};

    ghost Value = { BatchView };

    ghost view = { λ b. record {
      committed = b.committed;
      added = b.added;
      heads = b.heads.items;
      pages = b.pages.items;
      contents = b.contents.items;
      current = b.current.items;
      dropped = b.dropped.items;
    } };
}

impl Batch {
    ghost use Rattle.keeper.specs.Batch.{empty_batch, last_head, last_page, last_content, last_current};

    /// An empty batch over so many committed heads. It takes no memory.
    pub fn new(alloc: Global, committed: u32) -> Batch
        ensures { result ≡ empty_batch committed }
    {
        Batch {
            committed,
            added: 0,
            heads: Vec::new(alloc),
            pages: Vec::new(alloc),
            contents: Vec::new(alloc),
            current: Vec::new(alloc),
            dropped: Vec::new(alloc),
        }
    }

    /// Adds the head of the next trial and answers its number. After an `Err` the batch is as before.
    pub fn add_trial(&mut self, alloc: Global, head: &Head) -> Result<u32, Memory>
        requires { self.old.committed + self.old.added < most_trials }
        ensures number { IfOk result (λ number. number ≡ self.old.committed + self.old.added + 1) }
        ensures added { IfOk result (λ number. self.new ≡ record self.old { added = self.old.added + 1; heads = self.old.heads ++ (number, head.now) ∷ [] }) }
        ensures err { OnErr result (self.new ≡ self.old) }
    {
        let number = self.committed + self.added + 1;
        let copy = head.copied(alloc)?;
        self.heads.push((number, copy))?;
        self.added += 1;
        Ok(number)
    }

    /// Adds a page. After an `Err` the batch is as before.
    pub fn add_page(
        &mut self,
        alloc: Global,
        trial: u32,
        number: u32,
        page: &Page,
    ) -> Result<(), Memory>
        ensures added { OnOk result (self.new ≡ record self.old { pages = self.old.pages ++ (trial, number, page.now) ∷ [] }) }
        ensures err { OnErr result (self.new ≡ self.old) }
    {
        let copy = page.copied(alloc)?;
        self.pages.push((trial, number, copy))?;
        Ok(())
    }

    /// Adds a content. After an `Err` the batch is as before.
    pub fn add_content(
        &mut self,
        alloc: Global,
        digest: &Digest,
        bytes: &[u8],
    ) -> Result<(), Memory>
        ensures added { OnOk result (self.new ≡ record self.old { contents = self.old.contents ++ (digest.now, bytes.now) ∷ [] }) }
        ensures err { OnErr result (self.new ≡ self.old) }
    {
        let copy = copied_bytes(alloc, bytes)?;
        self.contents.push((*digest, copy))?;
        Ok(())
    }

    /// Makes a trial the current one of a path. After an `Err` the batch is as before.
    pub fn set_current(&mut self, alloc: Global, path: &str, trial: u32) -> Result<(), Memory>
        ensures added { OnOk result (self.new ≡ record self.old { current = self.old.current ++ (path.now, trial) ∷ [] }) }
        ensures err { OnErr result (self.new ≡ self.old) }
    {
        let copy = copied_name(alloc, path)?;
        self.current.push((copy, trial))?;
        Ok(())
    }

    /// The last head with this number that the batch wrote.
    pub fn head(&self, trial: u32) -> Option<&Head>
        ensures { option_copied result ≡ last_head self.now.heads trial }
    {
        head_in(&self.heads, trial)
    }

    /// The last page with this trial and number that the batch wrote.
    pub fn page(&self, trial: u32, number: u32) -> Option<&Page>
        ensures { option_copied result ≡ last_page self.now.pages trial number }
    {
        page_in(&self.pages, trial, number)
    }

    /// The last content with this digest that the batch wrote.
    pub fn content(&self, digest: &Digest) -> Option<&Bytes>
        ensures { option_copied result ≡ last_content self.now.contents digest.now }
    {
        content_in(&self.contents, digest)
    }

    /// The last trial that the batch made current for this path.
    pub fn current(&self, path: &str) -> Option<u32>
        ensures { result ≡ last_current self.now.current path.now }
    {
        current_in(&self.current, path)
    }
}
