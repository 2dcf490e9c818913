// The keeper over a database file.
ghost use Rattle.std.specs.Prelude.{◌≡◌, ◌+◌, Some, None, Ok, false, IfOk, IfSome};
ghost use Rattle.keeper.specs.Batch.{last_head, last_page, last_content, last_current};

use crate::fault::counted;
use crate::file::StoreFile;
use crate::readers::{count_trials, read_content, read_current, read_head, read_page};
use crate::tasks::Task;
use keeper::{Batch, Head, KeepFault, Keeper, Page, copied_bytes};
use prov_base::{Bytes, Digest, Memory, Name};
use std::alloc::Global;

// There are at most so many trials.
const MOST_TRIALS: u64 = 4_294_967_295;

/// The store of trials in a database file. It tells nothing of its tables, and counts its faults.
///
/// Its first call that asks the file makes the file's folder and the file where they are absent, and opens it. It
/// collects what is written in memory, and `commit` writes that in one transaction.
#[derive(Drop)]
pub struct SqliteKeeper<'a> {
    file: StoreFile<'a>,
    // What was written since the last `begin`, which is nothing where no batch is open.
    batch: Batch,
    is_open: bool,
    faults: u64,
}

impl<'a> SqliteKeeper<'a> {
    /// The store in the file at this path, with no batch open and no fault so far. It opens nothing and takes no
    /// memory.
    pub fn at(rt: &'a HostRuntime, path: Name) -> SqliteKeeper<'a>
        ensures batch { ⟦<SqliteKeeper<'a> as Keeper>⟧.is_open result ≡ false }
        ensures faults { ⟦<SqliteKeeper<'a> as Keeper>⟧.faults result ≡ 0 }
    {
        SqliteKeeper {
            file: StoreFile::at(rt, path),
            batch: Batch::new(rt.alloc(), 0),
            is_open: false,
            faults: 0,
        }
    }
}

impl Keeper for SqliteKeeper<'_> {
    ghost use Rattle.std.specs.Prelude.{⊤};

    ghost told = { λ _. None };

    ghost may_leave = { λ _ _. ⊤ };

    ghost is_open = { λ keeper. keeper.is_open };

    ghost faults = { λ keeper. keeper.faults };

    /// How many trials there are, with those of an open batch.
    fn trials(&mut self, _alloc: Global) -> Result<u32, KeepFault> {
        let answer = if self.is_open {
            trials_with(&self.batch)
        } else {
            count_trials(&mut self.file)
        };
        counted(&mut self.faults, answer)
    }

    fn head(&mut self, alloc: Global, trial: u32) -> Result<Option<Head>, KeepFault> {
        let answer = head_seen(alloc, &mut self.file, &self.batch, trial);
        counted(&mut self.faults, answer)
    }

    fn page(&mut self, alloc: Global, trial: u32, number: u32) -> Result<Option<Page>, KeepFault> {
        let answer = page_seen(alloc, &mut self.file, &self.batch, trial, number);
        counted(&mut self.faults, answer)
    }

    fn content(&mut self, alloc: Global, digest: &Digest) -> Result<Option<Bytes>, KeepFault> {
        let answer = content_seen(alloc, &mut self.file, &self.batch, digest);
        counted(&mut self.faults, answer)
    }

    fn current(&mut self, _alloc: Global, path: &str) -> Result<Option<u32>, KeepFault> {
        let answer = current_seen(&mut self.file, &self.batch, path);
        counted(&mut self.faults, answer)
    }

    /// Opens an empty batch over the trials that the file has.
    fn begin(&mut self, alloc: Global) -> Result<(), KeepFault> {
        self.batch = Batch::new(alloc, 0);
        self.is_open = false;
        let answer = count_trials(&mut self.file);
        let committed = counted(&mut self.faults, answer)?;
        self.batch = Batch::new(alloc, committed);
        self.is_open = true;
        Ok(())
    }

    /// Adds a trial to the batch. Where there are 4,294,967,295 already, that is a fault.
    fn add_trial(&mut self, alloc: Global, head: &Head) -> Result<u32, KeepFault> {
        let answer = add_trial(alloc, &mut self.batch, head);
        counted(&mut self.faults, answer)
    }

    fn add_page(
        &mut self,
        alloc: Global,
        trial: u32,
        number: u32,
        page: &Page,
    ) -> Result<(), KeepFault> {
        let answer = kept(self.batch.add_page(alloc, trial, number, page));
        counted(&mut self.faults, answer)
    }

    fn add_content(
        &mut self,
        alloc: Global,
        digest: &Digest,
        bytes: &[u8],
    ) -> Result<(), KeepFault> {
        let answer = kept(self.batch.add_content(alloc, digest, bytes));
        counted(&mut self.faults, answer)
    }

    fn set_current(&mut self, alloc: Global, path: &str, trial: u32) -> Result<(), KeepFault> {
        let answer = kept(self.batch.set_current(alloc, path, trial));
        counted(&mut self.faults, answer)
    }

    /// Writes the batch in one transaction. A key of the batch that is in the file already is a fault, but for the
    /// path of a current trial. After an `Err` the batch stays open.
    fn commit(&mut self, alloc: Global) -> Result<(), KeepFault> {
        let answer = self.file.perform(Task::Write(&self.batch));
        counted(&mut self.faults, answer)?;
        self.batch = Batch::new(alloc, 0);
        self.is_open = false;
        Ok(())
    }

    fn undo(&mut self, alloc: Global) -> Result<(), KeepFault> {
        self.batch = Batch::new(alloc, 0);
        self.is_open = false;
        counted(&mut self.faults, Ok(()))
    }
}

// How many trials there are with those of a batch.
fn trials_with(batch: &Batch) -> Result<u32, KeepFault>
    ensures { IfOk result (λ trials. trials ≡ batch.now.committed + batch.now.added) }
{
    match batch.committed.checked_add(batch.added) {
        Some(trials) => Ok(trials),
        None => Err(KeepFault::Failed),
    }
}

// The head of the batch, or else that of the file.
fn head_seen(
    alloc: Global,
    file: &mut StoreFile<'_>,
    batch: &Batch,
    trial: u32,
) -> Result<Option<Head>, KeepFault>
    ensures { IfSome (last_head batch.now.heads trial) (λ head. IfOk result (λ answer. answer ≡ Some head)) }
{
    match batch.head(trial) {
        Some(head) => Ok(Some(head.copied(alloc)?)),
        None => read_head(file, trial),
    }
}

// The page of the batch, or else that of the file.
fn page_seen(
    alloc: Global,
    file: &mut StoreFile<'_>,
    batch: &Batch,
    trial: u32,
    number: u32,
) -> Result<Option<Page>, KeepFault>
    ensures { IfSome (last_page batch.now.pages trial number) (λ page. IfOk result (λ answer. answer ≡ Some page)) }
{
    match batch.page(trial, number) {
        Some(page) => Ok(Some(page.copied(alloc)?)),
        None => read_page(file, trial, number),
    }
}

// The content of the batch, or else that of the file.
fn content_seen(
    alloc: Global,
    file: &mut StoreFile<'_>,
    batch: &Batch,
    digest: &Digest,
) -> Result<Option<Bytes>, KeepFault>
    ensures { IfSome (last_content batch.now.contents digest.now) (λ bytes. IfOk result (λ answer. answer ≡ Some bytes)) }
{
    match batch.content(digest) {
        Some(bytes) => Ok(Some(copied_bytes(alloc, bytes.as_slice())?)),
        None => read_content(file, digest),
    }
}

// The current trial of the batch, or else that of the file.
fn current_seen(
    file: &mut StoreFile<'_>,
    batch: &Batch,
    path: &str,
) -> Result<Option<u32>, KeepFault>
    ensures { IfSome (last_current batch.now.current path.now) (λ trial. result ≡ Ok (Some trial)) }
{
    match batch.current(path) {
        Some(trial) => Ok(Some(trial)),
        None => read_current(file, path),
    }
}

// Adds a trial to a batch, where there is room for its number.
fn add_trial(alloc: Global, batch: &mut Batch, head: &Head) -> Result<u32, KeepFault> {
    if u64::from(batch.committed) + u64::from(batch.added) < MOST_TRIALS {
        Ok(batch.add_trial(alloc, head)?)
    } else {
        Err(KeepFault::Failed)
    }
}

// The answer of a batch, whose only refusal is out of memory.
fn kept(answer: Result<(), Memory>) -> Result<(), KeepFault> {
    Ok(answer?)
}
