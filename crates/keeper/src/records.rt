// What a keeper keeps: heads of trials and pages.
ghost use Rattle.std.specs.Prelude.{◌≡◌, IfOk};

use prov_base::{Bytes, Digest, Memory, Name};
use std::alloc::Global;

/// A page of a trial's rows, with the digest of its bytes.
#[derive(Drop)]
pub struct Page {
    /// The SHA-1 digest under which the page was kept.
    pub digest: Digest,
    /// The page's bytes.
    pub bytes: Bytes,
}

/// The head of a trial.
#[derive(Drop)]
pub struct Head {
    /// The format of the trial's records and pages.
    pub format: u8,
    /// The language of the script.
    pub language: u8,
    /// The script's path.
    pub path: Name,
    /// The digest of the script's text.
    pub script: Digest,
    /// The digest of the record of arguments.
    pub arguments: Digest,
    /// The digest of the record of captured answers and files.
    pub capture: Digest,
    /// The digest of the printed text.
    pub output: Digest,
    /// The digest of the record of final files.
    pub finals: Digest,
    /// How many steps the run could spend.
    pub budget: u32,
    /// How many steps it spent.
    pub steps: u32,
    /// The status with which the run ended.
    pub status: u8,
    /// How many pages the trial has.
    pub pages: u32,
    /// When the run began, in nanoseconds since 1970, where the clock told it.
    pub started: Option<i64>,
    /// When it ended, likewise.
    pub ended: Option<i64>,
    /// The number of the trial that was current before, or 0 where there was none.
    pub parent: u32,
}

/// A copy of bytes.
pub fn copied_bytes(alloc: Global, bytes: &[u8]) -> Result<Bytes, Memory>
    ensures { IfOk result (λ copy. copy ≡ bytes.now) }
{
    Ok(Bytes::of(Vec::from_slice(alloc, bytes)?))
}

// A copy of a name.
pub(crate) fn copied_name(alloc: Global, name: &str) -> Result<Name, Memory>
    ensures { IfOk result (λ copy. copy ≡ name.now) }
{
    Ok(Name::of(String::from_str(alloc, name)?))
}

impl Page {
    /// A copy of the page.
    pub fn copied(&self, alloc: Global) -> Result<Page, Memory>
        ensures { IfOk result (λ page. page ≡ self.now) }
    {
        Ok(Page {
            digest: self.digest,
            bytes: copied_bytes(alloc, self.bytes.as_slice())?,
        })
    }
}

impl Head {
    /// A copy of the head.
    pub fn copied(&self, alloc: Global) -> Result<Head, Memory>
        ensures { IfOk result (λ head. head ≡ self.now) }
    {
        Ok(Head {
            format: self.format,
            language: self.language,
            path: copied_name(alloc, self.path.as_str())?,
            script: self.script,
            arguments: self.arguments,
            capture: self.capture,
            output: self.output,
            finals: self.finals,
            budget: self.budget,
            steps: self.steps,
            status: self.status,
            pages: self.pages,
            started: self.started,
            ended: self.ended,
            parent: self.parent,
        })
    }
}
