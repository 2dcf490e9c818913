// What stands in the records of a trial: digests in place of contents.
use capture::Asked;
use prov_base::{Digest, Name};
use std::marker::Model;

/// What was found at a path, as a record keeps it.
#[derive(Clone, Copy, Debug)]
pub enum FoundRecord {
    /// A file, by the SHA-1 digest of its bytes.
    Content(Digest),
    /// No file.
    Absent,
    /// A file of more than 16,777,216 bytes.
    TooLarge,
    /// A refused call.
    Failed,
}

/// A path, and what was found there.
#[derive(Drop, Debug)]
pub struct FileRecord {
    /// The path.
    pub path: Name,
    /// What was found there.
    pub found: FoundRecord,
}

/// A file that the script opened for writing, as it stood when the run ended.
#[derive(Drop, Debug)]
pub struct FinalRecord {
    /// The path.
    pub path: Name,
    /// The SHA-1 digest of the file's bytes.
    pub digest: Digest,
}

/// What the record of a capture keeps. Contracts see its answers and its files.
#[derive(Drop)]
pub struct CaptureRecord {
    answers: Vec<Asked>,
    files: Vec<FileRecord>,
}

impl Model for CaptureRecord {
    ghost use Rattle.std.specs.Prelude.{List};
    ghost use Rattle.capture.specs.declared.answer.Asked.{Asked};
    ghost use Rattle.trial_keeping.specs.declared.record.FileRecord.{FileRecord};

    ghost Value = { List Asked × List FileRecord };

    ghost view = { λ r. (r.answers.items, r.files.items) };
}

impl CaptureRecord {
    ghost use Rattle.std.specs.Prelude.{◌≡◌};

    /// The record of these answers and files, which are not copied.
    pub fn of(answers: Vec<Asked>, files: Vec<FileRecord>) -> CaptureRecord
        ensures { result ≡ (answers.items, files.items) }
    {
        CaptureRecord { answers, files }
    }

    /// The answers; in ascending order of place and number, where they are read from a record.
    pub fn answers(&self) -> &[Asked]
        ensures { result.now ≡ self.now.0 }
    {
        self.answers.as_slice()
    }

    /// What was found at each path; in ascending order of the paths' bytes, where it is read from a record.
    pub fn files(&self) -> &[FileRecord]
        ensures { result.now ≡ self.now.1 }
    {
        self.files.as_slice()
    }
}

/// A list of final files.
#[derive(Drop, Debug)]
pub struct FinalRecords {
    finals: Vec<FinalRecord>,
}

impl Model for FinalRecords {
    ghost use Rattle.std.specs.Prelude.{List};
    ghost use Rattle.trial_keeping.specs.declared.record.FinalRecord.{FinalRecord};

    ghost Value = { List FinalRecord };

    ghost view = { λ r. r.finals.items };
}

impl FinalRecords {
    ghost use Rattle.std.specs.Prelude.{◌≡◌};

    /// The final files of a vector, which is not copied.
    pub fn of(v: Vec<FinalRecord>) -> FinalRecords
        ensures { result ≡ v.items }
    {
        FinalRecords { finals: v }
    }

    /// The final files, in order of first opening for writing.
    pub fn as_slice(&self) -> &[FinalRecord]
        ensures { result.now ≡ self.now }
    {
        self.finals.as_slice()
    }
}
