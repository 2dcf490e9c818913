// The records of a run, and its contents.
ghost use Rattle.std.specs.Prelude.{◌≡◌, IfOk, ◌++◌, map};
ghost use Rattle.content_store.specs.Contents.{digest_of as sha1_digest_of};
ghost use Rattle.trial_keeping.specs.Trial.{found_record, file_record, final_record, found_contents, bytes_of};

use crate::record::{FileRecord, FinalRecord, FoundRecord};
use capture::FileOut;
use prov_base::{Bytes, Digest, Memory, Name};
use prov_outside::Found;
use sha1::Sha1;
use std::alloc::Global;

/// The SHA-1 digest of bytes.
pub(crate) fn digest_of(bytes: &[u8]) -> Digest
    ensures { result ≡ sha1_digest_of bytes.now }
{
    Digest {
        bytes: Sha1::digest(bytes),
    }
}

/// What was found, as a record keeps it.
fn record_of_found(found: &Found) -> FoundRecord
    ensures { result ≡ found_record found.now }
{
    match found {
        Found::Bytes(bytes) => FoundRecord::Content(digest_of(bytes.as_slice())),
        Found::Absent => FoundRecord::Absent,
        Found::TooLarge => FoundRecord::TooLarge,
        Found::Failed => FoundRecord::Failed,
    }
}

/// A copy of a name.
pub(crate) fn copied_name(alloc: Global, name: &str) -> Result<Name, Memory>
    ensures { IfOk result (λ copy. copy ≡ name.now) }
{
    Ok(Name::of(String::from_str(alloc, name)?))
}

/// The record of one file that was asked for.
fn record_of_file(alloc: Global, path: &Name, found: &Found) -> Result<FileRecord, Memory>
    ensures { IfOk result (λ made. made ≡ record { path = path.now; found = found_record found.now }) }
{
    Ok(FileRecord {
        path: copied_name(alloc, path.as_str())?,
        found: record_of_found(found),
    })
}

/// The record of one file that the run left.
fn record_of_final(alloc: Global, file: &FileOut) -> Result<FinalRecord, Memory>
    ensures { IfOk result (λ made. made ≡ final_record file.now) }
{
    Ok(FinalRecord {
        path: copied_name(alloc, file.path.as_str())?,
        digest: digest_of(file.bytes.as_slice()),
    })
}

/// The records of the files that were asked for.
pub(crate) fn file_records(
    alloc: Global,
    files: &[(Name, Found)],
) -> Result<Vec<FileRecord>, Memory>
    ensures { IfOk result (λ made. made.items ≡ map file_record files.now) }
{
    let mut made: Vec<FileRecord> = Vec::new(alloc);
    for file in files {
        let (path, found) = file;
        made.push(record_of_file(alloc, path, found)?)?;
    }
    Ok(made)
}

/// The records of the files that the run left.
pub(crate) fn final_records(alloc: Global, files: &[FileOut]) -> Result<Vec<FinalRecord>, Memory>
    ensures { IfOk result (λ made. made.items ≡ map final_record files.now) }
{
    let mut made: Vec<FinalRecord> = Vec::new(alloc);
    for file in files {
        made.push(record_of_final(alloc, file)?)?;
    }
    Ok(made)
}

/// Puts the bytes of the files that were found behind the contents.
pub(crate) fn push_found<'c>(
    contents: &mut Vec<&'c [u8]>,
    files: &'c [(Name, Found)],
) -> Result<(), Memory>
    ensures { IfOk result (λ _. map (λ bytes. bytes.now) contents.new.items ≡ map (λ bytes. bytes.now) contents.old.items ++ found_contents files.now) }
{
    for file in files {
        if let Found::Bytes(bytes) = &file.1 {
            contents.push(bytes.as_slice())?;
        }
    }
    Ok(())
}

/// Puts the bytes of the files that the run left behind the contents.
pub(crate) fn push_finals<'c>(
    contents: &mut Vec<&'c [u8]>,
    files: &'c [FileOut],
) -> Result<(), Memory>
    ensures { IfOk result (λ _. map (λ bytes. bytes.now) contents.new.items ≡ map (λ bytes. bytes.now) contents.old.items ++ map bytes_of files.now) }
{
    for file in files {
        contents.push(file.bytes.as_slice())?;
    }
    Ok(())
}
