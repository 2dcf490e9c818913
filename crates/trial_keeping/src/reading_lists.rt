// Lists of items, read. What begins so many bytes ahead of the end is the first that is not so.
ghost use Rattle.std.specs.Prelude.{◌≡◌, []};
ghost use Rattle.row_words.specs.Bytes.{number_bytes, text_bytes, each_bytes, list_bytes};
ghost use Rattle.row_words.specs.Fits.{IsLong};
ghost use Rattle.trial_keeping.specs.RecordBytes.{answer_bytes, file_bytes, final_bytes};
ghost use Rattle.trial_keeping.specs.RecordFits.{IsListOf, MayFollow, MayAnswer, MayBeFound, MayBeFinal};
ghost use Rattle.trial_keeping.specs.RecordFaults.{IsNone, IsBadItem, IsBadList};
ghost use Rattle.trial_keeping.specs.RecordReading.{AreSoMany, Leads};

use crate::reading_items::{next_answer, next_file, next_final};
use crate::record::{FileRecord, FinalRecord};
use crate::record_fault::Stop;
use capture::Asked;
use prov_base::Name;
use row_words::{ReadFault, read_number, read_text};
use std::alloc::Global;

// The count of a list.
fn read_count(bytes: &[u8]) -> Result<(u64, &[u8]), Stop>
    ensures { Leads number_bytes IsLong (IsNone number_bytes IsLong) (λ x. (x.0, x.1.now)) bytes.now result }
{
    match read_number(bytes) {
        Ok((count, rest)) => Ok((count, rest)),
        Err(ReadFault::Bad) => Err(Stop::Bad(bytes.len())),
        Err(ReadFault::Memory) => Err(Stop::Memory),
    }
}

// The next string.
fn string_at(alloc: Global, bytes: &[u8]) -> Result<(Name, &[u8]), Stop>
    ensures { Leads text_bytes (MayFollow []) (IsNone text_bytes (MayFollow [])) (λ x. (x.0, x.1.now)) bytes.now result }
{
    match read_text(alloc, bytes) {
        Ok((string, rest)) => Ok((string, rest)),
        Err(ReadFault::Bad) => Err(Stop::Bad(bytes.len())),
        Err(ReadFault::Memory) => Err(Stop::Memory),
    }
}

// So many strings. No room is reserved by the count, which may be any number.
fn each_string(alloc: Global, count: u64, bytes: &[u8]) -> Result<(Vec<Name>, &[u8]), Stop>
    ensures { Leads (each_bytes text_bytes) (AreSoMany MayFollow count) (IsBadItem text_bytes MayFollow count) (λ x. (x.0.items, x.1.now)) bytes.now result }
{
    let mut strings = Vec::new(alloc);
    let mut rest = bytes;
    for _ in 0..count {
        let (string, after) = string_at(alloc, rest)?;
        strings.push(string)?;
        rest = after;
    }
    Ok((strings, rest))
}

/// The list of strings at the front.
pub(crate) fn read_strings(alloc: Global, bytes: &[u8]) -> Result<(Vec<Name>, &[u8]), Stop>
    ensures { Leads (list_bytes text_bytes) (IsListOf MayFollow) (IsBadList text_bytes MayFollow) (λ x. (x.0.items, x.1.now)) bytes.now result }
{
    let (count, rest) = read_count(bytes)?;
    each_string(alloc, count, rest)
}

// The next answer, which stands behind those before.
fn answer_behind<'a>(
    alloc: Global,
    before: &[Asked],
    bytes: &'a [u8],
) -> Result<(Asked, &'a [u8]), Stop>
    ensures { Leads answer_bytes (MayAnswer before.now) (IsNone answer_bytes (MayAnswer before.now)) (λ x. (x.0, x.1.now)) bytes.now result }
{
    match next_answer(alloc, before, bytes) {
        Ok((asked, rest)) => Ok((asked, rest)),
        Err(ReadFault::Bad) => Err(Stop::Bad(bytes.len())),
        Err(ReadFault::Memory) => Err(Stop::Memory),
    }
}

// So many answers.
fn each_answer(alloc: Global, count: u64, bytes: &[u8]) -> Result<(Vec<Asked>, &[u8]), Stop>
    ensures { Leads (each_bytes answer_bytes) (AreSoMany MayAnswer count) (IsBadItem answer_bytes MayAnswer count) (λ x. (x.0.items, x.1.now)) bytes.now result }
{
    let mut answers = Vec::new(alloc);
    let mut rest = bytes;
    for _ in 0..count {
        let (asked, after) = answer_behind(alloc, answers.as_slice(), rest)?;
        answers.push(asked)?;
        rest = after;
    }
    Ok((answers, rest))
}

/// The list of answers at the front.
pub(crate) fn read_answers(alloc: Global, bytes: &[u8]) -> Result<(Vec<Asked>, &[u8]), Stop>
    ensures { Leads (list_bytes answer_bytes) (IsListOf MayAnswer) (IsBadList answer_bytes MayAnswer) (λ x. (x.0.items, x.1.now)) bytes.now result }
{
    let (count, rest) = read_count(bytes)?;
    each_answer(alloc, count, rest)
}

// The next file, of which the path stands behind those before.
fn file_behind<'a>(
    alloc: Global,
    before: &[FileRecord],
    bytes: &'a [u8],
) -> Result<(FileRecord, &'a [u8]), Stop>
    ensures { Leads file_bytes (MayBeFound before.now) (IsNone file_bytes (MayBeFound before.now)) (λ x. (x.0, x.1.now)) bytes.now result }
{
    match next_file(alloc, before, bytes) {
        Ok((file, rest)) => Ok((file, rest)),
        Err(ReadFault::Bad) => Err(Stop::Bad(bytes.len())),
        Err(ReadFault::Memory) => Err(Stop::Memory),
    }
}

// So many files.
fn each_file(alloc: Global, count: u64, bytes: &[u8]) -> Result<(Vec<FileRecord>, &[u8]), Stop>
    ensures { Leads (each_bytes file_bytes) (AreSoMany MayBeFound count) (IsBadItem file_bytes MayBeFound count) (λ x. (x.0.items, x.1.now)) bytes.now result }
{
    let mut files = Vec::new(alloc);
    let mut rest = bytes;
    for _ in 0..count {
        let (file, after) = file_behind(alloc, files.as_slice(), rest)?;
        files.push(file)?;
        rest = after;
    }
    Ok((files, rest))
}

/// The list of files at the front.
pub(crate) fn read_files(alloc: Global, bytes: &[u8]) -> Result<(Vec<FileRecord>, &[u8]), Stop>
    ensures { Leads (list_bytes file_bytes) (IsListOf MayBeFound) (IsBadList file_bytes MayBeFound) (λ x. (x.0.items, x.1.now)) bytes.now result }
{
    let (count, rest) = read_count(bytes)?;
    each_file(alloc, count, rest)
}

// The next final file, of which the path is none of those before.
fn final_behind<'a>(
    alloc: Global,
    before: &[FinalRecord],
    bytes: &'a [u8],
) -> Result<(FinalRecord, &'a [u8]), Stop>
    ensures { Leads final_bytes (MayBeFinal before.now) (IsNone final_bytes (MayBeFinal before.now)) (λ x. (x.0, x.1.now)) bytes.now result }
{
    match next_final(alloc, before, bytes) {
        Ok((written, rest)) => Ok((written, rest)),
        Err(ReadFault::Bad) => Err(Stop::Bad(bytes.len())),
        Err(ReadFault::Memory) => Err(Stop::Memory),
    }
}

// So many final files.
fn each_final(alloc: Global, count: u64, bytes: &[u8]) -> Result<(Vec<FinalRecord>, &[u8]), Stop>
    ensures { Leads (each_bytes final_bytes) (AreSoMany MayBeFinal count) (IsBadItem final_bytes MayBeFinal count) (λ x. (x.0.items, x.1.now)) bytes.now result }
{
    let mut finals = Vec::new(alloc);
    let mut rest = bytes;
    for _ in 0..count {
        let (written, after) = final_behind(alloc, finals.as_slice(), rest)?;
        finals.push(written)?;
        rest = after;
    }
    Ok((finals, rest))
}

/// The list of final files at the front.
pub(crate) fn read_finals(alloc: Global, bytes: &[u8]) -> Result<(Vec<FinalRecord>, &[u8]), Stop>
    ensures { Leads (list_bytes final_bytes) (IsListOf MayBeFinal) (IsBadList final_bytes MayBeFinal) (λ x. (x.0.items, x.1.now)) bytes.now result }
{
    let (count, rest) = read_count(bytes)?;
    each_final(alloc, count, rest)
}
