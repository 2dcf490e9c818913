// The three records, read.
ghost use Rattle.std.specs.Prelude.{◌≡◌, ℕ, List, ◌+◌, ◌≤◌, length};
ghost use Rattle.capture.specs.declared.answer.Asked.{Asked as OneAnswer};
ghost use Rattle.trial_keeping.specs.declared.record.FileRecord.{FileRecord as OneFile};
ghost use Rattle.trial_keeping.specs.declared.record.FinalRecord.{FinalRecord as OneFinal};
ghost use Rattle.trial_keeping.specs.RecordBytes.{arguments_bytes, finals_bytes};
ghost use Rattle.trial_keeping.specs.RecordFits.{ArgumentsFit, CaptureFits, FinalsFit};
ghost use Rattle.trial_keeping.specs.RecordFaults.{kept_bytes, IsBadArguments, IsBadCapture, AreBadFinals, IsRecord, Decodes, IsDecodedAs};
ghost use Rattle.trial_keeping.specs.RecordReading.{Ends};

use crate::reading_lists::{read_answers, read_files, read_finals, read_strings};
use crate::record::{CaptureRecord, FinalRecords};
use crate::record_fault::{RecordFault, Stop};
use prov_base::Names;
use std::alloc::Global;

// The place, counted from 0, behind which so many bytes are left.
fn place_of(bytes: &[u8], left: usize) -> u64
    requires { left ≤ length bytes.now }
    ensures { result + left ≡ length bytes.now }
{
    (bytes.len() - left) as u64
}

fn whole_arguments(alloc: Global, bytes: &[u8]) -> Result<Names, Stop>
    ensures { Ends (IsRecord arguments_bytes ArgumentsFit bytes.now) (IsBadArguments bytes.now) result }
{
    let (arguments, rest) = read_strings(alloc, bytes)?;
    if !rest.is_empty() {
        return Err(Stop::Bad(rest.len()));
    }
    Ok(Names::of(arguments))
}

/// The arguments whose record these bytes are. Where they are none's, the place is that of the first count or item that is not so.
pub fn decode_arguments(alloc: Global, bytes: &[u8]) -> Result<Names, RecordFault>
    ensures decodes { Decodes arguments_bytes ArgumentsFit IsBadArguments bytes.now result }
    // Where arguments have this record they are read, unless memory runs out.
    ensures again { (arguments : List (List ℕ)) → IsRecord arguments_bytes ArgumentsFit bytes.now arguments → IsDecodedAs arguments result }
{
    match whole_arguments(alloc, bytes) {
        Ok(arguments) => Ok(arguments),
        Err(Stop::Bad(left)) => Err(RecordFault::BadRecord(place_of(bytes, left))),
        Err(Stop::Memory) => Err(RecordFault::Memory),
    }
}

fn whole_capture(alloc: Global, bytes: &[u8]) -> Result<CaptureRecord, Stop>
    ensures { Ends (IsRecord kept_bytes CaptureFits bytes.now) (IsBadCapture bytes.now) result }
{
    let (answers, rest) = read_answers(alloc, bytes)?;
    let (files, rest) = read_files(alloc, rest)?;
    if !rest.is_empty() {
        return Err(Stop::Bad(rest.len()));
    }
    Ok(CaptureRecord::of(answers, files))
}

/// The capture whose record these bytes are. Where they are none's, the place is that of the first count or item that is not so.
pub fn decode_capture(alloc: Global, bytes: &[u8]) -> Result<CaptureRecord, RecordFault>
    ensures decodes { Decodes kept_bytes CaptureFits IsBadCapture bytes.now result }
    // Where a capture has this record it is read, unless memory runs out.
    ensures again { (kept : List OneAnswer × List OneFile) → IsRecord kept_bytes CaptureFits bytes.now kept → IsDecodedAs kept result }
{
    match whole_capture(alloc, bytes) {
        Ok(kept) => Ok(kept),
        Err(Stop::Bad(left)) => Err(RecordFault::BadRecord(place_of(bytes, left))),
        Err(Stop::Memory) => Err(RecordFault::Memory),
    }
}

fn whole_finals(alloc: Global, bytes: &[u8]) -> Result<FinalRecords, Stop>
    ensures { Ends (IsRecord finals_bytes FinalsFit bytes.now) (AreBadFinals bytes.now) result }
{
    let (finals, rest) = read_finals(alloc, bytes)?;
    if !rest.is_empty() {
        return Err(Stop::Bad(rest.len()));
    }
    Ok(FinalRecords::of(finals))
}

/// The final files whose record these bytes are. Where they are none's, the place is that of the first count or item that is not so.
pub fn decode_finals(alloc: Global, bytes: &[u8]) -> Result<FinalRecords, RecordFault>
    ensures decodes { Decodes finals_bytes FinalsFit AreBadFinals bytes.now result }
    // Where final files have this record they are read, unless memory runs out.
    ensures again { (finals : List OneFinal) → IsRecord finals_bytes FinalsFit bytes.now finals → IsDecodedAs finals result }
{
    match whole_finals(alloc, bytes) {
        Ok(finals) => Ok(finals),
        Err(Stop::Bad(left)) => Err(RecordFault::BadRecord(place_of(bytes, left))),
        Err(Stop::Memory) => Err(RecordFault::Memory),
    }
}
