// The bytes of the three records.
ghost use Rattle.std.specs.Prelude.{◌≡◌, IfOk};
ghost use Rattle.trial_keeping.specs.RecordBytes.{arguments_bytes, capture_bytes, finals_bytes};

use crate::record::{FileRecord, FinalRecord};
use crate::writing::{write_answers, write_files, write_finals, write_strings};
use capture::Asked;
use prov_base::{Bytes, Memory, Name};
use std::alloc::Global;

/// The record of a script's arguments. Out of memory is the one other answer.
pub fn encode_arguments(alloc: Global, arguments: &[Name]) -> Result<Bytes, Memory>
    ensures { IfOk result (λ bytes. bytes ≡ arguments_bytes arguments.now) }
{
    let mut out = Vec::new(alloc);
    write_strings(&mut out, arguments)?;
    Ok(Bytes::of(out))
}

/// The record of a capture: its answers, and what was found at each path. Out of memory is the one other answer.
pub fn encode_capture(
    alloc: Global,
    answers: &[Asked],
    files: &[FileRecord],
) -> Result<Bytes, Memory>
    ensures { IfOk result (λ bytes. bytes ≡ capture_bytes answers.now files.now) }
{
    let mut out = Vec::new(alloc);
    write_answers(&mut out, answers)?;
    write_files(&mut out, files)?;
    Ok(Bytes::of(out))
}

/// The record of final files. Out of memory is the one other answer.
pub fn encode_finals(alloc: Global, finals: &[FinalRecord]) -> Result<Bytes, Memory>
    ensures { IfOk result (λ bytes. bytes ≡ finals_bytes finals.now) }
{
    let mut out = Vec::new(alloc);
    write_finals(&mut out, finals)?;
    Ok(Bytes::of(out))
}
