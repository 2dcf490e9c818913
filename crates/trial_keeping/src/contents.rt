// The contents of a run, in the order in which they are put.
ghost use Rattle.std.specs.Prelude.{◌≡◌, IfOk, map};
ghost use Rattle.trial_keeping.specs.RecordBytes.{arguments_bytes};
ghost use Rattle.trial_keeping.specs.Trial.{capture_record, finals_record, contents_from};

use crate::encoding::{encode_arguments, encode_capture, encode_finals};
use crate::records::{file_records, final_records, push_finals, push_found};
use capture::Ended;
use prov_base::{Bytes, Memory, Name};
use std::alloc::Global;

/// The three records of a run.
#[derive(Drop)]
pub(crate) struct Records {
    /// That of its arguments.
    pub(crate) arguments: Bytes,
    /// That of what its devices gave.
    pub(crate) capture: Bytes,
    /// That of the files that it left.
    pub(crate) finals: Bytes,
}

/// The three records of a run.
pub(crate) fn records_of(
    alloc: Global,
    arguments: &[Name],
    ended: &Ended,
) -> Result<Records, Memory>
    ensures { IfOk result (λ made. made ≡ record { arguments = arguments_bytes arguments.now; capture = capture_record ended.now; finals = finals_record ended.now }) }
{
    let files = file_records(alloc, ended.capture.files())?;
    let finals = final_records(alloc, ended.finals.as_slice())?;
    Ok(Records {
        arguments: encode_arguments(alloc, arguments)?,
        capture: encode_capture(alloc, ended.capture.answers(), files.as_slice())?,
        finals: encode_finals(alloc, finals.as_slice())?,
    })
}

/// The contents of a run, with these records.
pub(crate) fn contents_of<'c>(
    alloc: Global,
    text: &'c [u8],
    records: &'c Records,
    ended: &'c Ended,
) -> Result<Vec<&'c [u8]>, Memory>
    requires capture { records.now.capture ≡ capture_record ended.now }
    requires finals { records.now.finals ≡ finals_record ended.now }
    ensures { IfOk result (λ contents. map (λ bytes. bytes.now) contents.items ≡ contents_from text.now records.now.arguments ended.now) }
{
    let mut contents: Vec<&'c [u8]> = Vec::new(alloc);
    contents.push(text)?;
    contents.push(records.arguments.as_slice())?;
    contents.push(records.capture.as_slice())?;
    push_found(&mut contents, ended.capture.files())?;
    push_finals(&mut contents, ended.finals.as_slice())?;
    contents.push(ended.output.as_slice())?;
    contents.push(records.finals.as_slice())?;
    Ok(contents)
}
