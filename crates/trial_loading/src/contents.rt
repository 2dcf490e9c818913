// What a trial's head and records name, read.
ghost use Rattle.std.specs.Prelude.{◌≡◌, [], IfSome};
ghost use Rattle.prov_outside.specs.Tells.{Tells};
ghost use Rattle.keeper.specs.Keeping.{AreKept, LeavesAmong};
ghost use Rattle.trial_tables.specs.Causes.{Causes};
ghost use Rattle.trial_tables.specs.Found.{Finds};
ghost use Rattle.trial_tables.specs.ReadFault.{has_failed};
ghost use Rattle.trial_tables.specs.Whole.{fine, and_then};
ghost use Rattle.trial_keeping.specs.RecordFits.{CaptureFits};
ghost use Rattle.trial_loading.specs.Checks.{filled};
ghost use Rattle.trial_loading.specs.Rest.{capture_in, contents_in, finals_in};

use crate::answers::keep_answers;
use crate::files::keep_files;
use crate::finals::read_final_files;
use crate::records::Records;
use capture::{Capture, FileOut};
use keeper::{Head, Keeper};
use prov_base::Bytes;
use std::alloc::Global;
use std::marker::Model;
use trial_keeping::{CaptureRecord, FinalRecord, lists_are_in_order};
use trial_tables::{ReadFault, content};

/// The output of a run, what the devices gave, and the files that it left.
#[derive(Drop)]
pub(crate) struct Contents {
    /// What it printed.
    pub(crate) output: Bytes,
    /// What the devices gave.
    pub(crate) capture: Capture,
    /// The files that it left.
    pub(crate) finals: Vec<FileOut>,
}

impl Model for Contents {
    ghost use Rattle.trial_loading.specs.Rest.{ContentsView};

    ghost Value = { ContentsView };

    ghost view = { λ c. record { output = c.output; capture = c.capture; finals = c.finals.items } };
}

/// Fills an empty capture by the record. After an `Err` it may hold anything of it.
fn put_kept<K: Keeper>(
    alloc: Global,
    keeper: &mut K,
    capture: &mut Capture,
    kept: &CaptureRecord,
) -> Result<(), ReadFault>
    requires kept { IfSome (K.told keeper.old) (AreKept (K.is_open keeper.old)) }
    requires fit { CaptureFits kept.now }
    requires empty { capture.old ≡ record { answers = []; files = []; written = [] } }
    ensures finds { Tells (K.told keeper.old) (K.told keeper.new) (Finds (λ tables. capture_in tables kept.now) (filled capture.new result)) }
    ensures kept { IfSome (K.told keeper.new) (AreKept (K.is_open keeper.new)) }
    ensures stops { Tells (K.told keeper.old) (K.told keeper.new) (λ _ _. LeavesAmong (K.may_leave keeper.old) (K.may_leave keeper.new)) }
    ensures batch { K.is_open keeper.new ≡ K.is_open keeper.old }
    ensures cause { Causes (has_failed result) (K.faults keeper.old) (K.faults keeper.new) }
{
    lists_are_in_order();
    if keep_answers(alloc, capture, kept.answers()).is_err() {
        return Err(ReadFault::Memory);
    }
    keep_files(alloc, keeper, capture, kept.files())
}

/// What the devices gave, by its record.
fn fill_capture<K: Keeper>(
    alloc: Global,
    keeper: &mut K,
    kept: &CaptureRecord,
) -> Result<Capture, ReadFault>
    requires kept { IfSome (K.told keeper.old) (AreKept (K.is_open keeper.old)) }
    requires fit { CaptureFits kept.now }
    ensures finds { Tells (K.told keeper.old) (K.told keeper.new) (Finds (λ tables. capture_in tables kept.now) result) }
    ensures kept { IfSome (K.told keeper.new) (AreKept (K.is_open keeper.new)) }
    ensures stops { Tells (K.told keeper.old) (K.told keeper.new) (λ _ _. LeavesAmong (K.may_leave keeper.old) (K.may_leave keeper.new)) }
    ensures batch { K.is_open keeper.new ≡ K.is_open keeper.old }
    ensures cause { Causes (has_failed result) (K.faults keeper.old) (K.faults keeper.new) }
{
    let Ok(mut capture) = Capture::new(alloc) else {
        return Err(ReadFault::Memory);
    };
    match put_kept(alloc, keeper, &mut capture, kept) {
        Ok(()) => Ok(capture),
        Err(fault) => Err(fault),
    }
}

/// The output and what the devices gave, with the files that the run left.
fn with_finals<K: Keeper>(
    alloc: Global,
    keeper: &mut K,
    output: Bytes,
    capture: Capture,
    files: &[FinalRecord],
) -> Result<Contents, ReadFault>
    requires kept { IfSome (K.told keeper.old) (AreKept (K.is_open keeper.old)) }
    ensures finds { Tells (K.told keeper.old) (K.told keeper.new) (Finds (λ tables. and_then (finals_in tables files.now) (λ finals. fine (record { output = output; capture = capture; finals = finals }))) result) }
    ensures kept { IfSome (K.told keeper.new) (AreKept (K.is_open keeper.new)) }
    ensures stops { Tells (K.told keeper.old) (K.told keeper.new) (λ _ _. LeavesAmong (K.may_leave keeper.old) (K.may_leave keeper.new)) }
    ensures batch { K.is_open keeper.new ≡ K.is_open keeper.old }
    ensures cause { Causes (has_failed result) (K.faults keeper.old) (K.faults keeper.new) }
{
    match read_final_files(alloc, keeper, files) {
        Ok(finals) => Ok(Contents {
            output,
            capture,
            finals,
        }),
        Err(fault) => Err(fault),
    }
}

/// What a head and its records name: the output, the files that were found, and the files that the run left, in this order.
pub(crate) fn read_contents<K: Keeper>(
    alloc: Global,
    keeper: &mut K,
    head: &Head,
    records: &Records,
) -> Result<Contents, ReadFault>
    requires fit { CaptureFits records.now.kept }
    ensures finds { Tells (K.told keeper.old) (K.told keeper.new) (Finds (λ tables. contents_in tables head.now records.now) result) }
    ensures kept { IfSome (K.told keeper.new) (AreKept (K.is_open keeper.new)) }
    ensures stops { Tells (K.told keeper.old) (K.told keeper.new) (λ _ _. LeavesAmong (K.may_leave keeper.old) (K.may_leave keeper.new)) }
    ensures batch { K.is_open keeper.new ≡ K.is_open keeper.old }
    ensures cause { Causes (has_failed result) (K.faults keeper.old) (K.faults keeper.new) }
{
    let output = match content(alloc, keeper, &head.output) {
        Ok(output) => output,
        Err(fault) => return Err(fault),
    };
    match fill_capture(alloc, keeper, &records.capture) {
        Ok(capture) => with_finals(alloc, keeper, output, capture, records.finals.as_slice()),
        Err(fault) => Err(fault),
    }
}
