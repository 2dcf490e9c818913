// The records of a kept trial, read.
ghost use Rattle.std.specs.Prelude.{◌≡◌, IfOk, IfSome};
ghost use Rattle.prov_outside.specs.Tells.{Tells};
ghost use Rattle.keeper.specs.Keeping.{AreKept, LeavesAmong};
ghost use Rattle.trial_tables.specs.Causes.{Causes};
ghost use Rattle.trial_tables.specs.ReadFault.{has_failed};
ghost use Rattle.trial_keeping.specs.RecordBytes.{arguments_bytes, finals_bytes};
ghost use Rattle.trial_keeping.specs.RecordFits.{ArgumentsFit, CaptureFits, FinalsFit};
ghost use Rattle.trial_keeping.specs.RecordFaults.{kept_bytes, IsBadArguments, IsBadCapture, AreBadFinals};
ghost use Rattle.trial_loading.specs.Checks.{Answers, IsRecordIn};
ghost use Rattle.trial_loading.specs.Faults.{of_record};
ghost use Rattle.trial_loading.specs.Rest.{AreRecords};

use keeper::{Head, Keeper};
use prov_base::{Digest, Names};
use std::alloc::Global;
use std::marker::Model;
use trial_keeping::{
    CaptureRecord, FinalRecords, RecordFault, decode_arguments, decode_capture, decode_finals,
};
use trial_tables::{Damage, ReadFault, content};

/// The fault of a record under a digest.
fn fault_of(digest: &Digest, fault: RecordFault) -> ReadFault
    ensures { result ≡ of_record digest.now fault }
{
    match fault {
        RecordFault::BadRecord(byte) => ReadFault::Damaged(Damage::RecordAt {
            digest: *digest,
            byte,
        }),
        RecordFault::Memory => ReadFault::Memory,
    }
}

/// The arguments whose record stands under a digest.
pub(crate) fn read_arguments<K: Keeper>(
    alloc: Global,
    keeper: &mut K,
    digest: &Digest,
) -> Result<Names, ReadFault>
    ensures answers { Tells (K.told keeper.old) (K.told keeper.new) (Answers (λ tables. IsRecordIn arguments_bytes ArgumentsFit IsBadArguments tables digest.now) result) }
    ensures kept { IfSome (K.told keeper.new) (AreKept (K.is_open keeper.new)) }
    ensures stops { Tells (K.told keeper.old) (K.told keeper.new) (λ _ _. LeavesAmong (K.may_leave keeper.old) (K.may_leave keeper.new)) }
    ensures batch { K.is_open keeper.new ≡ K.is_open keeper.old }
    ensures cause { Causes (has_failed result) (K.faults keeper.old) (K.faults keeper.new) }
{
    let bytes = match content(alloc, keeper, digest) {
        Ok(bytes) => bytes,
        Err(fault) => return Err(fault),
    };
    match decode_arguments(alloc, bytes.as_slice()) {
        Ok(arguments) => Ok(arguments),
        Err(fault) => Err(fault_of(digest, fault)),
    }
}

/// What the record of a capture keeps that stands under a digest.
pub(crate) fn read_capture<K: Keeper>(
    alloc: Global,
    keeper: &mut K,
    digest: &Digest,
) -> Result<CaptureRecord, ReadFault>
    ensures answers { Tells (K.told keeper.old) (K.told keeper.new) (Answers (λ tables. IsRecordIn kept_bytes CaptureFits IsBadCapture tables digest.now) result) }
    ensures fit { IfOk result CaptureFits }
    ensures kept { IfSome (K.told keeper.new) (AreKept (K.is_open keeper.new)) }
    ensures stops { Tells (K.told keeper.old) (K.told keeper.new) (λ _ _. LeavesAmong (K.may_leave keeper.old) (K.may_leave keeper.new)) }
    ensures batch { K.is_open keeper.new ≡ K.is_open keeper.old }
    ensures cause { Causes (has_failed result) (K.faults keeper.old) (K.faults keeper.new) }
{
    let bytes = match content(alloc, keeper, digest) {
        Ok(bytes) => bytes,
        Err(fault) => return Err(fault),
    };
    match decode_capture(alloc, bytes.as_slice()) {
        Ok(capture) => Ok(capture),
        Err(fault) => Err(fault_of(digest, fault)),
    }
}

/// The final files whose record stands under a digest.
pub(crate) fn read_finals<K: Keeper>(
    alloc: Global,
    keeper: &mut K,
    digest: &Digest,
) -> Result<FinalRecords, ReadFault>
    ensures answers { Tells (K.told keeper.old) (K.told keeper.new) (Answers (λ tables. IsRecordIn finals_bytes FinalsFit AreBadFinals tables digest.now) result) }
    ensures kept { IfSome (K.told keeper.new) (AreKept (K.is_open keeper.new)) }
    ensures stops { Tells (K.told keeper.old) (K.told keeper.new) (λ _ _. LeavesAmong (K.may_leave keeper.old) (K.may_leave keeper.new)) }
    ensures batch { K.is_open keeper.new ≡ K.is_open keeper.old }
    ensures cause { Causes (has_failed result) (K.faults keeper.old) (K.faults keeper.new) }
{
    let bytes = match content(alloc, keeper, digest) {
        Ok(bytes) => bytes,
        Err(fault) => return Err(fault),
    };
    match decode_finals(alloc, bytes.as_slice()) {
        Ok(finals) => Ok(finals),
        Err(fault) => Err(fault_of(digest, fault)),
    }
}

/// The three records of a trial.
#[derive(Drop)]
pub(crate) struct Records {
    /// The arguments.
    pub(crate) arguments: Names,
    /// The answers, and what was found at each path.
    pub(crate) capture: CaptureRecord,
    /// The files that the run left.
    pub(crate) finals: FinalRecords,
}

impl Model for Records {
    ghost use Rattle.trial_loading.specs.Rest.{RecordsView};

    ghost Value = { RecordsView };

    ghost view = { λ r. record { arguments = r.arguments; kept = r.capture; finals = r.finals } };
}

/// The records of a trial: arguments, capture and final files, in this order.
pub(crate) fn read_records<K: Keeper>(
    alloc: Global,
    keeper: &mut K,
    head: &Head,
) -> Result<Records, ReadFault>
    ensures answers { Tells (K.told keeper.old) (K.told keeper.new) (Answers (λ tables. AreRecords tables head.now) result) }
    ensures fit { IfOk result (λ records. CaptureFits records.kept) }
    ensures kept { IfSome (K.told keeper.new) (AreKept (K.is_open keeper.new)) }
    ensures stops { Tells (K.told keeper.old) (K.told keeper.new) (λ _ _. LeavesAmong (K.may_leave keeper.old) (K.may_leave keeper.new)) }
    ensures batch { K.is_open keeper.new ≡ K.is_open keeper.old }
    ensures cause { Causes (has_failed result) (K.faults keeper.old) (K.faults keeper.new) }
{
    let arguments = match read_arguments(alloc, keeper, &head.arguments) {
        Ok(arguments) => arguments,
        Err(fault) => return Err(fault),
    };
    let capture = match read_capture(alloc, keeper, &head.capture) {
        Ok(capture) => capture,
        Err(fault) => return Err(fault),
    };
    match read_finals(alloc, keeper, &head.finals) {
        Ok(finals) => Ok(Records {
            arguments,
            capture,
            finals,
        }),
        Err(fault) => Err(fault),
    }
}
