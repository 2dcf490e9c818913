// The contents of a kept trial besides its script and its rows.
ghost use Rattle.std.specs.Prelude.{◌≡◌, IfSome};
ghost use Rattle.prov_outside.specs.Tells.{Tells};
ghost use Rattle.keeper.specs.Keeping.{AreKept, LeavesAmong};
ghost use Rattle.trial_tables.specs.Causes.{Causes};
ghost use Rattle.trial_tables.specs.ReadFault.{has_failed};
ghost use Rattle.trial_loading.specs.Checks.{Answers};
ghost use Rattle.trial_loading.specs.Rest.{IsRest, rest_with};

use crate::contents::{Contents, read_contents};
use crate::records::{Records, read_records};
use capture::{Capture, FileOut};
use keeper::{Head, Keeper};
use prov_base::{Bytes, Names};
use std::alloc::Global;
use std::marker::Model;
use trial_tables::ReadFault;

/// What a kept trial consists of besides its head, its script and its rows.
#[derive(Drop)]
pub struct Rest {
    /// The script's arguments.
    pub arguments: Names,
    /// What the devices gave: the answers in ascending order of place and number, and what was found at each path. No path is noted as written.
    pub capture: Capture,
    /// What the run printed.
    pub output: Bytes,
    /// The files that the run left, in order of first opening for writing.
    pub finals: Vec<FileOut>,
}

impl Model for Rest {
    ghost use Rattle.trial_loading.specs.Rest.{RestView};

    ghost Value = { RestView };

    ghost view = { λ r. record { arguments = r.arguments; capture = r.capture; output = r.output; finals = r.finals.items } };
}

/// The arguments and what the head and the records name, as one.
fn whole_of(records: Records, contents: Contents) -> Rest
    ensures { result ≡ rest_with records contents }
{
    Rest {
        arguments: records.arguments,
        capture: contents.capture,
        output: contents.output,
        finals: contents.finals,
    }
}

/// The contents of a trial besides its script and its rows: the records of arguments, capture and final files, each there with its digest and well formed, and then
/// the output, the files that were found by path, and the files that the run left, each there with its digest. Damaged as the first of these is
/// that is damaged.
pub fn rest_of<K: Keeper>(alloc: Global, keeper: &mut K, head: &Head) -> Result<Rest, ReadFault>
    ensures answers { Tells (K.told keeper.old) (K.told keeper.new) (Answers (λ tables. IsRest tables head.now) result) }
    ensures kept { IfSome (K.told keeper.new) (AreKept (K.is_open keeper.new)) }
    ensures stops { Tells (K.told keeper.old) (K.told keeper.new) (λ _ _. LeavesAmong (K.may_leave keeper.old) (K.may_leave keeper.new)) }
    ensures batch { K.is_open keeper.new ≡ K.is_open keeper.old }
    ensures cause { Causes (has_failed result) (K.faults keeper.old) (K.faults keeper.new) }
{
    let records = match read_records(alloc, keeper, head) {
        Ok(records) => records,
        Err(fault) => return Err(fault),
    };
    match read_contents(alloc, keeper, head, &records) {
        Ok(contents) => Ok(whole_of(records, contents)),
        Err(fault) => Err(fault),
    }
}
