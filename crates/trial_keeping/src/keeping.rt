// The trial of a run, kept.
ghost use Rattle.std.specs.Prelude.{◌≡◌, false, IfErr, IfSome};
ghost use Rattle.prov_outside.specs.Tells.{Tells};
ghost use Rattle.keeper.specs.Keeping.{AreKept, LeavesAmong};
ghost use Rattle.trial_tables.specs.Causes.{Causes};
ghost use Rattle.trial_keeping.specs.Fault.{has_failed};
ghost use Rattle.trial_keeping.specs.Keeping.{KeepsTrial, IsOfKeeping, ParentAnswers, StopLeaves};

use crate::contents::{contents_of, records_of};
use crate::fault::TrialFault;
use crate::run_head::{Given, head_of};
use capture::Ended;
use keeper::Keeper;
use prov_base::{Bytes, Name};
use std::alloc::Global;
use trial_tables::keep;

/// How many trials a store holds at most.
const FULL_STORE: u32 = 1_000_000;

/// Keeps the trial of a run that is over, in one batch: its contents, of which equal ones are kept once, its head with the trial that was current for its
/// path as its parent, and its pages; it is the current trial of its path then. Answers its number, counted from 1. After an `Err` the tables are as
/// before: where the store has 1,000,000 trials or more, where other bytes stand under a digest, where the keeper failed, or memory ran out.
pub fn keep_trial<K: Keeper>(
    alloc: Global,
    keeper: &mut K,
    text: &[u8],
    path: &str,
    arguments: &[Name],
    budget: u32,
    ended: &Ended,
    pages: &[Bytes],
    times: (Option<i64>, Option<i64>),
) -> Result<u32, TrialFault>
    requires batch { K.is_open keeper.old ≡ false }
    ensures keeps { Tells (K.told keeper.old) (K.told keeper.new) (KeepsTrial
        (record { text = text.now; path = path.now; arguments = arguments.now; budget = budget; ended = ended.now; pages = pages.now; times = times }) result) }
    ensures of_keeping { IfErr result IsOfKeeping }
    ensures stops { Tells (K.told keeper.old) (K.told keeper.new) (StopLeaves
        (record { text = text.now; path = path.now; arguments = arguments.now; budget = budget; ended = ended.now; pages = pages.now; times = times }) result
        (K.may_leave keeper.old) (K.may_leave keeper.new)) }
    ensures kept { IfSome (K.told keeper.new) (AreKept (K.is_open keeper.new)) }
    ensures batch { K.is_open keeper.new ≡ false }
    ensures cause { Causes (has_failed result) (K.faults keeper.old) (K.faults keeper.new) }
{
    let parent = match parent_for(alloc, keeper, path) {
        Ok(parent) => parent,
        Err(fault) => return Err(fault),
    };
    let Ok(count) = u32::try_from(pages.len()) else {
        return Err(TrialFault::Memory);
    };
    let Ok(records) = records_of(alloc, arguments, ended) else {
        return Err(TrialFault::Memory);
    };
    let given = Given {
        text,
        path,
        budget,
        pages: count,
        times,
        parent,
    };
    let Ok(head) = head_of(alloc, &given, &records, ended) else {
        return Err(TrialFault::Memory);
    };
    let Ok(contents) = contents_of(alloc, text, &records, ended) else {
        return Err(TrialFault::Memory);
    };
    match keep(alloc, keeper, contents.as_slice(), &head, pages) {
        Ok(number) => Ok(number),
        Err(fault) => Err(TrialFault::from(fault)),
    }
}

/// The trial that is current for the path, or 0, where the store has room for one more.
fn parent_for<K: Keeper>(alloc: Global, keeper: &mut K, path: &str) -> Result<u32, TrialFault>
    ensures answers { Tells (K.told keeper.old) (K.told keeper.new) (ParentAnswers path.now result) }
    ensures of_keeping { IfErr result IsOfKeeping }
    ensures kept { IfSome (K.told keeper.new) (AreKept (K.is_open keeper.new)) }
    ensures stops { Tells (K.told keeper.old) (K.told keeper.new) (λ _ _. LeavesAmong (K.may_leave keeper.old) (K.may_leave keeper.new)) }
    ensures batch { K.is_open keeper.new ≡ K.is_open keeper.old }
    ensures cause { Causes (has_failed result) (K.faults keeper.old) (K.faults keeper.new) }
{
    let trials = match keeper.trials(alloc) {
        Ok(trials) => trials,
        Err(fault) => return Err(TrialFault::from(fault)),
    };
    if trials >= FULL_STORE {
        return Err(TrialFault::Full);
    }
    match keeper.current(alloc, path) {
        Ok(current) => Ok(current.unwrap_or(0)),
        Err(fault) => Err(TrialFault::from(fault)),
    }
}
