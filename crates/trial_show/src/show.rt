// The text of `show`.
ghost use Rattle.std.specs.Prelude.{◌≡◌, ◌++◌, IfErr, IfOk, IfSome, OnOk};
ghost use Rattle.prov_outside.specs.Tells.{Tells};
ghost use Rattle.keeper.specs.Keeping.{AreKept, LeavesAmong};
ghost use Rattle.trial_tables.specs.Causes.{Causes};
ghost use Rattle.trial_keeping.specs.Fault.{has_failed};
ghost use Rattle.trial_loading.specs.Loading.{IsOfLoading};
ghost use Rattle.trial_show.specs.Shows.{AreLinesOfSome, ShowsTrial, show_bytes};

use crate::arguments::push_arguments;
use crate::contents::{push_finals, push_inputs, push_output};
use crate::functions::push_functions;
use crate::heads::{push_middle, push_opening};
use keeper::Keeper;
use prov_base::{Bytes, Memory};
use std::alloc::Global;
use trial_keeping::TrialFault;
use trial_list::moment_text;
use trial_loading::{Trial, drop_trial, load_trial};

/// Writes the lines of a trial.
fn push_trial(out: &mut Vec<u8>, alloc: Global, trial: &Trial) -> Result<(), Memory>
    ensures { OnOk result (out.new.items ≡ out.old.items ++ show_bytes trial.now) }
{
    let started = moment_text(alloc, trial.head.started)?;
    let ended = moment_text(alloc, trial.head.ended)?;
    push_opening(out, alloc, trial.number, &trial.head)?;
    push_arguments(out, alloc, trial.arguments.as_slice())?;
    push_middle(out, alloc, &trial.head, started.as_str(), ended.as_str())?;
    push_inputs(out, alloc, trial.capture.files())?;
    push_output(out, alloc, &trial.head, trial.output.as_slice())?;
    push_finals(out, alloc, &trial.finals)?;
    push_functions(out, alloc, &trial.script.body, trial.rows.as_slice())
}

/// The lines of a trial.
fn lines_of(alloc: Global, trial: &Trial) -> Result<Bytes, Memory>
    ensures { IfOk result (λ text. text ≡ show_bytes trial.now) }
{
    let mut out: Vec<u8> = Vec::new(alloc);
    push_trial(&mut out, alloc, trial)?;
    Ok(Bytes::of(out))
}

/// The text of the command `show`: the lines of the trial with this number, which counts from 1. `NoTrial` comes exactly where there is none, and
/// `Damaged` exactly where it is not well kept, with what is amiss first. `Keeper` comes where the keeper failed, `Memory` where memory ran out.
pub fn show_text<K: Keeper>(alloc: Global, keeper: &mut K, number: u32) -> Result<Bytes, TrialFault>
    ensures shows { Tells (K.told keeper.old) (K.told keeper.new) (ShowsTrial number result) }
    // also over a keeper that tells nothing
    ensures of_trial { IfOk result (AreLinesOfSome number) }
    ensures of_loading { IfErr result (IsOfLoading number) }
    ensures kept { IfSome (K.told keeper.new) (AreKept (K.is_open keeper.new)) }
    ensures stops { Tells (K.told keeper.old) (K.told keeper.new) (λ _ _. LeavesAmong (K.may_leave keeper.old) (K.may_leave keeper.new)) }
    ensures batch { K.is_open keeper.new ≡ K.is_open keeper.old }
    ensures cause { Causes (has_failed result) (K.faults keeper.old) (K.faults keeper.new) }
{
    let trial = match load_trial(alloc, keeper, number) {
        Ok(trial) => trial,
        Err(fault) => return Err(fault),
    };
    let text = lines_of(alloc, &trial);
    drop_trial(trial);
    match text {
        Ok(text) => Ok(text),
        Err(_) => Err(TrialFault::Memory),
    }
}
