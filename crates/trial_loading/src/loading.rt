// A kept trial, loaded stage by stage.
ghost use Rattle.std.specs.Prelude.{◌≡◌, IfErr, IfOk, IfSome};
ghost use Rattle.prov_outside.specs.Tells.{Tells};
ghost use Rattle.py_tree.specs.Erasure.{script_of as tree_of};
ghost use Rattle.keeper.specs.Keeping.{AreKept, LeavesAmong};
ghost use Rattle.row_checks.specs.KeptRows.{AreKeptRows};
ghost use Rattle.trial_tables.specs.Causes.{Causes};
ghost use Rattle.trial_keeping.specs.Fault.{has_failed};
ghost use Rattle.trial_loading.specs.Loading.{IsInForm, IsOfLoading, IsTrial, Loads};
ghost use Rattle.trial_loading.specs.Stages.{IsOfStage, LoadsFrom};

use crate::behind::read_behind;
use crate::faults::{fault_of, refusal_of};
use crate::script::script_of;
use crate::trial::{Trial, trial_of};
use keeper::{Head, Keeper};
use prov_base::Bytes;
use py_parser::read_script;
use py_tree::drop_script;
use std::alloc::Global;
use trial_keeping::{TrialFault, head};

/// The trial with this head and this text: first its script, and then what stands behind it.
fn load_from<K: Keeper>(
    alloc: Global,
    keeper: &mut K,
    number: u32,
    head: Head,
    text: Bytes,
) -> Result<Trial, TrialFault>
    requires kept { IfSome (K.told keeper.old) (AreKept (K.is_open keeper.old)) }
    ensures loads { Tells (K.told keeper.old) (K.told keeper.new) (LoadsFrom number head text result) }
    ensures in_form { IfOk result (λ trial. IsInForm (tree_of trial.script)) }
    ensures stand { IfOk result (λ trial. AreKeptRows trial.script.count trial.rows) }
    ensures is_trial { IfOk result (IsTrial number) }
    ensures of_stage { IfErr result (IsOfStage number) }
    ensures kept { IfSome (K.told keeper.new) (AreKept (K.is_open keeper.new)) }
    ensures stops { Tells (K.told keeper.old) (K.told keeper.new) (λ _ _. LeavesAmong (K.may_leave keeper.old) (K.may_leave keeper.new)) }
    ensures batch { K.is_open keeper.new ≡ K.is_open keeper.old }
    ensures cause { Causes (has_failed result) (K.faults keeper.old) (K.faults keeper.new) }
{
    let script = match read_script(alloc, text.as_slice()) {
        Ok(script) => script,
        Err(refusal) => return Err(refusal_of(number, refusal)),
    };
    match read_behind(alloc, keeper, number, &head, script.count) {
        Ok(behind) => Ok(trial_of(number, head, text, script, behind)),
        Err(fault) => {
            drop_script(script);
            Err(fault_of(number, fault))
        }
    }
}

/// The trial with this number, which counts from 1, with all that was kept of it. `NoTrial` comes exactly where there is none, and `Damaged` exactly
/// where it is not well kept: it names what is amiss first in the order path, script, arguments, capture, final files, output, files that were found by
/// path, bytes of the final files, pages by number. `Keeper` comes where the keeper failed, `Memory` where memory ran out.
pub fn load_trial<K: Keeper>(
    alloc: Global,
    keeper: &mut K,
    number: u32,
) -> Result<Trial, TrialFault>
    ensures loads { Tells (K.told keeper.old) (K.told keeper.new) (Loads number result) }
    ensures in_form { IfOk result (λ trial. IsInForm (tree_of trial.script)) }
    ensures stand { IfOk result (λ trial. AreKeptRows trial.script.count trial.rows) }
    ensures is_trial { IfOk result (IsTrial number) }
    ensures of_loading { IfErr result (IsOfLoading number) }
    ensures kept { IfSome (K.told keeper.new) (AreKept (K.is_open keeper.new)) }
    ensures stops { Tells (K.told keeper.old) (K.told keeper.new) (λ _ _. LeavesAmong (K.may_leave keeper.old) (K.may_leave keeper.new)) }
    ensures batch { K.is_open keeper.new ≡ K.is_open keeper.old }
    ensures cause { Causes (has_failed result) (K.faults keeper.old) (K.faults keeper.new) }
{
    let found = match head(alloc, keeper, number) {
        Ok(found) => found,
        Err(fault) => return Err(fault),
    };
    match script_of(alloc, keeper, &found) {
        Ok(text) => load_from(alloc, keeper, number, found, text),
        Err(fault) => Err(fault_of(number, fault)),
    }
}
