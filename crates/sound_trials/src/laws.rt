// The laws of sound trials: public functions without a body, whose contracts are the laws.
ghost use Rattle.std.specs.Prelude.{◌≡◌, ℕ, Bool, List};
ghost use Rattle.prov_base.specs.declared.place.Pos.{Pos};
ghost use Rattle.py_tree.specs.Erasure.{script_of};
ghost use Rattle.py_model.specs.Capture.{Telling};
ghost use Rattle.py_parser.specs.Reading.{HasScript};
ghost use Rattle.trial_loading.specs.declared.trial.Trial.{Trial as OneTrial};
ghost use Rattle.trial_slice.specs.Sliced.{IsSliceOf};
ghost use Rattle.sound_trials.specs.Sound.{IsSound, RunsAgain};

use py_model::{moments_nest, states_agree_with_moments};
use row_moments::{rows_in_order_are_interned, rows_name_what_stands};
use slice_simulation::slices_of_scripts_reproduce;

/// The law of the slices of sound trials: the slice of an evaluation that `slice` writes is the script cut to a set of statements. The run of the script without the
/// others, in what the devices gave and with the steps that the trial took, gives an equal value at the same occurrence, in no more steps.
pub fn slices_of_sound_trials_run_again()
    ensures { (trial : OneTrial) (ends : Telling) (at : Pos) (k : ℕ) (keep : ℕ → Bool) (text : List ℕ) → IsSound trial ends → HasScript trial.text (script_of trial.script) → IsSliceOf trial at k keep text → RunsAgain trial ends at k text }
{
    rows_name_what_stands();
    rows_in_order_are_interned();
    moments_nest();
    states_agree_with_moments();
    slices_of_scripts_reproduce();
}
