// The laws of the trials of runs that were recorded and kept: public functions without a body, whose contracts are the laws.
ghost use Rattle.std.specs.Prelude.{◌≡◌, ℕ, List, true};
ghost use Rattle.keeper.specs.Tables.{TablesView};
ghost use Rattle.prov_base.specs.Path.{is_path};
ghost use Rattle.prov_base.specs.declared.place.Pos.{Pos};
ghost use Rattle.py_model.specs.Capture.{Telling};
ghost use Rattle.trial_keeping.specs.Trial.{Run, with_trial_of};
ghost use Rattle.trial_loading.specs.Loading.{IsDamaged, IsLoaded};
ghost use Rattle.trial_loading.specs.ReadBack.{CanBeRead};
ghost use Rattle.trial_loading.specs.declared.trial.Trial.{Trial as OneTrial};
ghost use Rattle.trial_slice.specs.Slices.{HasSlice};
ghost use Rattle.trial_tables.specs.Written.{put, next_trial};
ghost use Rattle.trial_tables.specs.declared.damage.Damage.{Damage as OneDamage};
ghost use Rattle.sound_trials.specs.Recorded.{KeptMore, WasRecorded};
ghost use Rattle.sound_trials.specs.Sound.{IsSound, RunsAgain};

use crate::laws::slices_of_sound_trials_run_again;
use kept_trials::{kept_runs_are_never_damaged, runs_open_paths_alone};
use py_parser::one_reading;
use recorded_runs::kept_captures_have_the_run;
use recorder::pages_are_the_rows;
use trace_rows::pages_are_read_one_way;
use trial_keeping::lists_are_in_order;
use trial_loading::kept_trials_are_read_back;

/// The law of kept trials: where a recorded run was kept as a trial, and then or later a trial is loaded under its number, the run can be read back, and the trial is
/// sound. What devices tell at the end of the run does not matter.
pub fn kept_trials_are_sound()
    ensures read { (run : Run) (before after later : TablesView) (trial : OneTrial) → WasRecorded run → with_trial_of run before ≡ put after → KeptMore after later
        → IsLoaded later (next_trial before) trial → CanBeRead run }
    ensures sound { (run : Run) (before after later : TablesView) (trial : OneTrial) (ends : Telling) → WasRecorded run → with_trial_of run before ≡ put after → KeptMore after later
        → IsLoaded later (next_trial before) trial → IsSound trial ends }
{
    kept_captures_have_the_run();
    kept_trials_are_read_back();
    one_reading();
    pages_are_read_one_way();
    pages_are_the_rows();
}

/// The law of the slices of kept trials: where a recorded run was kept as a trial, every slice that the trial has runs again to an equal value at the same occurrence,
/// in no more steps. So it is then, and after more runs were kept.
pub fn slices_of_kept_trials_run_again()
    ensures { (run : Run) (before after later : TablesView) (ends : Telling) (at : Pos) (k : ℕ) (text : List ℕ) → WasRecorded run → with_trial_of run before ≡ put after
        → KeptMore after later → (slice : HasSlice later (next_trial before) at k text) → RunsAgain slice.trial ends at k text }
{
    kept_trials_are_sound();
    slices_of_sound_trials_run_again();
}

/// The law of reading recorded runs: a recorded run whose path is one that a script may open can be read back once it is kept. By the types in which it is held its
/// numbers are in range. By the run its answers are in order, numbered from 1 and given to questions of their kinds, and files have paths that a script may open, each once.
pub fn recorded_runs_can_be_read()
    ensures { (run : Run) → WasRecorded run → is_path run.path ≡ true → CanBeRead run }
{
    kept_captures_have_the_run();
    runs_open_paths_alone();
    lists_are_in_order();
}

/// The law that the trial of a recorded run is never told as damaged, where its path is one that a script may open: nothing is amiss of it under its number, as it is kept
/// and after more runs were kept.
pub fn recorded_runs_are_never_damaged()
    ensures { (run : Run) (before after later : TablesView) → WasRecorded run → is_path run.path ≡ true → with_trial_of run before ≡ put after → KeptMore after later
        → (damage : OneDamage) → IsDamaged later (next_trial before) damage → ⊥ }
{
    recorded_runs_can_be_read();
    kept_captures_have_the_run();
    kept_trials_are_read_back();
    kept_runs_are_never_damaged();
}
