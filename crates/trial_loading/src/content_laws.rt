// That what was kept of a run is read back.
ghost use Rattle.std.specs.Prelude.{◌≡◌};
ghost use Rattle.keeper.specs.Tables.{TablesView};
ghost use Rattle.trial_tables.specs.Written.{put};
ghost use Rattle.trial_keeping.specs.Trial.{Run, with_trial_of};
ghost use Rattle.trial_loading.specs.ReadBack.{CanBeRead, IsKeptAndRead};

/// The law of reading back: where a run's trial is kept, its head stands under the next number, and what is read under that head is the run.
pub fn kept_trials_are_read_back()
    ensures { (run : Run) (before after : TablesView) → CanBeRead run → with_trial_of run before ≡ put after → IsKeptAndRead run before after }
{}
