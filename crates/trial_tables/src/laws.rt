// What stands in the tables where a trial was kept.
ghost use Rattle.std.specs.Prelude.{◌≡◌, ℕ, List, Some, slice_get};
ghost use Rattle.keeper.specs.declared.records.Head.{Head};
ghost use Rattle.keeper.specs.Tables.{TablesView};
ghost use Rattle.trial_tables.specs.Whole.{fine, page_in};
ghost use Rattle.trial_tables.specs.Written.{put, next_trial, write_in};
ghost use Rattle.trial_tables.specs.Stays.{EarlierStays};

/// The law of pages: each page of a trial that was kept is read back under the trial's number and its own.
pub fn kept_pages_are_read_back()
    ensures { (contents : List (List ℕ)) (head : Head) (pages : List (List ℕ)) (before after : TablesView) → write_in contents head pages before ≡ put after
        → (number : ℕ) (bytes : List ℕ) → slice_get pages number ≡ Some bytes → page_in after (next_trial before) number ≡ fine bytes }
{}

/// The law of earlier trials: what stood before a trial was kept stands afterwards, and the new trial is the current one of its path.
pub fn earlier_trials_stay()
    ensures stays { (contents : List (List ℕ)) (head : Head) (pages : List (List ℕ)) (before after : TablesView) → write_in contents head pages before ≡ put after
        → EarlierStays head.path before after }
    ensures current { (contents : List (List ℕ)) (head : Head) (pages : List (List ℕ)) (before after : TablesView) → write_in contents head pages before ≡ put after
        → after.current head.path ≡ Some (next_trial before) }
{}
