// The laws of the program: public functions without a body, whose contracts are the laws.
ghost use Rattle.std.specs.Prelude.{◌≡◌, ◌⊎◌, ℕ, List, Some};
ghost use Rattle.keeper.specs.Keeping.{KeeperView};
ghost use Rattle.keeper.specs.Tables.{TablesView};
ghost use Rattle.now_top.specs.Calls.{Calls};
ghost use Rattle.now_top.specs.Kept.{Stored, tables_told};
ghost use Rattle.now_top.specs.Replies.{Replies};
ghost use Rattle.now_top.specs.Seen.{Seen};
ghost use Rattle.now_words.specs.Command.{command_of, reads, run_kept};
ghost use Rattle.now_words.specs.declared.command.Evaluation.{Evaluation as OneEvaluation};
ghost use Rattle.now_words.specs.declared.command.Query.{Query as Question};
ghost use Rattle.now_words.specs.declared.command.Query.TheVariants.{Slice, Replay};
ghost use Rattle.py_model.specs.Capture.{Telling};
ghost use Rattle.trial_tables.specs.Written.{next_trial};
ghost use Rattle.headline.specs.Headline.{AsksNoOther, GivesTheValue, WritesSliceThatRuns};

use now_top::{
    keeps_trial, replies_by_tables, stores_have_trials_of_runs, writes_replay, writes_slice,
};
use replays::replayed_slices_give_the_value;
use sound_trials::{
    kept_trials_are_sound, recorded_runs_are_never_damaged, slices_of_kept_trials_run_again,
};

/// The law of the program. `run FILE` came to a status of a run, and kept it as a trial. Then come any calls of the program, and then `slice` of that trial with status 0. What
/// it has written is the script cut to the least set of statements that the value depends on, and the script without the others, run in what the devices gave, gives an
/// equal value at the same occurrence, in no more steps. The store exposes its tables as the first call begins and ends, and as the last one does.
pub fn written_slices_run_again()
    ensures { (words : List (List ℕ)) (before after : Seen) (was is : Stored) (status : ℕ) → Replies words before after was is status → (steps : ℕ) (file : List ℕ) (arguments : List (List ℕ))
        → command_of words ≡ Some (run_kept steps file arguments) → (status ≡ 0) ⊎ ((status ≡ 1) ⊎ (status ≡ 9)) → (at : Stored) → Calls is at
        → (asking : List (List ℕ)) (seen shown : Seen) (end : Stored) → Replies asking seen shown at end 0 → (of : OneEvaluation) → command_of asking ≡ Some (reads (Slice of))
        → (old new : KeeperView) (tables : TablesView) → was.told ≡ Some old → is.told ≡ Some new → tables_told at end ≡ Some tables → of.trial ≡ next_trial old.committed
        → (ends : Telling) → WritesSliceThatRuns of tables ends seen shown }
{
    keeps_trial();
    stores_have_trials_of_runs();
    writes_slice();
    kept_trials_are_sound();
    slices_of_kept_trials_run_again();
}

/// The law of replays. `run FILE` came to a status of a run, and kept it as a trial. Then come any calls of the program, and then `replay` of an evaluation of that trial. With status 0
/// it has written the graph text that the evaluation has in the trial, which is what `value` writes, and no more steps than the trial spent up to it. It never comes to
/// status 12: the run of the slice has the evaluation. The store exposes its tables as in the law above.
pub fn replays_give_the_value()
    ensures value { (words : List (List ℕ)) (before after : Seen) (was is : Stored) (status : ℕ) → Replies words before after was is status → (steps : ℕ) (file : List ℕ) (arguments : List (List ℕ))
        → command_of words ≡ Some (run_kept steps file arguments) → (status ≡ 0) ⊎ ((status ≡ 1) ⊎ (status ≡ 9)) → (at : Stored) → Calls is at
        → (asking : List (List ℕ)) (seen shown : Seen) (end : Stored) → Replies asking seen shown at end 0 → (of : OneEvaluation) → command_of asking ≡ Some (reads (Replay of))
        → (old new : KeeperView) (tables : TablesView) → was.told ≡ Some old → is.told ≡ Some new → tables_told at end ≡ Some tables → of.trial ≡ next_trial old.committed
        → (ends : Telling) → GivesTheValue of tables ends seen shown }
    ensures reached { (words : List (List ℕ)) (before after : Seen) (was is : Stored) (status : ℕ) → Replies words before after was is status → (steps : ℕ) (file : List ℕ) (arguments : List (List ℕ))
        → command_of words ≡ Some (run_kept steps file arguments) → (status ≡ 0) ⊎ ((status ≡ 1) ⊎ (status ≡ 9)) → (at : Stored) → Calls is at
        → (asking : List (List ℕ)) (seen shown : Seen) (end : Stored) → Replies asking seen shown at end 12 → (of : OneEvaluation) → command_of asking ≡ Some (reads (Replay of))
        → (old new : KeeperView) (tables : TablesView) → was.told ≡ Some old → is.told ≡ Some new → tables_told at end ≡ Some tables → of.trial ≡ next_trial old.committed
        → ⊥ }
{
    keeps_trial();
    stores_have_trials_of_runs();
    writes_replay();
    replies_by_tables();
    kept_trials_are_sound();
    slices_of_kept_trials_run_again();
    replayed_slices_give_the_value();
}

/// The law of damage. `run FILE` came to a status of a run, and kept it as a trial. Then come any calls of the program, and then a command that reads the store and asks for
/// that trial, or for none: `list`, `history`, `show`, `dataflow`, `slice`, `value`, `replay`, `sources` or `effects`. It never comes to status 11: nothing is amiss of the
/// trial. The store exposes its tables as in the laws above.
pub fn kept_trials_are_never_damaged()
    ensures { (words : List (List ℕ)) (before after : Seen) (was is : Stored) (status : ℕ) → Replies words before after was is status → (steps : ℕ) (file : List ℕ) (arguments : List (List ℕ))
        → command_of words ≡ Some (run_kept steps file arguments) → (status ≡ 0) ⊎ ((status ≡ 1) ⊎ (status ≡ 9)) → (at : Stored) → Calls is at
        → (asking : List (List ℕ)) (seen shown : Seen) (end : Stored) → Replies asking seen shown at end 11 → (query : Question) → command_of asking ≡ Some (reads query)
        → (old new : KeeperView) (tables : TablesView) → was.told ≡ Some old → is.told ≡ Some new → tables_told at end ≡ Some tables → AsksNoOther (next_trial old.committed) query
        → ⊥ }
{
    keeps_trial();
    stores_have_trials_of_runs();
    replies_by_tables();
    recorded_runs_are_never_damaged();
}
