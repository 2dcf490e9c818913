// The laws of the top call: public functions without a body, whose contracts are the laws.
ghost use Rattle.std.specs.Prelude.{◌≡◌, ℕ, true, false, List, ◌⊎◌, Option, None, Some};
ghost use Rattle.now_words.specs.declared.command.Evaluation.{Evaluation as OneEvaluation};
ghost use Rattle.now_words.specs.declared.command.Query.{Query as Question};
ghost use Rattle.now_words.specs.declared.command.Query.TheVariants.{Dataflow, Slice, Value, Replay, Sources, Effects};
ghost use Rattle.delivery.specs.Ending.{status_of};
ghost use Rattle.keeper.specs.Keeping.{KeeperView};
ghost use Rattle.keeper.specs.Tables.{TablesView};
ghost use Rattle.now_words.specs.Command.{Command, run_kept, reads, command_of};
ghost use Rattle.prov_outside.specs.Count.{Rose};
ghost use Rattle.prov_outside.specs.Tells.{Tells};
ghost use Rattle.now_top.specs.Calls.{Calls, HasTrialsOf};
ghost use Rattle.now_top.specs.Completes.{IsTold, Completes, DoesWhole, DoesAsMeant, WritesPrefixes, WritesSlice, WritesAnswer, KeepsOne, KeepsOrLeaves, FailedAtDelivery, ComesToARun, RepliesBy, leaves_tables};
ghost use Rattle.now_top.specs.Kept.{keeps, ends_a_run, reads_store, Stored, IsUntouched, tables_told};
ghost use Rattle.now_top.specs.Means.{MeansCommand};
ghost use Rattle.now_top.specs.Replies.{Replies};
ghost use Rattle.now_top.specs.Reply.{Reply, WritesSomeSlice};
ghost use Rattle.now_top.specs.Seen.{Seen};
ghost use Rattle.now_top.specs.World.{World, Plan, StandsAt};
ghost use Rattle.py_parser.specs.Reading.{HasScript};
ghost use Rattle.py_tree.specs.Tree.{ScriptTree};
ghost use Rattle.dep_query.specs.Dataflows.{IsDataflow};
ghost use Rattle.trial_replay.specs.Replays.{IsReplayAt};
ghost use Rattle.trial_replay.specs.declared.replaying.Replayed.TheVariants.{Lines};
ghost use Rattle.trial_value.specs.Values.{IsValueAt};
ghost use Rattle.dep_query.specs.SiteTexts.{IsFedText};
ghost use Rattle.feedings.specs.declared.site.Way.TheVariants.{Sources as to_it, Effects as from_it};
ghost use Rattle.keeper.specs.Tables.{head_at};
ghost use Rattle.now_top.specs.Restored.{EndsRestoring, RestoredWhole, RestoresTrial};

use delivery::{
    done_is_whole, ends_in_one_way, no_count_rose, no_fault_answered, prefixes_are_written,
};
use dep_query::{one_dataflow_of_a_trial, one_feeding_of_a_trial};
use py_parser::one_reading;
use trial_loading::trials_are_loaded_one_way;
use trial_replay::one_replay_of_a_trial;
use trial_slice::one_slice_of_a_trial;
use trial_value::one_value_of_a_trial;

/// The law that a command has at most one meaning over a world and the tables of the store: one ending with one text and the same files, among them the place at which a script is
/// refused, what a run comes to, and what is answered out of the store.
pub fn one_meaning()
    ensures { (command : Option Command) (world : World) (tables : Option TablesView) (one other : Plan) → MeansCommand command world tables one → MeansCommand command world tables other → one ≡ other }
{
    one_reading();
    replies_by_tables();
}

/// Completeness: where the words mean a plan, the status is that of its ending, or it tells of a fault. 5, 6 and 7 come where the count of the console, of the
/// folder or of the keeper rose. 10 comes where other bytes stand under the digest of a content of the trial, 13 where the store is full, and 8 for lack of memory.
/// The world is that of the call: the folder's files, and what the devices gave.
pub fn completes()
    ensures { (words : List (List ℕ)) (before after : Seen) (was is : Stored) (status : ℕ) (so : Replies words before after was is status) (plan : Plan)
        → MeansCommand (command_of words) so.plans.prepares.world (tables_told was is) plan → Completes so.plans.prepares.world so.plans.prepares.began so.plans.prepares.clock so.plans.made plan.ending before.faults after.faults was is status }
{
    one_meaning();
    ends_in_one_way();
}

/// The law of a call in which no device failed at the script's text, at a put or at a write, in which the keeper did not fail and took what it was given, and for
/// which memory sufficed: the words mean a plan, and all of it stands. What is read of the store is that of the tables that it told.
pub fn does_whole()
    ensures { (words : List (List ℕ)) (before after : Seen) (was is : Stored) (status : ℕ) (so : Replies words before after was is status)
        → IsTold (command_of words) (tables_told was is) → (Rose before.faults.source after.faults.source → ⊥) → (Rose before.faults.put after.faults.put → ⊥) → (Rose before.faults.write after.faults.write → ⊥)
        → (Rose was.faults is.faults → ⊥) → (status ≡ 8 → ⊥) → (status ≡ 10 → ⊥) → (status ≡ 13 → ⊥)
        → DoesWhole (command_of words) so.plans.prepares.world (tables_told was is) so.plan before after status }
{
    no_count_rose();
}

/// The law of the statuses that tell of no fault of a device or of the store and of no lack of memory: the words mean a plan, and all of it stands but perhaps the end of its
/// closing line.
pub fn does_as_meant()
    ensures { (words : List (List ℕ)) (before after : Seen) (was is : Stored) (status : ℕ) (so : Replies words before after was is status)
        → IsTold (command_of words) (tables_told was is) → (status ≡ 5 → ⊥) → (status ≡ 6 → ⊥) → (status ≡ 7 → ⊥) → (status ≡ 8 → ⊥) → (status ≡ 10 → ⊥) → (status ≡ 13 → ⊥)
        → DoesAsMeant (command_of words) so.plans.prepares.world (tables_told was is) so.plan before after status }
{
    no_fault_answered();
    ends_in_one_way();
}

/// The law of the console, whatever became of the call: it got a prefix of the planned text and then a prefix of a closing line, that of the status that is
/// answered, or with status 8 of another. Both are whole where the console's count did not rise and the status is not 8.
pub fn writes_prefixes()
    ensures { (words : List (List ℕ)) (before after : Seen) (was is : Stored) (status : ℕ) (so : Replies words before after was is status) → WritesPrefixes so.plan.text status before after }
{
    prefixes_are_written();
}

/// The law of slices: `slice T LINE COL K` with status 0, over a store that told its tables, has written the script of the trial T cut to the least closed set of
/// statements of the evaluation, and nothing else.
pub fn writes_slice()
    ensures { (words : List (List ℕ)) (before after : Seen) (was is : Stored) (status : ℕ) → Replies words before after was is status → (of : OneEvaluation) (tables : TablesView)
        → command_of words ≡ Some (reads (Slice of)) → tables_told was is ≡ Some tables → status ≡ 0 → WritesSlice of tables before after }
{
    ends_in_one_way();
    done_is_whole();
}

/// The law of dataflows: `dataflow T` with status 0, over a store that told its tables, has written the dependences between the statements of the trial T, and nothing else.
pub fn writes_dataflow()
    ensures { (words : List (List ℕ)) (before after : Seen) (was is : Stored) (status : ℕ) → Replies words before after was is status → (number : ℕ) (tables : TablesView)
        → command_of words ≡ Some (reads (Dataflow number)) → tables_told was is ≡ Some tables → status ≡ 0 → WritesAnswer IsDataflow number tables before after }
{
    ends_in_one_way();
    done_is_whole();
}

/// The law of values: `value T LINE COL K` with status 0, over a store that told its tables, has written the two lines of the value of the evaluation in the trial T,
/// and nothing else.
pub fn writes_value()
    ensures { (words : List (List ℕ)) (before after : Seen) (was is : Stored) (status : ℕ) → Replies words before after was is status → (of : OneEvaluation) (tables : TablesView)
        → command_of words ≡ Some (reads (Value of)) → tables_told was is ≡ Some tables → status ≡ 0 → WritesAnswer (IsValueAt of.at of.k) of.trial tables before after }
{
    ends_in_one_way();
    done_is_whole();
}

/// The law of replays: `replay T LINE COL K` with status 0, over a store that told its tables, has written two lines, and nothing else. They are the value that the run of the
/// slice of that evaluation gives there, and its steps.
pub fn writes_replay()
    ensures { (words : List (List ℕ)) (before after : Seen) (was is : Stored) (status : ℕ) → Replies words before after was is status → (of : OneEvaluation) (tables : TablesView)
        → command_of words ≡ Some (reads (Replay of)) → tables_told was is ≡ Some tables → status ≡ 0
        → WritesAnswer (λ trial text. IsReplayAt of.at of.k trial (Lines text)) of.trial tables before after }
{
    ends_in_one_way();
    done_is_whole();
}

/// The law of sources: `sources T LINE COL K` with status 0, over a store that told its tables, has written the evaluations that feed the evaluation in the trial T, and
/// nothing else.
pub fn writes_sources()
    ensures { (words : List (List ℕ)) (before after : Seen) (was is : Stored) (status : ℕ) → Replies words before after was is status → (of : OneEvaluation) (tables : TablesView)
        → command_of words ≡ Some (reads (Sources of)) → tables_told was is ≡ Some tables → status ≡ 0 → WritesAnswer (IsFedText to_it of.at of.k) of.trial tables before after }
{
    ends_in_one_way();
    done_is_whole();
}

/// The law of effects: `effects T LINE COL K` with status 0, over a store that told its tables, has written the evaluations that the evaluation feeds in the trial T, and
/// nothing else.
pub fn writes_effects()
    ensures { (words : List (List ℕ)) (before after : Seen) (was is : Stored) (status : ℕ) → Replies words before after was is status → (of : OneEvaluation) (tables : TablesView)
        → command_of words ≡ Some (reads (Effects of)) → tables_told was is ≡ Some tables → status ≡ 0 → WritesAnswer (IsFedText from_it of.at of.k) of.trial tables before after }
{
    ends_in_one_way();
    done_is_whole();
}

/// The law of trials: the statuses of a run are 0, 1 and 9. With one of them `run FILE` has kept the run of the script at FILE, in what the devices gave, as the
/// next trial of the store. Nothing else is new in the store.
pub fn keeps_trial()
    ensures { (words : List (List ℕ)) (before after : Seen) (was is : Stored) (status : ℕ) (so : Replies words before after was is status) (steps : ℕ) (file : List ℕ) (arguments : List (List ℕ))
        → command_of words ≡ Some (run_kept steps file arguments) → (status ≡ 0) ⊎ ((status ≡ 1) ⊎ (status ≡ 9))
        → KeepsOne file steps arguments so.plans.prepares.world so.plans.prepares.began so.plans.prepares.clock so.plans.made was is }
{
    ends_in_one_way();
}

/// The law of `run FILE` with any status: the trial of its run is kept as the next one and nothing else is new, or the tables stay. It is kept where the console failed, or
/// the folder at a file that was put (5, 6), and wherever the ending that is delivered is that of a run. The tables stay with the statuses 3, 4, 7, 10 and 13.
pub fn keeps_or_leaves()
    ensures either { (words : List (List ℕ)) (before after : Seen) (was is : Stored) (status : ℕ) (so : Replies words before after was is status) (steps : ℕ) (file : List ℕ) (arguments : List (List ℕ))
        → command_of words ≡ Some (run_kept steps file arguments) → KeepsOrLeaves file steps arguments so.plans.prepares.world so.plans.prepares.began so.plans.prepares.clock so.plans.made was is }
    ensures kept { (words : List (List ℕ)) (before after : Seen) (was is : Stored) (status : ℕ) (so : Replies words before after was is status) (steps : ℕ) (file : List ℕ) (arguments : List (List ℕ))
        → command_of words ≡ Some (run_kept steps file arguments) → ends_a_run so.plan.ending ≡ true
        → KeepsOne file steps arguments so.plans.prepares.world so.plans.prepares.began so.plans.prepares.clock so.plans.made was is }
    ensures at_delivery { (words : List (List ℕ)) (before after : Seen) (was is : Stored) (status : ℕ) (so : Replies words before after was is status) (steps : ℕ) (file : List ℕ) (arguments : List (List ℕ))
        → command_of words ≡ Some (run_kept steps file arguments) → FailedAtDelivery before after status
        → KeepsOne file steps arguments so.plans.prepares.world so.plans.prepares.began so.plans.prepares.clock so.plans.made was is }
    ensures left { (words : List (List ℕ)) (before after : Seen) (was is : Stored) (status : ℕ) → Replies words before after was is status → (steps : ℕ) (file : List ℕ) (arguments : List (List ℕ))
        → command_of words ≡ Some (run_kept steps file arguments) → leaves_tables status ≡ true → Tells was.told is.told (λ (old new : KeeperView). new ≡ old) }
{
    ends_in_one_way();
}

/// Completeness of `run FILE`: where FILE stands in the folder and is a script, and neither the folder, nor the console, nor the keeper failed in a call, the status is that
/// of the run (0, 1, 9), or 8 for lack of memory, 10 where other bytes stand under a digest, 13 where the store is full.
pub fn run_completes()
    ensures { (words : List (List ℕ)) (before after : Seen) (was is : Stored) (status : ℕ) (so : Replies words before after was is status) (steps : ℕ) (file : List ℕ) (arguments : List (List ℕ)) (text : List ℕ) (script : ScriptTree)
        → command_of words ≡ Some (run_kept steps file arguments) → StandsAt file so.plans.prepares.world.files text → HasScript text script
        → (Rose before.faults.source after.faults.source → ⊥) → (Rose before.faults.put after.faults.put → ⊥) → (Rose before.faults.write after.faults.write → ⊥) → (Rose was.faults is.faults → ⊥) → ComesToARun status }
{
    one_reading();
    ends_in_one_way();
}

/// The law of histories: after any calls of the program the store has what it had before, and the trials of the runs that these calls kept, in their order, each as the
/// next one. A call of `run FILE` with the status 0, 1 or 9 kept its run, and another one may have. A call of `restore` may have made another trial the current one of its
/// path, and changed nothing else.
pub fn stores_have_trials_of_runs()
    ensures { (was is : Stored) (calls : Calls was is) → Tells was.told is.told (λ (old new : KeeperView). HasTrialsOf was is calls old.committed new.committed) }
{
    ends_in_one_way();
}

/// The law that no command but these and `restore` changes the store: its tables stay, and nothing is asked of it but by a command that reads it.
pub fn keeps_nothing_else()
    ensures tables { (words : List (List ℕ)) (before after : Seen) (was is : Stored) (status : ℕ) → Replies words before after was is status → keeps (command_of words) ≡ false
        → Tells was.told is.told (λ (old new : KeeperView). new ≡ old) }
    ensures unasked { (words : List (List ℕ)) (before after : Seen) (was is : Stored) (status : ℕ) → Replies words before after was is status → keeps (command_of words) ≡ false → reads_store (command_of words) ≡ false → IsUntouched was is }
{}

/// The law of what is read of the store: with a status that tells of no fault and of no lack of memory, status and bytes are those of the one reply to the words by the
/// tables that the keeper told from the call's begin to its end.
pub fn replies_by_tables()
    ensures one { (query : Question) (tables : TablesView) (one other : Plan) → Reply query tables one → Reply query tables other → one ≡ other }
    ensures replies { (words : List (List ℕ)) (before after : Seen) (was is : Stored) (status : ℕ) → Replies words before after was is status → (query : Question) (tables : TablesView)
        → command_of words ≡ Some (reads query) → tables_told was is ≡ Some tables → (status ≡ 5 → ⊥) → (status ≡ 6 → ⊥) → (status ≡ 7 → ⊥) → (status ≡ 8 → ⊥)
        → RepliesBy query tables before after was is status }
{
    trials_are_loaded_one_way();
    one_dataflow_of_a_trial();
    one_slice_of_a_trial();
    one_value_of_a_trial();
    one_replay_of_a_trial();
    one_feeding_of_a_trial();
    no_fault_answered();
    ends_in_one_way();
    no_count_rose();
}

/// Completeness of what is read of the store: where no put, no write and no call of the keeper failed, the status is that of the reply, or 8 for lack of memory.
pub fn reading_completes()
    ensures { (words : List (List ℕ)) (before after : Seen) (was is : Stored) (status : ℕ) → Replies words before after was is status → (query : Question) (tables : TablesView) (plan : Plan)
        → command_of words ≡ Some (reads query) → tables_told was is ≡ Some tables → Reply query tables plan
        → (Rose before.faults.put after.faults.put → ⊥) → (Rose before.faults.write after.faults.write → ⊥) → (Rose was.faults is.faults → ⊥) → (status ≡ status_of plan.ending) ⊎ (status ≡ 8) }
{
    replies_by_tables();
    ends_in_one_way();
}

/// The law of slices over any store, also one that tells nothing. `slice T LINE COL K` with status 0 has written the script of some trial with the number T, cut to the
/// least closed set of statements of the evaluation, and nothing else. The trial's text is its script, and its rows are kept rows.
pub fn writes_some_slice()
    ensures { (words : List (List ℕ)) (before after : Seen) (was is : Stored) (status : ℕ) → Replies words before after was is status → (of : OneEvaluation)
        → command_of words ≡ Some (reads (Slice of)) → status ≡ 0 → WritesSomeSlice of before after }
{
    done_is_whole();
}

/// The law of restoring: with status 0 `restore T` has put the script of the trial T at its path and then each file that its run found with bytes, by path, and has told each of them.
/// The trial is the current one of its path. Nothing else is new in the folder, on the console and in the store.
pub fn restores_trials()
    ensures { (number : ℕ) (before after : Seen) (was is : Stored) (status : ℕ) → RestoresTrial number before after was is status → status ≡ 0 → RestoredWhole number before after was is }
{
    done_is_whole();
}

/// The law of the statuses of `restore`. 4 comes where there is no such trial, 11 where something is amiss of it, 5, 6 and 7 where the count of the console, of the folder's puts or of the keeper rose,
/// and 8 for lack of memory. Where there is no such trial, the status is 4, 7 or 8. With status 6 the closing line names the file whose put was refused. The tables stay but with the
/// statuses 0, 5 and 8, with which the trial may have become the current one of its path. The console got a prefix of the lines and then of a closing line in any case.
pub fn restoring_ends()
    ensures ends { (number : ℕ) (before after : Seen) (was is : Stored) (status : ℕ) → RestoresTrial number before after was is status → EndsRestoring number before after was is status }
    ensures absent { (number : ℕ) (before after : Seen) (was is : Stored) (status : ℕ) → RestoresTrial number before after was is status → (old new : KeeperView) → was.told ≡ Some old → is.told ≡ Some new
        → head_at old.seen.heads number ≡ None → (status ≡ 4) ⊎ ((status ≡ 7) ⊎ (status ≡ 8)) }
    ensures prefixes { (number : ℕ) (before after : Seen) (was is : Stored) (status : ℕ) (of : RestoresTrial number before after was is status) → WritesPrefixes of.text status before after }
{
    restores_trials();
    prefixes_are_written();
}
