// The top call.
ghost use Rattle.std.specs.Prelude.{◌≡◌, ◌⊎◌, ℕ, false, List, map, None, Some};
ghost use Rattle.keeper.specs.Tables.{TablesView};
ghost use Rattle.std.specs.String.{string_bytes};
ghost use Rattle.now_words.specs.Command.{command_of, reads, restores, run_kept};
ghost use Rattle.now_words.specs.declared.command.Evaluation.{Evaluation as OneEvaluation};
ghost use Rattle.now_words.specs.declared.command.Query.TheVariants.{Dataflow, Slice, Value, Replay, Sources, Effects};
ghost use Rattle.dep_query.specs.Dataflows.{IsDataflow};
ghost use Rattle.dep_query.specs.SiteTexts.{IsFedText};
ghost use Rattle.feedings.specs.declared.site.Way.TheVariants.{Sources as to_it, Effects as from_it};
ghost use Rattle.trial_replay.specs.Replays.{IsReplayAt};
ghost use Rattle.trial_replay.specs.declared.replaying.Replayed.TheVariants.{Lines};
ghost use Rattle.trial_value.specs.Values.{IsValueAt};
ghost use Rattle.now_top.specs.Completes.{IsTold, WritesAnswer, WritesSlice};
ghost use Rattle.now_top.specs.Promises.{DidAll, KeptRun, WrotePrefix};
ghost use Rattle.now_top.specs.Replies.{RepliesWith};
ghost use Rattle.now_top.specs.Reply.{WritesSomeSlice};
ghost use Rattle.now_top.specs.Restored.{RestoredWhole, RestoresWith, restored};
ghost use Rattle.now_top.specs.Kept.{stored, tables_told};

use crate::answered::answer;
use crate::laws::{
    does_as_meant, keeps_trial, restores_trials, writes_dataflow, writes_effects, writes_prefixes,
    writes_replay, writes_slice, writes_some_slice, writes_sources, writes_value,
};
use answer_source::{Devices, Exposes};
use keeper::Keeper;
use prov_outside::{ClockAndRandom, Console, Folder};
use std::alloc::Global;

/// Does what the words ask for over the devices and the store of trials, gives the devices back, and answers the exit status.
///
/// `run [--steps N] FILE [ARG]..` runs the script at FILE within N steps, from 1 to 1,000,000, with these arguments, and keeps the run as a trial; the files that it
/// opened for writing are put once it is over, and then its output is written. With `--bare` nothing is kept. `list` writes a line for each trial, by number, and `history` its parent and whether it is current. `show T` writes the
/// lines of the trial T, and `dataflow T` which of its statements depends on which. `slice T LINE COL K` writes the slice of an evaluation of the trial T, the K-th at that place: its script cut to the least closed set of statements
/// on which the value depends. `value T LINE COL K` writes the graph text of the value of that evaluation, and the steps that the run had spent by then. `replay T LINE COL K` runs that slice with
/// the answers that the trial keeps, and writes the same of its run. `sources T LINE COL K` writes the evaluations that feed that one, and `effects T LINE COL K` those that it feeds. These leave the store as it was.
/// `restore T` puts the script of the trial T at its path, and then each file that its run found with bytes, by path. It makes the trial the current one of its path, and
/// writes a line `restored PATH` for each file. It stops at the first put that is refused, and then the store is as before.
/// FILE is a path below the folder, of at most 255 bytes, and a script has at most 262,144 bytes.
///
/// The statuses are 0 done, 1 an exception that nothing caught, 2 the words are no command, 3 the script is refused, 4 nothing there. 5 is a console
/// that failed, 6 a folder that failed, 7 a keeper that failed, 8 out of memory, 9 out of steps, 10 other bytes under the digest of a content, 11 a trial that is not
/// well kept, 12 a replay that does not come to the evaluation, 13 a store that is full.
pub fn now<C: Console + Drop, F: Folder + Drop, M: ClockAndRandom + Drop, K: Keeper>(
    alloc: Global,
    words: &[String],
    devices: Devices<C, F, M>,
    keeper: &mut K,
) -> (u8, Devices<C, F, M>)
    requires batch { K.is_open keeper.old ≡ false }
    // Where the words restore no trial: FILE is read, its script is run over the devices and kept, and what the words mean over the folder's files and what the devices gave is
    // delivered; or a fault that was counted stands in its place, or the store does not take the trial, or memory ran out.
    ensures reply { restored (command_of (map string_bytes words.now)) ≡ None → RepliesWith (map string_bytes words.now) (⟦<Devices<C, F, M> as Exposes>⟧.seen devices) (⟦<Devices<C, F, M> as Exposes>⟧.seen result.1) (stored K.told K.faults keeper.old) (stored K.told K.faults keeper.new) (K.may_leave keeper.old) (K.may_leave keeper.new) result.0 }
    // `restore` puts the files of the trial, makes it the current one of its path, and tells what was put.
    ensures restores { (number : ℕ) → command_of (map string_bytes words.now) ≡ Some (restores number) → RestoresWith number (⟦<Devices<C, F, M> as Exposes>⟧.seen devices) (⟦<Devices<C, F, M> as Exposes>⟧.seen result.1) (stored K.told K.faults keeper.old) (stored K.told K.faults keeper.new) (K.may_leave keeper.old) (K.may_leave keeper.new) result.0 }
    // With status 0 all that the words mean stands.
    ensures status_0_did_all { restored (command_of (map string_bytes words.now)) ≡ None → result.0 ≡ 0 → IsTold (command_of (map string_bytes words.now)) (tables_told (stored K.told K.faults keeper.old) (stored K.told K.faults keeper.new))
        → DidAll (map string_bytes words.now) (⟦<Devices<C, F, M> as Exposes>⟧.seen devices) (⟦<Devices<C, F, M> as Exposes>⟧.seen result.1) (stored K.told K.faults keeper.old) (stored K.told K.faults keeper.new) result.0 }
    // With status 0, 1 or 9 `run` has kept its run as the next trial.
    ensures kept { (steps : ℕ) (file : List ℕ) (arguments : List (List ℕ)) → command_of (map string_bytes words.now) ≡ Some (run_kept steps file arguments) → (result.0 ≡ 0) ⊎ ((result.0 ≡ 1) ⊎ (result.0 ≡ 9))
        → KeptRun (map string_bytes words.now) steps file arguments (⟦<Devices<C, F, M> as Exposes>⟧.seen devices) (⟦<Devices<C, F, M> as Exposes>⟧.seen result.1) (stored K.told K.faults keeper.old) (stored K.told K.faults keeper.new) result.0 }
    // With status 0 `slice` has written the trial's script cut to the least closed set of statements of the evaluation, and nothing else.
    ensures wrote_slice { (of : OneEvaluation) (tables : TablesView) → command_of (map string_bytes words.now) ≡ Some (reads (Slice of)) → tables_told (stored K.told K.faults keeper.old) (stored K.told K.faults keeper.new) ≡ Some tables → result.0 ≡ 0
        → WritesSlice of tables (⟦<Devices<C, F, M> as Exposes>⟧.seen devices) (⟦<Devices<C, F, M> as Exposes>⟧.seen result.1) }
    // The same over a store that tells nothing: the slice in some trial with the number, whose text is its script and whose rows are kept rows.
    ensures wrote_some_slice { (of : OneEvaluation) → command_of (map string_bytes words.now) ≡ Some (reads (Slice of)) → result.0 ≡ 0
        → WritesSomeSlice of (⟦<Devices<C, F, M> as Exposes>⟧.seen devices) (⟦<Devices<C, F, M> as Exposes>⟧.seen result.1) }
    // With status 0 `dataflow` has written the dependences between the trial's statements, and nothing else.
    ensures wrote_dataflow { (number : ℕ) (tables : TablesView) → command_of (map string_bytes words.now) ≡ Some (reads (Dataflow number)) → tables_told (stored K.told K.faults keeper.old) (stored K.told K.faults keeper.new) ≡ Some tables → result.0 ≡ 0
        → WritesAnswer IsDataflow number tables (⟦<Devices<C, F, M> as Exposes>⟧.seen devices) (⟦<Devices<C, F, M> as Exposes>⟧.seen result.1) }
    // With status 0 `value` has written the two lines of the value of the evaluation, and nothing else.
    ensures wrote_value { (of : OneEvaluation) (tables : TablesView) → command_of (map string_bytes words.now) ≡ Some (reads (Value of)) → tables_told (stored K.told K.faults keeper.old) (stored K.told K.faults keeper.new) ≡ Some tables → result.0 ≡ 0
        → WritesAnswer (IsValueAt of.at of.k) of.trial tables (⟦<Devices<C, F, M> as Exposes>⟧.seen devices) (⟦<Devices<C, F, M> as Exposes>⟧.seen result.1) }
    // With status 0 `replay` has written the two lines of the value that the run of the slice of the evaluation gives there, and nothing else.
    ensures wrote_replay { (of : OneEvaluation) (tables : TablesView) → command_of (map string_bytes words.now) ≡ Some (reads (Replay of)) → tables_told (stored K.told K.faults keeper.old) (stored K.told K.faults keeper.new) ≡ Some tables → result.0 ≡ 0
        → WritesAnswer (λ trial text. IsReplayAt of.at of.k trial (Lines text)) of.trial tables (⟦<Devices<C, F, M> as Exposes>⟧.seen devices) (⟦<Devices<C, F, M> as Exposes>⟧.seen result.1) }
    // With status 0 `sources` has written the evaluations that feed the evaluation, and nothing else.
    ensures wrote_sources { (of : OneEvaluation) (tables : TablesView) → command_of (map string_bytes words.now) ≡ Some (reads (Sources of)) → tables_told (stored K.told K.faults keeper.old) (stored K.told K.faults keeper.new) ≡ Some tables → result.0 ≡ 0
        → WritesAnswer (IsFedText to_it of.at of.k) of.trial tables (⟦<Devices<C, F, M> as Exposes>⟧.seen devices) (⟦<Devices<C, F, M> as Exposes>⟧.seen result.1) }
    // With status 0 `effects` has written the evaluations that the evaluation feeds, and nothing else.
    ensures wrote_effects { (of : OneEvaluation) (tables : TablesView) → command_of (map string_bytes words.now) ≡ Some (reads (Effects of)) → tables_told (stored K.told K.faults keeper.old) (stored K.told K.faults keeper.new) ≡ Some tables → result.0 ≡ 0
        → WritesAnswer (IsFedText from_it of.at of.k) of.trial tables (⟦<Devices<C, F, M> as Exposes>⟧.seen devices) (⟦<Devices<C, F, M> as Exposes>⟧.seen result.1) }
    // With status 0 `restore` has put each file of the trial and told it, and the trial is the current one of its path; nothing else is new.
    ensures restored_whole { (number : ℕ) → command_of (map string_bytes words.now) ≡ Some (restores number) → result.0 ≡ 0
        → RestoredWhole number (⟦<Devices<C, F, M> as Exposes>⟧.seen devices) (⟦<Devices<C, F, M> as Exposes>⟧.seen result.1) (stored K.told K.faults keeper.old) (stored K.told K.faults keeper.new) }
    // Whatever came, the console got a prefix of the text and then of a closing line.
    ensures wrote_prefix { restored (command_of (map string_bytes words.now)) ≡ None → WrotePrefix (map string_bytes words.now) (⟦<Devices<C, F, M> as Exposes>⟧.seen devices) (⟦<Devices<C, F, M> as Exposes>⟧.seen result.1) (stored K.told K.faults keeper.old) (stored K.told K.faults keeper.new) result.0 }
    ensures batch { K.is_open keeper.new ≡ false }
{
    does_as_meant();
    keeps_trial();
    writes_prefixes();
    writes_slice();
    writes_some_slice();
    writes_dataflow();
    writes_value();
    writes_replay();
    writes_sources();
    writes_effects();
    restores_trials();
    answer(alloc, words, devices, keeper)
}
