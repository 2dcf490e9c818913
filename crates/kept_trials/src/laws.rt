// The law that runs which were kept load, a function without code that says it.
ghost use Rattle.std.specs.Prelude.{◌≡◌, ℕ, List, Some, length};
ghost use Rattle.keeper.specs.Tables.{TablesView, head_at};
ghost use Rattle.kept_trials.specs.KeptPages.{HoldMoments, StandFrom};
ghost use Rattle.py_model.specs.Capture.{Capture};
ghost use Rattle.py_model.specs.Meaning.{run as run_of};
ghost use Rattle.py_parser.specs.Reading.{HasScript};
ghost use Rattle.py_tree.specs.Numbering.{IsNumbered};
ghost use Rattle.py_tree.specs.Tree.{ScriptTree};
ghost use Rattle.trial_keeping.specs.Trial.{Run, head_of, with_trial_of};
ghost use Rattle.trial_loading.specs.Loading.{IsDamaged};
ghost use Rattle.trial_loading.specs.ReadBack.{CanBeRead, IsReadBack};
ghost use Rattle.trial_loading.specs.TrialPages.{IsRowDamage};
ghost use Rattle.trial_tables.specs.Written.{put, next_trial};
ghost use Rattle.trial_tables.specs.declared.damage.Damage.{Damage as OneDamage};

use kept_runs::rows_of_runs_are_kept;
use py_parser::one_reading;
use recorder::pages_are_the_rows;
use trace_rows::pages_are_read_one_way;
use trial_keeping::records_are_read_one_way;
use trial_loading::kept_trials_are_read_back;

/// The law of kept runs. Where the pages of a run stand under a trial, nothing is amiss of its rows. Where its head and all else stand too, and are read back,
/// nothing is amiss of that trial. So it is where the run is kept as a trial: loading it never answers that it is damaged.
pub fn kept_runs_are_never_damaged()
    ensures rows { (script : ScriptTree) (capture : Capture) (path : List ℕ) (arguments : List (List ℕ)) (steps : ℕ) → IsNumbered script
        → (pages : List (List ℕ)) → HoldMoments (run_of script path arguments capture steps).moments pages
        → (tables : TablesView) (trial : ℕ) → StandFrom tables trial 0 pages
        → (damage : OneDamage) → IsRowDamage tables trial (length pages) script.count damage → ⊥ }
    ensures standing { (run : Run) (script : ScriptTree) (capture : Capture) (tables : TablesView) (number parent : ℕ) → HasScript run.text script → IsNumbered script
        → HoldMoments (run_of script run.path run.arguments capture run.budget).moments run.pages
        → head_at tables.heads number ≡ Some (head_of run parent) → IsReadBack run tables (head_of run parent) → StandFrom tables number 0 run.pages
        → (damage : OneDamage) → IsDamaged tables number damage → ⊥ }
    ensures trials { (run : Run) (script : ScriptTree) (capture : Capture) (before after : TablesView) → CanBeRead run → HasScript run.text script → IsNumbered script
        → HoldMoments (run_of script run.path run.arguments capture run.budget).moments run.pages
        → with_trial_of run before ≡ put after → (damage : OneDamage) → IsDamaged after (next_trial before) damage → ⊥ }
{
    rows_of_runs_are_kept();
    pages_are_the_rows();
    pages_are_read_one_way();
    records_are_read_one_way();
    one_reading();
    kept_trials_are_read_back();
}
