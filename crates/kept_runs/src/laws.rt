// The laws of the numbers and keys in a run, each a function without code that says it.
ghost use Rattle.std.specs.Prelude.{◌≡◌, ◌++◌, ◌∷◌, ℕ, true, List};
ghost use Rattle.prov_base.specs.Path.{is_path};
ghost use Rattle.py_model.specs.Capture.{Capture};
ghost use Rattle.py_model.specs.Meaning.{meaning, starting, run};
ghost use Rattle.py_model.specs.Moment.{Moment};
ghost use Rattle.py_model.specs.Running.{outcome, state_in};
ghost use Rattle.py_model.specs.Store.{has_path};
ghost use Rattle.py_tree.specs.Numbering.{IsNumbered};
ghost use Rattle.py_tree.specs.Tree.{ScriptTree};
ghost use Rattle.recorder.specs.MomentRows.{rows as rows_of};
ghost use Rattle.row_checks.specs.KeptRows.{AreKeptRows};
ghost use Rattle.kept_runs.specs.Below.{StatementBelow, MomentBelow, MomentBefore, objects_after, scopes_after};
ghost use Rattle.kept_runs.specs.Keys.{MomentKeys};

use py_model::{corresponding_operands_have_alike_plans, moments_nest};
use row_moments::rows_nest_as_moments;

/// The law of what runs name. Each statement that begins is one of the script's. A moment names only objects that were made before it or that it
/// makes, and variables of activations that were entered before it or that it enters. An object that it makes is in none of its values, but may be
/// its answer.
pub fn runs_name_what_is_there()
    ensures statements { (script : ScriptTree) (capture : Capture) (path : List ℕ) (arguments : List (List ℕ)) (steps : ℕ) → IsNumbered script
        → (news before : List Moment) (moment : Moment)
        → (state_in (outcome capture (meaning script steps) (starting capture path arguments steps))).told ≡ news ++ moment ∷ before
        → StatementBelow script.count moment }
    ensures objects { (script : ScriptTree) (capture : Capture) (path : List ℕ) (arguments : List (List ℕ)) (steps : ℕ) → IsNumbered script
        → (news before : List Moment) (moment : Moment)
        → (state_in (outcome capture (meaning script steps) (starting capture path arguments steps))).told ≡ news ++ moment ∷ before
        → MomentBelow (objects_after (moment ∷ before)) (scopes_after (moment ∷ before)) moment }
    ensures values { (script : ScriptTree) (capture : Capture) (path : List ℕ) (arguments : List (List ℕ)) (steps : ℕ) → IsNumbered script
        → (news before : List Moment) (moment : Moment)
        → (state_in (outcome capture (meaning script steps) (starting capture path arguments steps))).told ≡ news ++ moment ∷ before
        → MomentBefore (objects_after before) moment }
{
    corresponding_operands_have_alike_plans();
}

/// The law of keys: what stands as a key in a moment of a run is a key of the language, and in a location it is in its normal form.
pub fn runs_have_keys()
    ensures { (script : ScriptTree) (capture : Capture) (path : List ℕ) (arguments : List (List ℕ)) (steps : ℕ) → IsNumbered script
        → (news before : List Moment) (moment : Moment)
        → (state_in (outcome capture (meaning script steps) (starting capture path arguments steps))).told ≡ news ++ moment ∷ before
        → MomentKeys moment }
{
    corresponding_operands_have_alike_plans();
}

/// The law of paths: what a run fetches, and what it opens for writing, has a path that a script may open.
pub fn runs_open_paths_alone()
    ensures fetched { (script : ScriptTree) (capture : Capture) (path : List ℕ) (arguments : List (List ℕ)) (steps : ℕ) → IsNumbered script
        → (one : List ℕ) → has_path one (state_in (outcome capture (meaning script steps) (starting capture path arguments steps))).fetches ≡ true → is_path one ≡ true }
    ensures opened { (script : ScriptTree) (capture : Capture) (path : List ℕ) (arguments : List (List ℕ)) (steps : ℕ) → IsNumbered script
        → (one : List ℕ) → has_path one (state_in (outcome capture (meaning script steps) (starting capture path arguments steps))).store.opened ≡ true → is_path one ≡ true }
{
    corresponding_operands_have_alike_plans();
}

/// The law of kept runs: the rows of the moments of every run are those of a well kept trial.
pub fn rows_of_runs_are_kept()
    ensures { (script : ScriptTree) (capture : Capture) (path : List ℕ) (arguments : List (List ℕ)) (steps : ℕ) → IsNumbered script
        → AreKeptRows script.count (rows_of (run script path arguments capture steps).moments) }
{
    runs_name_what_is_there();
    runs_have_keys();
    moments_nest();
    rows_nest_as_moments();
}
