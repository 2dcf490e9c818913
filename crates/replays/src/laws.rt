// The laws of replays, each a function without a body that says it.
ghost use Rattle.std.specs.Prelude.{◌≡◌, ◌≤◌, ℕ, List, Some};
ghost use Rattle.prov_base.specs.declared.place.Pos.{Pos as OnePlace};
ghost use Rattle.py_model.specs.Capture.{Capture, opening_in};
ghost use Rattle.py_model.specs.History.{spent_on};
ghost use Rattle.py_model.specs.Moment.{Moment};
ghost use Rattle.py_tree.specs.Deletion.{deleted};
ghost use Rattle.py_tree.specs.Tree.{ScriptTree};
ghost use Rattle.slice_law.specs.Closed.{StmtSet};
ghost use Rattle.slice_law.specs.Slices.{Reproduces, last_value};
ghost use Rattle.replays.specs.Replay.{IsReplayText, LacksEvaluation};

/// The law that a replay has one text and one number of steps, or lacks the evaluation, and never both.
pub fn one_replay()
    ensures text { (script : ScriptTree) (path : List ℕ) (arguments : List (List ℕ)) (capture : Capture) (steps : ℕ) (at : OnePlace) (k : ℕ) (text more : List ℕ) (cost other : ℕ)
        → IsReplayText script path arguments capture steps at k text cost → IsReplayText script path arguments capture steps at k more other → (text ≡ more) × (cost ≡ other) }
    ensures never_both { (script : ScriptTree) (path : List ℕ) (arguments : List (List ℕ)) (capture : Capture) (steps : ℕ) (at : OnePlace) (k : ℕ) (text : List ℕ) (cost : ℕ)
        → IsReplayText script path arguments capture steps at k text cost → LacksEvaluation script path arguments capture steps at k → ⊥ }
{}

/// The law of replayed slices: where the run of a slice gives the value again, its replay with these steps does not lack the evaluation. Its text is that
/// which the script's run gave, and it spends no more steps.
pub fn replayed_slices_give_the_value()
    ensures reached { (script : ScriptTree) (capture : Capture) (path : List ℕ) (arguments : List (List ℕ)) (steps : ℕ) (at : OnePlace) (k : ℕ) (upto : List Moment) (keep : StmtSet)
        → Reproduces script capture path arguments steps at k upto keep → LacksEvaluation (deleted keep script) path arguments capture steps at k → ⊥ }
    ensures value { (script : ScriptTree) (capture : Capture) (path : List ℕ) (arguments : List (List ℕ)) (steps : ℕ) (at : OnePlace) (k : ℕ) (upto : List Moment) (keep : StmtSet) (text : List ℕ) (cost : ℕ)
        → Reproduces script capture path arguments steps at k upto keep → IsReplayText (deleted keep script) path arguments capture steps at k text cost
        → (last_value script (opening_in capture path arguments) upto ≡ Some text) × (cost ≤ spent_on upto) }
{}
