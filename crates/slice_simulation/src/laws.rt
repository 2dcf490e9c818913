// Laws of two runs, each a function without a body that says it.
ghost use Rattle.std.specs.Prelude.{◌≡◌, ◌⊎◌, ℕ, suc, Bool, true, false, List, ◌∷◌, ◌++◌, map, Option, Some};
ghost use Rattle.std.specs.Option.{option_map};
ghost use Rattle.py_value.specs.Changes.{has_key, with_key, without_key, changed, after_accesses};
ghost use Rattle.py_value.specs.Contents.{Contents, object};
ghost use Rattle.py_value.specs.KeyOf.{normal};
ghost use Rattle.py_value.specs.Same.{same_value, same_location};
ghost use Rattle.py_value.specs.Seen.{SeenLocation, SeenContent, SeenChange, SeenAccess};
ghost use Rattle.py_model.specs.Occurrences.{sets_at, owner_stmt, up_to_evaluation};
ghost use Rattle.py_model.specs.Renaming.{Renaming, renamed, renamed_list, renamed_location, renamed_content, renamed_change, renamed_access};
ghost use Rattle.slice_simulation.specs.Renaming.{all_marks, is_marked, rank, IsShifted, Matches, SameValue, SameValues, SameOp, SameScope};
ghost use Rattle.prov_base.specs.declared.place.Pos.{Pos};
ghost use Rattle.py_model.specs.Act.{Walked};
ghost use Rattle.py_model.specs.Capture.{Capture};
ghost use Rattle.py_model.specs.Effect.{accesses_in};
ghost use Rattle.py_model.specs.Moment.{Moment};
ghost use Rattle.py_model.specs.Operations.{Op};
ghost use Rattle.py_model.specs.Plan.{Answer};
ghost use Rattle.py_model.specs.Quiet.{may_ask};
ghost use Rattle.py_model.specs.Running.{State, did, askings_at, effect_of, operation};
ghost use Rattle.model_laws.specs.Flow.{KnownValue, KnownAll, KnownStore};
ghost use Rattle.slice_law.specs.Closed.{StmtSet};
ghost use Rattle.slice_simulation.specs.Related.{Related, AllInReach, DoneAgain};
ghost use Rattle.std.specs.Prelude.{◌≤◌};
ghost use Rattle.py_tree.specs.Tree.{ScriptTree};
ghost use Rattle.py_model.specs.Capture.{opening_in};
ghost use Rattle.py_model.specs.History.{spent_on};
ghost use Rattle.slice_law.specs.Closed.{IsClosed, IsLeast};
ghost use Rattle.slice_law.specs.Slices.{told_by};
ghost use Rattle.slice_law.specs.Slices.{Reproduces, SlicesReproduce};
ghost use Rattle.slice_simulation.specs.Owned.{SamePlace};
ghost use Rattle.slice_simulation.specs.Simulation.{Simulates, ReachesEvaluation};
ghost use Rattle.py_tree.specs.WellFormed.{IsWellFormed};
ghost use Rattle.py_parser.specs.Reading.{HasScript};
ghost use Rattle.py_tree.specs.Deletion.{deleted};
ghost use Rattle.py_tree.specs.Functions.{functions_in, function_at};
ghost use Rattle.slice_law.specs.Classes.{ClassesStandOutside};
ghost use Rattle.slice_simulation.specs.Cut.{CutFunctions, FoundCut};
ghost use Rattle.py_value.specs.Seen.{SeenKind, var_at, reads};
ghost use Rattle.py_model.specs.Moment.{does};
ghost use Rattle.py_model.specs.Occurrences.{reach};
ghost use Rattle.slice_law.specs.Closed.{IsIn};
ghost use Rattle.slice_simulation.specs.BoundNames.{OwnNames, is_done, IsBoundAt};

use model_laws::{
    effects_keep_stores_known, operations_pass_functions_on, runs_keep_keys_with_entries,
    runs_know_definitions_alone,
};
use py_grammar::{scripts_are_well_formed, trees_are_placed};
use py_model::{
    corresponding_operands_have_alike_plans, few_operations_ask, few_operations_note,
    graph_texts_tell_graphs, map_changes_by_accesses, operations_agree, operations_open_tidily,
};
use py_tree::numbers_and_places;
use py_value::tests_are_equality;

/// The law that a renaming keeps equality: of values, of locations, of keys in a row; and that a change of a renamed content is the renamed
/// change.
pub fn renaming_keeps_equality()
    ensures values { (r : Renaming) (v w : Contents) → same_value (renamed r v) (renamed r w) ≡ same_value v w }
    ensures locations { (r : Renaming) (l m : SeenLocation) → same_location (renamed_location r l) (renamed_location r m) ≡ same_location l m }
    ensures keys { (r : Renaming) (key : Contents) (keys : List Contents) → has_key (renamed r key) (renamed_list r keys) ≡ has_key key keys }
    ensures changes { (r : Renaming) (how : SeenChange) (content : Option SeenContent)
        → changed (renamed_change r how) (option_map (renamed_content r) content) ≡ renamed_content r (changed how content) }
{
    tests_are_equality();
}

/// The law that corresponding accesses leave what corresponds, and make what they set correspond.
pub fn accesses_keep_correspondence()
    ensures { (r : Renaming) (l : SeenLocation) (accesses : List SeenAccess) (here there : SeenLocation → Option SeenContent)
        → (sets_at l accesses ≡ true) ⊎ Matches r here there l
        → Matches r (after_accesses accesses here) (after_accesses (map (renamed_access r) accesses) there) l }
{
    tests_are_equality();
}

/// The law of numbers: renamings fit that give the objects of the script's run alone other numbers. So an object of a value that stands for
/// another, whatever these numbers are, is there in both runs, with its number in the slice's. So is it with activations.
pub fn objects_of_both_runs_correspond()
    ensures fits { (objects activations : List Bool) (more : ℕ) → IsShifted (record { objects = true ∷ objects; activations = true ∷ activations }) more }
    ensures one { (marks : List Bool) (m n : ℕ) → is_marked marks m ≡ true → is_marked marks n ≡ true → rank marks m ≡ rank marks n → m ≡ n }
    ensures named { (objects activations : List Bool) (o : ℕ) (w : Contents) → SameValue (record { objects = true ∷ objects; activations = true ∷ activations }) (object o) w
        → (is_marked (true ∷ objects) o ≡ true) × (w ≡ object (rank (true ∷ objects) o)) }
    ensures entered { (objects activations : List Bool) (a b : ℕ) → SameScope (record { objects = true ∷ objects; activations = true ∷ activations }) a b
        → (is_marked (true ∷ activations) a ≡ true) × (b ≡ rank (true ∷ activations) a) }
{}

/// The law of kept moments: what a kept statement's operation does in a script's run it does in its slice's run. The two states stand for one
/// another, all that it reads was written last by kept statements, and it asks nothing or asks with the same number at its place. The slice's run
/// knows the functions and classes that are in its store and in what it is given: names are noted alike at their places. The answer
/// corresponds, and the states afterwards stand for one another. No operation is taken apart: it follows from the law of agreement.
pub fn kept_moments_are_done_again()
    ensures { (capture : Capture) (script other : ScriptTree) (known : Pos → Bool) (keep : StmtSet) (upto : List Moment) (at : Pos) (p q : Op) (vs ws : List Contents) (n : ℕ) (s t next : State) (answer : Answer) (came : Walked)
        → Related capture (SamePlace script other) known keep upto s t → keep n ≡ true → owner_stmt s.told ≡ Some n → SameOp (all_marks keep upto) p q → SameValues (all_marks keep upto) vs ws
        → KnownValue known q.value → KnownAll known ws → KnownStore known t.store → (may_ask p.no ≡ false) ⊎ (askings_at at t.askings ≡ askings_at at s.askings) → operation capture at p vs s ≡ did answer came next → (news : List Moment) → upto ≡ news ++ next.told
        → AllInReach keep s.told (accesses_in (effect_of capture at p vs s).touches) → DoneAgain capture (SamePlace script other) known keep upto at q ws s t answer came next }
{
    tests_are_equality();
    corresponding_operands_have_alike_plans();
    operations_agree();
    few_operations_ask();
    operations_open_tidily();
    map_changes_by_accesses();
    operations_pass_functions_on();
}

/// The law of other moments: what a statement outside the set does leaves the states standing for one another, where it notes no name at a
/// known place.
pub fn deleted_moments_keep_the_relation()
    ensures { (capture : Capture) (script other : ScriptTree) (known : Pos → Bool) (keep : StmtSet) (upto : List Moment) (at : Pos) (p : Op) (vs : List Contents) (n : ℕ) (s t next : State) (answer : Answer) (came : Walked)
        → Related capture (SamePlace script other) known keep upto s t → keep n ≡ false → owner_stmt s.told ≡ Some n → operation capture at p vs s ≡ did answer came next
        → ((place : Pos) → known place ≡ true → next.store.names place ≡ s.store.names place) → Related capture (SamePlace script other) known keep upto next t }
{
    tests_are_equality();
    corresponding_operands_have_alike_plans();
    operations_agree();
    few_operations_ask();
    operations_open_tidily();
    map_changes_by_accesses();
}

/// The law of local names, of every run of a well formed script. A statement owns each operation and each Enter, and it is of the function of the
/// innermost open activation. Where such a moment reads or sets a name of an activation, it is one of the innermost. What sets the name binds it: the
/// statement does, or it is an Enter that has the name as a parameter. So what set a local name that a statement reads is of the statement's own
/// function. No operation is taken apart but the four of names: that the others are of the module's names follows from the law of alike plans.
pub fn local_names_are_of_their_activation()
    ensures own { (script : ScriptTree) (capture : Capture) (path : List ℕ) (arguments : List (List ℕ)) (steps : ℕ) → IsWellFormed script → (news before : List Moment) (moment : Moment)
        → told_by script capture path arguments steps ≡ news ++ moment ∷ before → is_done moment ≡ true → OwnNames script moment before }
    ensures reached { (script : ScriptTree) (capture : Capture) (path : List ℕ) (arguments : List (List ℕ)) (steps : ℕ) → IsWellFormed script
        → (news before : List Moment) (at : Pos) (number : ℕ) (values : List Contents) (answer : Answer) (made : Option SeenKind) (accesses : List SeenAccess) (weight : ℕ)
        → told_by script capture path arguments steps ≡ news ++ does at number values answer made accesses weight ∷ before → (n : ℕ) → owner_stmt before ≡ Some n
        → (a : ℕ) (name : List ℕ) → IsIn accesses (reads (var_at (suc a) name)) → (time : ℕ) → IsIn (reach (var_at (suc a) name) before) time → IsBoundAt script n name time before }
{
    tests_are_equality();
    numbers_and_places();
    corresponding_operands_have_alike_plans();
}

/// The law of the simulation. A set is given that is closed for the moments up to some one. Up to there the run of the deletion performs exactly the
/// script's moments without those of deleted statements, and the `pass` of each execution of an emptied suite, but in activations that a deleted one
/// entered. Statements are named by place. Objects and activations of kept statements are renamed one-to-one. Where the reach of a location is kept,
/// what stands there corresponds. No more steps are needed than the script's run took up to there.
///
/// It is so of every run: with calls, methods, classes, jumps, exceptions, askings of devices and files. That no class stands in a function is asked of
/// the script's tree (`ClassesStandOutside`), as the grammar has it.
pub fn slices_simulate()
    ensures { (script : ScriptTree) (capture : Capture) (path : List ℕ) (arguments : List (List ℕ)) (steps budget : ℕ) (keep : StmtSet) (upto after : List Moment)
        → IsWellFormed script → ClassesStandOutside script → told_by script capture path arguments steps ≡ after ++ upto → IsClosed script (opening_in capture path arguments) upto keep
        → spent_on upto ≤ budget → Simulates script capture path arguments budget keep upto }
{
    tests_are_equality();
    numbers_and_places();
    corresponding_operands_have_alike_plans();
    operations_agree();
    few_operations_ask();
    operations_open_tidily();
    map_changes_by_accesses();
    operations_pass_functions_on();
    effects_keep_stores_known();
    few_operations_note();
    runs_know_definitions_alone();
}

/// The law of the occurrence: the k-th evaluation at a place is reached by the slice as the k-th at that place, with a corresponding value, and no
/// more steps are spent up to there. A place is of one statement, so no evaluation of a deleted statement stands at it.
///
/// That corresponding values have the same graph text is [`values_are_reproduced`].
pub fn slices_reach_the_evaluation()
    ensures { (script : ScriptTree) (capture : Capture) (path : List ℕ) (arguments : List (List ℕ)) (steps budget : ℕ) (at : Pos) (k : ℕ) (keep : StmtSet) (upto : List Moment)
        → IsWellFormed script → ClassesStandOutside script → up_to_evaluation at k (told_by script capture path arguments steps) ≡ Some upto → IsClosed script (opening_in capture path arguments) upto keep
        → spent_on upto ≤ budget → ReachesEvaluation script capture path arguments budget keep at k upto }
{
    tests_are_equality();
    numbers_and_places();
    corresponding_operands_have_alike_plans();
    operations_agree();
    few_operations_ask();
    operations_open_tidily();
    map_changes_by_accesses();
    operations_pass_functions_on();
    effects_keep_stores_known();
    few_operations_note();
    runs_know_definitions_alone();
}

/// The law of values: for every closed set the slice reproduces each evaluation, whatever its value is. The value has the same graph text at the same
/// occurrence, with all objects that are reachable from it, and no more steps are spent.
///
/// The criterion of a closed set reaches each location that a graph text shows, of a list as far as it goes and with the place where it ends, and what
/// stands at these corresponds. In a run no key stands without its entry. What the slice knows it defines, under the script's name.
pub fn values_are_reproduced()
    ensures { (script : ScriptTree) (capture : Capture) (path : List ℕ) (arguments : List (List ℕ)) (steps budget : ℕ) (at : Pos) (k : ℕ) (keep : StmtSet) (upto : List Moment)
        → IsWellFormed script → ClassesStandOutside script → up_to_evaluation at k (told_by script capture path arguments steps) ≡ Some upto → IsClosed script (opening_in capture path arguments) upto keep
        → spent_on upto ≤ budget → Reproduces script capture path arguments budget at k upto keep }
{
    tests_are_equality();
    numbers_and_places();
    corresponding_operands_have_alike_plans();
    operations_agree();
    few_operations_ask();
    operations_open_tidily();
    map_changes_by_accesses();
    operations_pass_functions_on();
    effects_keep_stores_known();
    few_operations_note();
    runs_know_definitions_alone();
    graph_texts_tell_graphs();
    runs_keep_keys_with_entries();
}

/// The law of slices: the slice of an evaluation, which is the script without the statements outside the least closed set, runs again to the same
/// value. With as many steps as the whole run took it reaches the k-th evaluation at the same place. The value has the same graph text there, and no
/// more steps are spent. So it is for every script whose classes stand outside its functions, every capture and budget, and every evaluation.
pub fn slices_reproduce()
    ensures { SlicesReproduce }
{
    values_are_reproduced();
}

/// The law of the simulation for the scripts of the language: nothing is asked of the script but that a text is it.
pub fn slices_of_scripts_simulate()
    ensures { (text : List ℕ) (script : ScriptTree) → HasScript text script → (capture : Capture) (path : List ℕ) (arguments : List (List ℕ)) (steps budget : ℕ) (keep : StmtSet) (upto after : List Moment)
        → told_by script capture path arguments steps ≡ after ++ upto → IsClosed script (opening_in capture path arguments) upto keep → spent_on upto ≤ budget → Simulates script capture path arguments budget keep upto }
{
    scripts_are_well_formed();
    trees_are_placed();
    slices_simulate();
}

/// The law of slices for the scripts of the language: a text that is a script has one whose classes stand outside its functions, so its slices run again to the same
/// value, in no more steps. Nothing is asked of the script.
pub fn slices_of_scripts_reproduce()
    ensures { (text : List ℕ) (script : ScriptTree) → HasScript text script → (capture : Capture) (path : List ℕ) (arguments : List (List ℕ)) (steps : ℕ) (at : Pos) (k : ℕ) (upto : List Moment) (keep : StmtSet)
        → up_to_evaluation at k (told_by script capture path arguments steps) ≡ Some upto → IsLeast script (opening_in capture path arguments) upto keep
        → Reproduces script capture path arguments (spent_on (told_by script capture path arguments steps)) at k upto keep }
{
    scripts_are_well_formed();
    trees_are_placed();
    slices_reproduce();
}

/// The law of the functions of a slice: they are functions of the script, in their order, each with its parameters, its globals and what is kept
/// of its suite. So the function at a place of the slice is the one at that place of the script, or there is none.
pub fn slices_have_functions_of_the_script()
    ensures functions { (script : ScriptTree) (keep : StmtSet) → CutFunctions keep (functions_in script.body) (functions_in (deleted keep script).body) }
    ensures found { (script : ScriptTree) (keep : StmtSet) (place : Pos) → IsWellFormed script → FoundCut keep (function_at script place) (function_at (deleted keep script) place) }
{}
