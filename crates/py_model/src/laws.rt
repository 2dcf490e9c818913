// Laws of plans and their effects, each a function without a body that says it.
ghost use Rattle.std.specs.Prelude.{◌≡◌, ◌⊎◌, ◌≤◌, ℕ, ◌+◌, ◌^◌, false, ◌||◌, List, [], ◌++◌, map, length, Option, Some};
ghost use Rattle.py_value.specs.Contents.{Contents};
ghost use Rattle.py_model.specs.Effect.{Answers, Touch, Effect, effect, answered, unanswered, accesses_in, looked_at, characters_in, after, after_touches, after_accesses, weight, cost, IsThrown, IsUntouched, IsThere};
ghost use Rattle.py_model.specs.Agreement.{Alike, Agrees};
ghost use Rattle.py_model.specs.AlikeOperations.{renamed_op};
ghost use Rattle.py_model.specs.Operations.{Op, plan};
ghost use Rattle.py_model.specs.Orderly.{IsOrderly};
ghost use Rattle.py_model.specs.Plan.{Plan, Answer, raised};
ghost use Rattle.py_model.specs.PlainGraph.{IsPlain, HasNames, IsPlainSetting};
ghost use Rattle.py_model.specs.Quiet.{may_ask, may_note, IsQuiet};
ghost use Rattle.py_model.specs.Renaming.{Renaming, renamed_list, renamed_effect};
ghost use Rattle.py_model.specs.Store.{RunStore, opening};
ghost use Rattle.std.specs.Prelude.{◌<◌};
ghost use Rattle.prov_base.specs.declared.place.Span.{Span};
ghost use Rattle.py_tree.specs.Tree.{ScriptTree};
ghost use Rattle.py_model.specs.Act.{Act, Walked, perform, begin, enter};
ghost use Rattle.py_model.specs.Capture.{Capture, opening_in};
ghost use Rattle.py_model.specs.Expressions.{Task};
ghost use Rattle.py_model.specs.Going.{Open};
ghost use Rattle.py_model.specs.Graph.{graph_text};
ghost use Rattle.py_model.specs.Moment.{Moment};
ghost use Rattle.py_model.specs.Occurrences.{frames_after, open_of};
ghost use Rattle.py_model.specs.History.{open_after, IsAgreed, IsKept, KeptUnlessLacking, Nests, GoesOn, richer};
ghost use Rattle.py_model.specs.Meaning.{level, meaning, starting, run};
ghost use Rattle.py_model.specs.Running.{State, outcome, state_in, operation, note, method_found, sets_an_entry, effect_of, did, too_dear, spent, IsPaid};
ghost use Rattle.prov_base.specs.declared.place.Pos.{Pos};
ghost use Rattle.py_model.specs.SameGraph.{Setting, HaveSameGraph};
ghost use Rattle.py_tree.specs.Spans.{moved};
ghost use Rattle.py_model.specs.Statements.{task};
ghost use Rattle.py_model.specs.Tidy.{IsTidy};
ghost use Rattle.py_model.specs.Touches.{prefixed, cost_so_far};
ghost use Rattle.py_value.specs.Seen.{SeenAccess};

use py_value::tests_are_equality;

/// The law that an operation changes the map by its accesses, in their order, and by nothing else.
pub fn map_changes_by_accesses()
    ensures { (e : Effect) (store : RunStore) → (after e store).at ≡ after_accesses (accesses_in e.touches) store.at }
{}

/// The law that an operation which raises writes nothing but its exception, the next object, or raises an object again and writes
/// nothing. An object that is raised again is there, and an instance.
pub fn raised_writes_its_exception_alone()
    ensures alone { (store : RunStore) (answers : Answers) (p : Plan) (o : ℕ) → (effect store answers p).outcome ≡ answered (raised o)
        → IsUntouched (effect store answers p) ⊎ ((o ≡ length store.kinds) × IsThrown (effect store answers p) o) }
    ensures there { (store : RunStore) (answers : Answers) (op : Op) (values : List Contents) (o : ℕ)
        → (effect store answers (plan op values)).outcome ≡ answered (raised o)
        → (IsUntouched (effect store answers (plan op values)) × IsThere store o)
        ⊎ ((o ≡ length store.kinds) × IsThrown (effect store answers (plan op values)) o) }
{}

/// The law of alike plans: in two stores that agree on what the one reads and asks, under a renaming, they have corresponding effects.
pub fn alike_plans_agree()
    ensures { (r : Renaming) (store other : RunStore) (answers others : Answers) (p q : Plan) → Alike r p q → Agrees r store other answers others p
        → effect other others q ≡ renamed_effect r (effect store answers p) }
{}

/// The law of renamed effects: they weigh and cost the same.
pub fn renamed_effects_weigh_the_same()
    ensures { (r : Renaming) (e : Effect) → (weight (renamed_effect r e) ≡ weight e) × (cost (renamed_effect r e) ≡ cost e) }
{}

/// The law of corresponding operands: every operation is alike for them, so by the law of alike plans it has corresponding effects.
pub fn corresponding_operands_have_alike_plans()
    ensures { (r : Renaming) (op : Op) (values : List Contents) → Alike r (plan op values) (plan (renamed_op r op) (renamed_list r values)) }
{}

/// The law of agreement: where two stores agree on what an operation reads and asks in the one, under a renaming of objects and
/// activations, the operation on corresponding operands has the corresponding effect in the other: answer, object made, accesses and
/// contents written; and equal weight and cost.
pub fn operations_agree()
    ensures { (r : Renaming) (store other : RunStore) (answers others : Answers) (op : Op) (values : List Contents)
        → Agrees r store other answers others (plan op values)
        → (effect other others (plan (renamed_op r op) (renamed_list r values)) ≡ renamed_effect r (effect store answers (plan op values)))
        × (weight (effect other others (plan (renamed_op r op) (renamed_list r values))) ≡ weight (effect store answers (plan op values)))
        × (cost (effect other others (plan (renamed_op r op) (renamed_list r values))) ≡ cost (effect store answers (plan op values))) }
{}

/// The law that the meaning is its own unfolding: a turn of a loop and a call mean what their rule says, with the same turns and calls
/// inside them, wherever fewer steps are left than there are levels.
pub fn meaning_unfolds()
    ensures { (capture : Capture) (script : ScriptTree) (n : ℕ) (what : Task) (s : State) → s.left < n
        → outcome capture (level script n what) s ≡ outcome capture (task script (level script n) what) s }
{}

/// The law that a state agrees with its moments: the budget is what they cost and what is left, and the map, the kinds of objects and
/// the number of activations are those that the moments come to. So steps never rise, and no more are spent than there were.
pub fn states_agree_with_moments()
    ensures step { (capture : Capture) (opening : RunStore) (budget : ℕ) (a : Act) (s : State) → IsAgreed opening budget s
        → IsAgreed opening budget (state_in (outcome capture a s)) }
    ensures runs { (capture : Capture) (script : ScriptTree) (path : List ℕ) (arguments : List (List ℕ)) (steps : ℕ)
        → IsAgreed (opening_in capture path arguments) steps (state_in (outcome capture (meaning script steps) (starting capture path arguments steps))) }
{}

/// The law of touches: what two lists of touches, one behind the other, come to is what each of them comes to, joined.
pub fn touches_join()
    ensures accesses { (xs ys : List Touch) → accesses_in (xs ++ ys) ≡ accesses_in xs ++ accesses_in ys }
    ensures looks { (xs ys : List Touch) → looked_at (xs ++ ys) ≡ looked_at xs + looked_at ys }
    ensures characters { (xs ys : List Touch) → characters_in (xs ++ ys) ≡ characters_in xs + characters_in ys }
    ensures stores { (xs ys : List Touch) (store : RunStore) → after_touches (xs ++ ys) store ≡ after_touches ys (after_touches xs store) }
    ensures notes { (xs ys : List Touch) (at : Pos) (k : ℕ) (s : State) → note at k (xs ++ ys) s ≡ note at k ys (note at k xs s) }
    ensures prefixes { (xs ys : List Touch) (e : Effect) → prefixed (xs ++ ys) e ≡ prefixed xs (prefixed ys e) }
    ensures methods { (xs ys : List SeenAccess) (store : RunStore) (found : Option Pos)
        → method_found store (xs ++ ys) found ≡ method_found store ys (method_found store xs found) }
    ensures entries { (xs ys : List SeenAccess) → sets_an_entry (xs ++ ys) ≡ (sets_an_entry xs || sets_an_entry ys) }
{}

/// The law of growing costs: an effect costs no less than what it touches first. So once that is more than what is left, it is out of budget.
pub fn costs_grow()
    ensures { (touches : List Touch) (e : Effect) → cost_so_far touches ≤ cost (prefixed touches e) }
{}

/// The law of ends: what costs more than is left does not happen, and nothing after it does.
pub fn unpaid_ends_the_run()
    ensures operations { (capture : Capture) (at : Pos) (op : Op) (values : List Contents) (next : Answer → Walked → Act) (s t : State)
        → operation capture at op values s ≡ too_dear t → outcome capture (perform at op values next) s ≡ spent t }
    ensures statements { (capture : Capture) (number : ℕ) (rest : Act) (s : State) → s.left < 1 → outcome capture (begin number rest) s ≡ spent s }
    ensures entries { (capture : Capture) (at def : Pos) (names : List (List ℕ)) (values : List Contents) (next : ℕ → Act) (s : State)
        → s.left < 1 + length values → outcome capture (enter at def names values next) s ≡ spent s }
{}

/// The law of asking: only `open`, `input`, `time_ns`, `randint` and `randrange` ask a device or fetch a file. A plan that asks nothing has
/// its answer, it is the same whatever the devices give, and nothing is noted of it.
pub fn few_operations_ask()
    ensures quiet { (op : Op) (values : List Contents) → may_ask op.no ≡ false → IsQuiet (plan op values) }
    ensures answered { (store : RunStore) (answers : Answers) (p : Plan) → IsQuiet p → (effect store answers p).outcome ≡ unanswered → ⊥ }
    ensures same { (store : RunStore) (answers others : Answers) (p : Plan) → IsQuiet p → effect store others p ≡ effect store answers p }
    ensures unnoted { (store : RunStore) (answers : Answers) (p : Plan) (at : Pos) (k : ℕ) (s : State) → IsQuiet p
        → note at k (effect store answers p).touches s ≡ s }
{}

/// The law of orderly writes: every operation writes entries and orders in few ways alone. It sets the entry that it has just read, and puts a
/// new key behind the others; or takes an entry out with its key; or makes an object that begins with keys and their entries.
pub fn operations_are_orderly()
    ensures { (op : Op) (values : List Contents) → IsOrderly (plan op values) }
{}

/// The law of noted names: operations but `def` and the beginning of a `class` leave the names as they were noted.
pub fn few_operations_note()
    ensures { (store : RunStore) (answers : Answers) (op : Op) (values : List Contents) (place : Pos) → may_note op.no ≡ false
        → (after (effect store answers (plan op values)) store).names place ≡ store.names place }
{}

/// The law of tidy openings: an operation that opens a file for writing sets it to empty, or leaves it as it is where it was read. Nothing else sets
/// a file. An operation that asks whether a path was opened reads the file there, and fetches it first if it was not.
pub fn operations_open_tidily()
    ensures { (op : Op) (values : List Contents) → IsTidy (plan op values) }
{}

/// The law of payment: an operation happens only where it answers, and where its cost is left. So one for which no budget pays never
/// happens.
pub fn operations_are_paid()
    ensures { (capture : Capture) (at : Pos) (op : Op) (values : List Contents) (s : State) (answer : Answer) (came : Walked) (t : State)
        → operation capture at op values s ≡ did answer came t
        → IsPaid (effect_of capture at op values s) (effect_of capture at op values s).outcome answer s.left }
{}

/// The law of brackets: the moments of a run nest, and a run that reaches its end, or is left by an exception, leaves nothing open.
pub fn moments_nest()
    ensures { (capture : Capture) (script : ScriptTree) (path : List ℕ) (arguments : List (List ℕ)) (steps : ℕ)
        → Nests [] (outcome capture (meaning script steps) (starting capture path arguments steps)) }
{}

/// The law of frames: where moments nest, the occurrences and activations that are open after them are what the brackets leave open.
pub fn frames_follow_brackets()
    ensures { (told : List Moment) (open_ones : List Open) → open_after told ≡ Some open_ones → map open_of (frames_after told) ≡ open_ones }
{}

/// The law of the capture: all that a run asks and fetches is there, unless the run ends for want of it.
pub fn asked_is_captured()
    ensures step { (capture : Capture) (a : Act) (s : State) → IsKept capture s → KeptUnlessLacking capture (outcome capture a s) }
    ensures runs { (capture : Capture) (script : ScriptTree) (path : List ℕ) (arguments : List (List ℕ)) (steps : ℕ)
        → KeptUnlessLacking capture (outcome capture (meaning script steps) (starting capture path arguments steps)) }
{}

/// The law of larger budgets: with more steps a run goes the same way to its end, and where its steps did not suffice, its moments go on
/// from there.
pub fn larger_budget_extends()
    ensures { (capture : Capture) (more : ℕ) (script : ScriptTree) (path : List ℕ) (arguments : List (List ℕ)) (steps : ℕ)
        → GoesOn more (outcome capture (meaning script steps) (starting capture path arguments steps))
        (outcome capture (meaning script (steps + more)) (starting capture path arguments (steps + more))) }
{}

/// The law of byte spans: a run does not look at them.
pub fn spans_change_nothing()
    ensures { (m : Span → Span) (script : ScriptTree) (path : List ℕ) (arguments : List (List ℕ)) (capture : Capture) (steps : ℕ)
        → run (moved m script) path arguments capture steps ≡ run script path arguments capture steps }
{}

/// The law of graph texts: they are equal exactly where the graphs are, up to the names of objects. Equal graphs have equal texts; and
/// equal texts of fewer than 10^20 bytes are of equal graphs, where names are names and all that objects hold is there. So it is where a
/// run begins.
pub fn graph_texts_tell_graphs()
    ensures same { (here there : Setting) (v w : Contents) → HaveSameGraph here there v w
        → graph_text here.script here.store v ≡ graph_text there.script there.store w }
    ensures told { (here there : Setting) (v w : Contents) → IsPlainSetting here → IsPlainSetting there → IsPlain v → IsPlain w
        → length (graph_text here.script here.store v) < 10 ^ 20 → graph_text here.script here.store v ≡ graph_text there.script there.store w
        → HaveSameGraph here there v w }
    ensures begins { (script : ScriptTree) (path : List ℕ) (arguments : List (List ℕ)) (files : List (List ℕ × List ℕ)) → HasNames script
        → IsPlainSetting (record { script = script; store = opening path arguments files }) }
{
    tests_are_equality();
}
