// The law of the flow of functions and classes, a function without a body that says it.
ghost use Rattle.std.specs.Prelude.{Bool, List};
ghost use Rattle.prov_base.specs.declared.place.Pos.{Pos};
ghost use Rattle.py_value.specs.Contents.{Contents};
ghost use Rattle.py_model.specs.Operations.{Op, plan};
ghost use Rattle.py_model.specs.Effect.{Answers, effect, after};
ghost use Rattle.py_model.specs.Plan.{Plan};
ghost use Rattle.py_model.specs.Store.{RunStore};
ghost use Rattle.std.specs.Prelude.{ℕ};
ghost use Rattle.py_tree.specs.Tree.{ScriptTree};
ghost use Rattle.py_model.specs.Capture.{Capture};
ghost use Rattle.py_model.specs.Meaning.{meaning, starting};
ghost use Rattle.py_model.specs.Running.{method_found, outcome, state_in};
ghost use Rattle.model_laws.specs.Defined.{defines};
ghost use Rattle.model_laws.specs.Flow.{KnownValue, KnownAll, KeepsKnown, KnownPlace, KnownStore, KnownOutcome};
ghost use Rattle.model_laws.specs.Knows.{Knows};
ghost use Rattle.py_value.specs.Seen.{SeenAccess};
ghost use Rattle.std.specs.Prelude.{None};

/// The law that no operation makes a function or class of the script from nothing. Where those in its operands and in all that it reads stand at
/// places of a set, so do those in what it answers, writes, makes and raises. It asks for names at such places alone.
pub fn operations_pass_functions_on()
    ensures { (known : Pos → Bool) (op : Op) (values : List Contents) → KnownValue known op.value → KnownAll known values → KeepsKnown known (plan op values) }
{}

/// The law of effects: in a store where all is known, a plan that keeps it so has a known answer, and leaves such a store. A method that its
/// walks find is known.
pub fn effects_keep_stores_known()
    ensures store { (known : Pos → Bool) (store : RunStore) (answers : Answers) (p : Plan) → KeepsKnown known p → KnownStore known store → KnownStore known (after (effect store answers p) store) }
    ensures answer { (known : Pos → Bool) (store : RunStore) (answers : Answers) (p : Plan) → KeepsKnown known p → KnownStore known store → KnownOutcome known (effect store answers p).outcome }
    ensures method { (known : Pos → Bool) (store : RunStore) (accesses : List SeenAccess) → KnownStore known store → KnownPlace known (method_found store accesses None) }
{}

/// The law of definitions: in every run, each function and class of the script that stands anywhere in the store, or is the class of an object,
/// stands at a place where the script has a `def` or a `class`. So do those in the operands of its operations.
pub fn runs_know_definitions_alone()
    ensures tree { (script : ScriptTree) (steps : ℕ) → Knows (defines script) (meaning script steps) }
    ensures store { (script : ScriptTree) (capture : Capture) (path : List ℕ) (arguments : List (List ℕ)) (steps : ℕ)
        → KnownStore (defines script) (state_in (outcome capture (meaning script steps) (starting capture path arguments steps))).store }
{}
