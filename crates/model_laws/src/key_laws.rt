// Laws of orders and entries, each a function without code that says it.
ghost use Rattle.std.specs.Prelude.{◌≡◌, ◌++◌, ℕ, List};
ghost use Rattle.object_store.specs.Keyed.{IsKeyed};
ghost use Rattle.object_store.specs.Performing.{SuitInTurn};
ghost use Rattle.model_laws.specs.KeyedRuns.{HaveEntries};
ghost use Rattle.py_model.specs.Capture.{Capture, opening_in};
ghost use Rattle.py_model.specs.Effect.{Answers, effect, accesses_in, after};
ghost use Rattle.py_model.specs.History.{held};
ghost use Rattle.py_model.specs.Meaning.{meaning, starting};
ghost use Rattle.py_model.specs.Moment.{Moment};
ghost use Rattle.py_model.specs.Operations.{Op, plan};
ghost use Rattle.py_model.specs.Orderly.{IsOrderly};
ghost use Rattle.py_model.specs.Plan.{Plan};
ghost use Rattle.py_model.specs.Running.{outcome, state_in};
ghost use Rattle.py_model.specs.Store.{RunStore, order_of};
ghost use Rattle.py_tree.specs.Tree.{ScriptTree};
ghost use Rattle.py_value.specs.Contents.{Contents};

use object_store::{keys_have_entries, plans_suit};
use py_model::{map_changes_by_accesses, operations_are_orderly};
use py_value::tests_are_equality;

/// The law of orderly plans: where the keys of orders have their entries, the accesses of such a plan suit the map one after the other, and the
/// keys have their entries afterwards.
pub fn plans_suit_stores()
    ensures { (store : RunStore) (answers : Answers) (p : Plan) → IsOrderly p → IsKeyed store.at
        → SuitInTurn store.at (accesses_in (effect store answers p).touches) × IsKeyed (after (effect store answers p) store).at }
{
    keys_have_entries();
    plans_suit();
    map_changes_by_accesses();
    tests_are_equality();
}

/// The law that operations suit: where the keys of orders have their entries, the accesses of every operation suit the map one after the other,
/// and the keys have their entries afterwards.
pub fn operations_suit()
    ensures suit { (store : RunStore) (answers : Answers) (op : Op) (values : List Contents) → IsKeyed store.at
        → SuitInTurn store.at (accesses_in (effect store answers (plan op values)).touches) }
    ensures keyed { (store : RunStore) (answers : Answers) (op : Op) (values : List Contents) → IsKeyed store.at
        → IsKeyed (after (effect store answers (plan op values)) store).at }
{
    plans_suit_stores();
    operations_are_orderly();
}

/// The law of keys in a run: after each of its events the keys of orders have their entries. So in no order stands a key without one.
pub fn runs_keep_keys_with_entries()
    ensures keyed { (script : ScriptTree) (capture : Capture) (path : List ℕ) (arguments : List (List ℕ)) (steps : ℕ) (after upto : List Moment)
        → (state_in (outcome capture (meaning script steps) (starting capture path arguments steps))).told ≡ after ++ upto
        → IsKeyed (held (opening_in capture path arguments).at upto) }
    ensures entries { (script : ScriptTree) (capture : Capture) (path : List ℕ) (arguments : List (List ℕ)) (steps : ℕ) (after upto : List Moment) (store : RunStore) (o : ℕ)
        → (state_in (outcome capture (meaning script steps) (starting capture path arguments steps))).told ≡ after ++ upto
        → store.at ≡ held (opening_in capture path arguments).at upto → HaveEntries store o (order_of store o) }
{
    keys_have_entries();
    operations_suit();
    map_changes_by_accesses();
}
