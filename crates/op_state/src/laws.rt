// Laws of what is held, and of operations that ask nothing.
ghost use Rattle.std.specs.Prelude.{◌≡◌, ◌<◌, false, List, map};
ghost use Rattle.op_state.specs.Happening.{IsBegun, IsHappened};
ghost use Rattle.op_state.specs.Telling.{IsTold, effect_in};
ghost use Rattle.op_work.specs.Work.{WorkView, IsDear};
ghost use Rattle.prov_base.specs.declared.place.Pos.{Pos};
ghost use Rattle.py_model.specs.Capture.{Capture};
ghost use Rattle.py_model.specs.Effect.{effect};
ghost use Rattle.py_model.specs.Operations.{plan};
ghost use Rattle.py_model.specs.Quiet.{may_ask};
ghost use Rattle.py_model.specs.Running.{State, operation, too_dear};
ghost use Rattle.py_model.specs.Told.{op_seen};
ghost use Rattle.py_model.specs.declared.doer.Deed.{Deed};
ghost use Rattle.py_model.specs.declared.moment.Op.{Op};
ghost use Rattle.py_value.specs.Contents.{contents};
ghost use Rattle.py_value.specs.declared.value.Value.{Value};
ghost use Rattle.object_store.specs.Store.{StoreView};
ghost use Rattle.op_state.specs.Holding.{Found, Holds};
ghost use Rattle.op_work.specs.Work.{IsSeen};
ghost use Rattle.py_model.specs.Store.{RunStore};
ghost use Rattle.py_value.specs.Values.{ValuesView};

use object_store::store_over_contents;
use py_model::{costs_grow, few_operations_ask};

/// The law that a store for which what is held stands is seen so by the work of an operation.
pub fn holding_is_seen()
    ensures { (found : Found) (table : ValuesView) (held : StoreView) (run : RunStore) → Holds found table held run → IsSeen table held run }
{
    store_over_contents();
}

/// The law of operations that ask nothing: where a step is left, one that happened is the meaning's, and is told so; and what costs more than is
/// left does not happen.
pub fn operations_happen()
    ensures told { (capture : Capture) (at : Pos) (op : Op) (values : List Value) (deed : Deed) (table : ValuesView) (found : Found) (s : State) (old new : WorkView)
        → may_ask op.no ≡ false → 0 < s.left → old.left ≡ s.left → IsHappened found table s.store (effect_in capture at table op values s) deed old new
        → IsTold at op values deed table capture s }
    ensures dear { (capture : Capture) (at : Pos) (op : Op) (values : List Value) (table : ValuesView) (s : State) (old : WorkView)
        → may_ask op.no ≡ false → 0 < s.left → old.left ≡ s.left → IsBegun old
        → IsDear old (λ answers. effect s.store answers (plan (op_seen table op) (map (contents table) values)))
        → operation capture at (op_seen table op) (map (contents table) values) s ≡ too_dear s }
{
    few_operations_ask();
    costs_grow();
}
