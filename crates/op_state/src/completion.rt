// An operation that is at its end.
ghost use Rattle.std.specs.Prelude.{◌≡◌, IfOk, OnErr};
ghost use Rattle.object_store.specs.Store.{Keeps as KeepsStore};
ghost use Rattle.op_state.specs.Happening.{Completes};

use object_store::{named_stays, store_over_contents};
use op_work::Work;
use prov_base::Memory;
use py_model::{Answer, Deed, map_changes_by_accesses};
use std::alloc::Global;

/// The operation ends with this answer: memory for all that it writes is taken, and it is written. After a refusal all is as before.
pub fn complete(work: &mut Work, alloc: Global, answer: Answer) -> Result<Deed, Memory>
    ensures happened { IfOk result (λ deed. Completes work.old work.new answer deed) }
    ensures values { work.new.values ≡ work.old.values }
    ensures said { (work.new.printed ≡ work.old.printed) × (work.new.opens ≡ work.old.opens) }
    ensures refused { OnErr result (KeepsStore work.old.store work.new.store) }
{
    store_over_contents();
    named_stays();
    map_changes_by_accesses();
    work.finish(alloc, answer)
}
