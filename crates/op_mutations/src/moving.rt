// Items of a list that move one place.
ghost use Rattle.std.specs.Prelude.{◌<◌, ◌+◌, ◌^◌};
ghost use Rattle.object_store.specs.Store.{count_with};
ghost use Rattle.op_work.specs.Work.{Wrote};
ghost use Rattle.py_model.specs.Lists.{move_up as up_plan, move_down as down_plan};

use op_work::{Stop, Work};
use std::alloc::Global;

/// So many items from a place on move one place up.
pub(crate) fn move_up(work: &mut Work, alloc: Global, n: u64, o: u32, p: u64) -> Result<(), Stop>
    requires within { o < count_with work.old.made work.old.store }
    requires few { p + n < 2 ^ 64 }
    ensures { Wrote (λ table. up_plan n o p) work.old work.new result }
{
    for i in 0..n {
        work.move_item(alloc, o, p + i, p + i + 1)?;
    }
    Ok(())
}

/// So many items behind a place move one place down.
pub(crate) fn move_down(work: &mut Work, alloc: Global, n: u64, o: u32, p: u64) -> Result<(), Stop>
    requires within { o < count_with work.old.made work.old.store }
    requires few { p + n < 2 ^ 64 }
    ensures { Wrote (λ table. down_plan n o p) work.old work.new result }
{
    for i in 0..n {
        work.move_item(alloc, o, p + i + 1, p + i)?;
    }
    Ok(())
}
