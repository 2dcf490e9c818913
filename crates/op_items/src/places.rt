// Places of indexes.
ghost use Rattle.std.specs.Prelude.{ℕ};
ghost use Rattle.op_items.specs.Places.{at_index};
ghost use Rattle.op_work.specs.Work.{Comes, is_any, as_is};
ghost use Rattle.py_model.specs.Lists.{with_place};
ghost use Rattle.py_model.specs.Places.{with_index};
ghost use Rattle.py_model.specs.Plan.{Plan};
ghost use Rattle.py_value.specs.Contents.{contents};

use op_lists::{index, place};
use op_work::{Stop, Work};
use py_value::Value;
use std::alloc::Global;

/// The place of an index among so many items.
pub(crate) fn index_place(work: &mut Work, alloc: Global, w: Value, n: u64) -> Result<u64, Stop>
    ensures { Comes is_any as_is (λ table (go : ℕ → Plan). with_index (contents table w) (λ i. with_place i n go)) work.old work.new result }
{
    let i = index(work, alloc, w)?;
    place(work, alloc, i, n)
}

/// The length of a list, and the place of an index in it.
pub(crate) fn length_and_place(
    work: &mut Work,
    alloc: Global,
    o: u32,
    i: i64,
) -> Result<(u64, u64), Stop>
    ensures { Comes is_any as_is (λ table. at_index o i) work.old work.new result }
{
    let n = work.read_len(o)?;
    let p = place(work, alloc, i, n)?;
    Ok((n, p))
}
