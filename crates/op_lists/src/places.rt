// Places in sequences.
ghost use Rattle.std.specs.Prelude.{◌≡◌, ◌≤◌};
ghost use Rattle.op_lists.specs.Items.{item_at_index};
ghost use Rattle.op_work.specs.Work.{Comes, is_any, as_is};
ghost use Rattle.py_model.specs.Places.{with_index, place_in as place_of, clipped as clipped_of};
ghost use Rattle.py_model.specs.Lists.{with_place};
ghost use Rattle.py_value.specs.Contents.{contents};
ghost use Rattle.py_value.specs.Values.{IsNamed};

use crate::items::value_at;
use op_work::{Exception, Stop, Work};
use py_value::{Value, number_of};
use std::alloc::Global;

/// The number of an index, where a truth value is 0 or 1.
pub fn index(work: &mut Work, alloc: Global, v: Value) -> Result<i64, Stop>
    ensures { Comes is_any as_is (λ table. with_index (contents table v)) work.old work.new result }
{
    match number_of(v) {
        Some(i) => Ok(i),
        None => Err(work.fault(alloc, Exception::TypeError, "wrong kind of value")),
    }
}

/// The place of an index among so many items, from the end where it is below 0.
pub fn place(work: &mut Work, alloc: Global, i: i64, n: u64) -> Result<u64, Stop>
    ensures { Comes is_any as_is (λ table. with_place i n) work.old work.new result }
{
    match place_in(i, n) {
        Some(p) => Ok(p),
        None => Err(work.fault(alloc, Exception::IndexError, "index out of range")),
    }
}

// The place of an index among so many items.
fn place_in(i: i64, n: u64) -> Option<u64>
    ensures { result ≡ place_of i n }
{
    let far = i.unsigned_abs();
    if i >= 0 {
        if far < n { Some(far) } else { None }
    } else if far <= n {
        Some(n - far)
    } else {
        None
    }
}

/// The nearest place of an index among so many items, from the end where it is below 0.
pub fn clipped(i: i64, n: u64) -> u64
    ensures place { result ≡ clipped_of i n }
    ensures within { result ≤ n }
{
    let far = i.unsigned_abs();
    if i >= 0 {
        if far < n { far } else { n }
    } else {
        n.saturating_sub(far)
    }
}

/// The item of a list at an index.
pub fn get_item(work: &mut Work, alloc: Global, o: u32, i: i64) -> Result<Value, Stop>
    ensures { Comes IsNamed contents (λ table. item_at_index o i) work.old work.new result }
{
    let n = work.read_len(o)?;
    let p = place(work, alloc, i, n)?;
    value_at(work, o, p)
}
