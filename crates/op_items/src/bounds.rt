// The bounds of a slice, and the part between them.
ghost use Rattle.std.specs.Prelude.{◌≡◌, ◌≤◌, ◌+◌};
ghost use Rattle.op_items.specs.Bounds.{bound_of_value, both_bounds, part_of};
ghost use Rattle.op_work.specs.Work.{Comes, is_any, as_is};
ghost use Rattle.py_model.specs.Places.{with_bound, low_bound, high_bound};
ghost use Rattle.py_value.specs.Contents.{contents};

use op_lists::clipped;
use op_work::{Exception, Stop, Work};
use py_value::Value;
use std::alloc::Global;

// The bound that a value is, where it is one.
fn bound_in(v: Value) -> Option<Option<i64>>
    ensures { result ≡ bound_of_value v }
{
    match v {
        Value::None => Some(None),
        Value::Int(i) => Some(Some(i)),
        Value::Bool(true) => Some(Some(1)),
        Value::Bool(false) => Some(Some(0)),
        _ => None,
    }
}

// A bound of a slice, which None leaves open.
fn bound(work: &mut Work, alloc: Global, v: Value) -> Result<Option<i64>, Stop>
    ensures { Comes is_any as_is (λ table. with_bound (contents table v)) work.old work.new result }
{
    match bound_in(v) {
        Some(found) => Ok(found),
        None => Err(work.fault(alloc, Exception::TypeError, "wrong kind of value")),
    }
}

/// The two bounds of a slice.
pub(crate) fn bounds(
    work: &mut Work,
    alloc: Global,
    low: Value,
    high: Value,
) -> Result<(Option<i64>, Option<i64>), Stop>
    ensures { Comes is_any as_is (λ table. both_bounds (contents table low) (contents table high)) work.old work.new result }
{
    let from = bound(work, alloc, low)?;
    let to = bound(work, alloc, high)?;
    Ok((from, to))
}

// Where a part begins among so many items.
fn low_place(low: Option<i64>, n: u64) -> u64
    ensures place { result ≡ low_bound low n }
    ensures within { result ≤ n }
{
    match low {
        Some(i) => clipped(i, n),
        None => 0,
    }
}

// Where a part ends among so many items.
fn high_place(high: Option<i64>, n: u64) -> u64
    ensures place { result ≡ high_bound high n }
    ensures within { result ≤ n }
{
    match high {
        Some(i) => clipped(i, n),
        None => n,
    }
}

/// The place and the length of the part between two bounds among so many items.
pub(crate) fn part(low: Option<i64>, high: Option<i64>, n: u64) -> (u64, u64)
    ensures part { result ≡ part_of low high n }
    ensures within { result.0 + result.1 ≤ n }
{
    let from = low_place(low, n);
    let to = high_place(high, n);
    (from, to.saturating_sub(from))
}
