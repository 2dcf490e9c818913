// Two items that are compared: parts of tuples, items of lists, values of dictionaries, and what two objects are compared as.
ghost use Rattle.std.specs.Prelude.{◌≡◌, ◌<◌, length};
ghost use Rattle.op_compare.specs.Pairs.{read_both, both_of, read_entries, shape_of as shape_of_kinds, shape_seen};
ghost use Rattle.op_lists.specs.Parts.{part_in};
ghost use Rattle.op_numbers.specs.Numbers.{IsNamedPair, seen_pair};
ghost use Rattle.op_work.specs.Entries.{IsNamedEntry, seen_entry};
ghost use Rattle.op_work.specs.Work.{Comes, is_any, as_is};
ghost use Rattle.py_model.specs.Plan.{Plan, looks, kind_of};
ghost use Rattle.py_value.specs.Contents.{Contents, contents};
ghost use Rattle.py_value.specs.Values.{IsNamed};

use op_lists::{entry_at, part_at, value_at};
use op_work::{Stop, Work};
use py_value::{Kind, Value};
use std::alloc::Global;

/// What two objects are compared as.
#[derive(Clone, Copy)]
pub enum Shape {
    /// Two lists.
    Lists,
    /// Two dictionaries.
    Dicts,
    /// Any other two.
    Others,
}

// What two kinds are compared as.
fn shape_of(left: Option<Kind>, right: Option<Kind>) -> Shape
    ensures { result ≡ shape_of_kinds left right }
{
    match (left, right) {
        (Some(Kind::List), Some(Kind::List)) => Shape::Lists,
        (Some(Kind::Dict), Some(Kind::Dict)) => Shape::Dicts,
        _ => Shape::Others,
    }
}

// What two objects are compared as.
pub(crate) fn shape_at(work: &Work, o: u32, p: u32) -> Shape
    ensures { Comes is_any as_is (λ table (go : Shape → Plan). kind_of o (λ left. kind_of p (λ right. go (shape_seen left right)))) work.now work.now (Ok result) }
{
    shape_of(work.kind(o), work.kind(p))
}

// The parts of two tuples at one place, both looked at.
pub(crate) fn part_pair(work: &mut Work, a: u32, b: u32, i: usize) -> Result<(Value, Value), Stop>
    requires one { a < length work.old.values.tuples }
    requires other { b < length work.old.values.tuples }
    ensures { Comes IsNamedPair seen_pair (λ table (go : Contents × Contents → Plan). looks 2 (go (contents table (part_in table a i), contents table (part_in table b i)))) work.old work.new result }
{
    work.look(2)?;
    Ok((part_at(work, a, i), part_at(work, b, i)))
}

// The items of two lists at one place, each read.
pub(crate) fn item_pair(work: &mut Work, o: u32, p: u32, i: u64) -> Result<(Value, Value), Stop>
    ensures { Comes IsNamedPair seen_pair (λ table. read_both o p i) work.old work.new result }
{
    let v = value_at(work, o, i)?;
    let w = value_at(work, p, i)?;
    Ok((v, w))
}

// The values of two entries, where both are there.
fn both(left: Option<(Value, Value)>, right: Option<(Value, Value)>) -> Option<(Value, Value)>
    ensures { result ≡ both_of left right }
{
    match (left, right) {
        (Some(one), Some(other)) => Some((one.1, other.1)),
        _ => None,
    }
}

// The values of two dictionaries at one key of an order, where both have one.
pub(crate) fn entry_pair(
    work: &mut Work,
    alloc: Global,
    o: u32,
    p: u32,
    v: Value,
) -> Result<Option<(Value, Value)>, Stop>
    requires { IsNamed work.old.values v }
    ensures { Comes IsNamedEntry seen_entry (λ table. read_entries o p (contents table v)) work.old work.new result }
{
    let left = entry_at(work, alloc, o, v)?;
    let right = entry_at(work, alloc, p, v)?;
    Ok(both(left, right))
}
