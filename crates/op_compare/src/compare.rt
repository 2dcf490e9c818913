// The walk of two values that are compared, each pair of items once, up to the pair that decides.
ghost use Rattle.std.specs.Prelude.{◌≡◌, ◌<◌, length, map, if◌then◌else◌, nat_lt};
ghost use Rattle.object_store.specs.Store.{keys_at};
ghost use Rattle.op_compare.specs.Comparisons.{how, how_seen};
ghost use Rattle.op_lists.specs.Parts.{parts_in};
ghost use Rattle.op_work.specs.Work.{Comes, is_any, as_is};
ghost use Rattle.py_model.specs.Walks.{compare_within as plan_within, compare_parts as plan_parts, compare_lists as plan_lists, compare_items as plan_items, compare_dicts as plan_dicts, compare_entries as plan_entries, compare_to as plan_to, equals as plan_equals};
ghost use Rattle.py_value.specs.Contents.{contents, object};
ghost use Rattle.py_value.specs.Values.{IsNamed, AreNamed};
ghost use Rattle.py_value.specs.declared.value.Value.TheVariants.{Tuple};

use crate::comparison::{Comparison, by_length, plain, shorter_length};
use crate::pairs::{Shape, entry_pair, item_pair, part_pair, shape_at};
use crate::texts::compare_texts;
use op_work::{Exception, Stop, Work};
use py_value::{Value, tuples_are_their_parts};
use std::alloc::Global;

// How deep containers may lie in one another.
const DEEPEST: u32 = 100;

/// Two values, where containers lie in one another at most so many levels deep; with their order, or for equality alone.
#[cycle(compare)]
fn compare_within(
    work: &mut Work,
    alloc: Global,
    levels: u32,
    ordered: bool,
    v: Value,
    w: Value,
) -> Result<Comparison, Stop>
    requires one { IsNamed work.old.values v }
    requires other { IsNamed work.old.values w }
    ensures { Comes is_any how_seen (λ table. plan_within levels ordered (contents table v) (contents table w)) work.old work.new result }
{
    match v {
        Value::Text(a) => match w {
            Value::Text(b) => compare_texts(work, ordered, a, b),
            _ => Ok(Comparison::Apart),
        },
        Value::Tuple(a) => match w {
            Value::Tuple(b) => compare_tuples(work, alloc, levels, ordered, a, b),
            _ => Ok(Comparison::Apart),
        },
        Value::Object(o) => match w {
            Value::Object(p) => compare_objects(work, alloc, levels, ordered, o, p),
            _ => Ok(Comparison::Apart),
        },
        _ => Ok(plain(v, w)),
    }
}

// Two tuples, which are not gone into where they lie too deep.
#[cycle(compare)]
fn compare_tuples(
    work: &mut Work,
    alloc: Global,
    levels: u32,
    ordered: bool,
    a: u32,
    b: u32,
) -> Result<Comparison, Stop>
    requires one { a < length work.old.values.tuples }
    requires other { b < length work.old.values.tuples }
    ensures { Comes is_any how_seen (λ table. plan_within levels ordered (contents table (Tuple a)) (contents table (Tuple b))) work.old work.new result }
{
    tuples_are_their_parts();
    if levels == 0 {
        return Err(work.fault(alloc, Exception::RecursionError, "nested too deep"));
    }
    compare_parts(work, alloc, levels - 1, ordered, a, b)
}

// The parts of two tuples.
#[cycle(compare)]
fn compare_parts(
    work: &mut Work,
    alloc: Global,
    levels: u32,
    ordered: bool,
    a: u32,
    b: u32,
) -> Result<Comparison, Stop>
    requires one { a < length work.old.values.tuples }
    requires other { b < length work.old.values.tuples }
    ensures { Comes is_any how_seen (λ table. plan_parts (plan_within levels) ordered (parts_in table a) (parts_in table b)) work.old work.new result }
{
    let m = work.tuple_of(a).len();
    let n = work.tuple_of(b).len();
    for i in 0..shorter_length(m, n) {
        let (v, w) = part_pair(work, a, b, i)?;
        let compared = compare_within(work, alloc, levels, ordered, v, w)?;
        if !compared.is_alike() {
            return Ok(compared);
        }
    }
    Ok(by_length(m as u64, n as u64))
}

// Two objects. The same object on both sides reads nothing.
#[cycle(compare)]
fn compare_objects(
    work: &mut Work,
    alloc: Global,
    levels: u32,
    ordered: bool,
    o: u32,
    p: u32,
) -> Result<Comparison, Stop>
    ensures { Comes is_any how_seen (λ table. plan_within levels ordered (object o) (object p)) work.old work.new result }
{
    if o == p {
        return Ok(Comparison::Alike);
    }
    match shape_at(work, o, p) {
        Shape::Others => Ok(Comparison::Apart),
        Shape::Lists => {
            if levels == 0 {
                return Err(work.fault(alloc, Exception::RecursionError, "nested too deep"));
            }
            compare_lists(work, alloc, levels - 1, ordered, o, p)
        }
        Shape::Dicts => {
            if levels == 0 {
                return Err(work.fault(alloc, Exception::RecursionError, "nested too deep"));
            }
            compare_dicts(work, alloc, levels - 1, o, p)
        }
    }
}

// The smaller of two lengths.
fn fewer(m: u64, n: u64) -> u64
    ensures { result ≡ (if nat_lt m n then m else n) }
{
    if m < n { m } else { n }
}

// Two lists. For equality alone, lengths that differ answer at once.
#[cycle(compare)]
fn compare_lists(
    work: &mut Work,
    alloc: Global,
    levels: u32,
    ordered: bool,
    o: u32,
    p: u32,
) -> Result<Comparison, Stop>
    ensures { Comes is_any how_seen (λ table. plan_lists (plan_within levels) ordered o p) work.old work.new result }
{
    let m = work.read_len(o)?;
    let n = work.read_len(p)?;
    if !ordered && m != n {
        return Ok(Comparison::Apart);
    }
    compare_items(
        work,
        alloc,
        levels,
        ordered,
        o,
        p,
        fewer(m, n),
        by_length(m, n),
    )
}

// So many items of two lists, and how the rest of them compares.
#[cycle(compare)]
fn compare_items(
    work: &mut Work,
    alloc: Global,
    levels: u32,
    ordered: bool,
    o: u32,
    p: u32,
    n: u64,
    rest: Comparison,
) -> Result<Comparison, Stop>
    ensures { Comes is_any how_seen (λ table. plan_items (plan_within levels) ordered n o p 0 (how rest)) work.old work.new result }
{
    for i in 0..n {
        let (v, w) = item_pair(work, o, p, i)?;
        let compared = compare_within(work, alloc, levels, ordered, v, w)?;
        if !compared.is_alike() {
            return Ok(compared);
        }
    }
    Ok(rest)
}

// Two dictionaries. Of unequal size they differ at once.
#[cycle(compare)]
fn compare_dicts(
    work: &mut Work,
    alloc: Global,
    levels: u32,
    o: u32,
    p: u32,
) -> Result<Comparison, Stop>
    ensures { Comes is_any how_seen (λ table. plan_dicts (plan_within levels) o p) work.old work.new result }
{
    let m = work.read_order(o)?;
    let n = work.read_order(p)?;
    if m != n {
        return Ok(Comparison::Apart);
    }
    compare_entries(work, alloc, levels, o, p, m)
}

// The entries of two dictionaries, in the order of the left one.
#[cycle(compare)]
fn compare_entries(
    work: &mut Work,
    alloc: Global,
    levels: u32,
    o: u32,
    p: u32,
    count: u32,
) -> Result<Comparison, Stop>
    requires count { count ≡ length (keys_at work.old.store o) }
    requires named { AreNamed work.old.values (keys_at work.old.store o) }
    ensures { Comes is_any how_seen (λ table. plan_entries (plan_within levels) (map (contents table) (keys_at work.old.store o)) o p) work.old work.new result }
{
    for i in 0..count {
        let key = work.key(o, i);
        let pair = match entry_pair(work, alloc, o, p, key)? {
            Some(pair) => pair,
            None => return Ok(Comparison::Apart),
        };
        let compared = compare_within(work, alloc, levels, false, pair.0, pair.1)?;
        if !compared.is_alike() {
            return Ok(Comparison::Apart);
        }
    }
    Ok(Comparison::Alike)
}

/// Two values, with their order or for equality alone. Containers may lie in one another at most 100 levels deep.
pub fn compare_to(
    work: &mut Work,
    alloc: Global,
    ordered: bool,
    v: Value,
    w: Value,
) -> Result<Comparison, Stop>
    requires one { IsNamed work.old.values v }
    requires other { IsNamed work.old.values w }
    ensures { Comes is_any how_seen (λ table. plan_to ordered 100 (contents table v) (contents table w)) work.old work.new result }
{
    compare_within(work, alloc, DEEPEST, ordered, v, w)
}

/// Whether two values are equal.
pub fn equals(work: &mut Work, alloc: Global, v: Value, w: Value) -> Result<bool, Stop>
    requires one { IsNamed work.old.values v }
    requires other { IsNamed work.old.values w }
    ensures { Comes is_any as_is (λ table. plan_equals (contents table v) (contents table w)) work.old work.new result }
{
    let compared = compare_to(work, alloc, false, v, w)?;
    Ok(compared.is_alike())
}
