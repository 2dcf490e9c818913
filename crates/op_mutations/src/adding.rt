// Items that are put into a list.
ghost use Rattle.std.specs.Prelude.{◌≡◌, ◌<◌, ◌≤◌, ◌-◌, suc, None, length, map};
ghost use Rattle.object_store.specs.Store.{count_with};
ghost use Rattle.op_work.specs.Work.{Ends, WroteAll};
ghost use Rattle.py_model.specs.Lists.{append as append_plan, insert as insert_plan, insert_item as insert_item_plan, move_up as up_plan};
ghost use Rattle.py_model.specs.Plan.{write, done};
ghost use Rattle.py_value.specs.Contents.{contents, nothing};
ghost use Rattle.py_value.specs.Seen.{item_at, item_is, len_at, len_is};
ghost use Rattle.py_value.specs.Values.{IsNamed, AreNamed};

use crate::moving::move_up;
use op_joins::list_operand;
use op_lists::{append_to, clipped, first_object, index};
use op_work::{Exception, Stop, Work};
use py_model::Answer;
use py_value::{Content, Location, Value};
use std::alloc::Global;

/// `l.append(v)` (80): the item is set behind the others of a list.
pub fn append(work: &mut Work, alloc: Global, operands: &[Value]) -> Result<Answer, Stop>
    requires named { AreNamed work.old.values operands.now }
    requires fresh { work.old.made ≡ None }
    ensures { Ends (λ table. append_plan (map (contents table) operands.now)) work.old work.new result }
{
    let Some(o) = first_object(operands) else {
        return Err(work.fault(alloc, Exception::TypeError, "wrong kind of value"));
    };
    if operands.len() != 2 {
        return Err(work.fault(alloc, Exception::TypeError, "wrong number of arguments"));
    }
    append_to(work, alloc, o, operands[1])
}

// An item is set at a place among so many, behind which each item moves up, and then the length.
fn put_at(
    work: &mut Work,
    alloc: Global,
    o: u32,
    n: u64,
    p: u64,
    item: Value,
) -> Result<Answer, Stop>
    requires place { p ≤ n }
    requires named { IsNamed work.old.values item }
    requires within { o < count_with work.old.made work.old.store }
    ensures { WroteAll (λ table. up_plan (n - p) o p (write (item_at o p) (item_is (contents table item)) (write (len_at o) (len_is (suc n)) (done nothing)))) work.old work.new result }
{
    let Some(longer) = n.checked_add(1) else {
        return Err(Stop::Memory);
    };
    move_up(work, alloc, n - p, o, p)?;
    work.set(Location::Item(o, p), Content::Item(item))?;
    work.set(Location::Len(o), Content::Len(longer))?;
    Ok(Answer::Value(Value::None))
}

// An item is put into a list at an index.
fn insert_item(work: &mut Work, alloc: Global, o: u32, item: Value, i: i64) -> Result<Answer, Stop>
    requires named { IsNamed work.old.values item }
    requires within { o < length work.old.store.objects }
    requires fresh { work.old.made ≡ None }
    ensures { Ends (λ table. insert_item_plan o (contents table item) i) work.old work.new result }
{
    let n = work.read_len(o)?;
    let p = clipped(i, n);
    put_at(work, alloc, o, n, p, item)
}

/// `l.insert(i, v)` (82): the item is set at an index, and each item from there on moves up. An index past an end is that end.
pub fn insert(work: &mut Work, alloc: Global, operands: &[Value]) -> Result<Answer, Stop>
    requires named { AreNamed work.old.values operands.now }
    requires fresh { work.old.made ≡ None }
    ensures { Ends (λ table. insert_plan (map (contents table) operands.now)) work.old work.new result }
{
    let o = list_operand(work, alloc, operands, 3)?;
    let i = index(work, alloc, operands[1])?;
    insert_item(work, alloc, o, operands[2], i)
}
