// Items that are taken out of a list or a dictionary.
ghost use Rattle.std.specs.Prelude.{◌≡◌, ◌<◌, [], ◌∷◌, None, length, map};
ghost use Rattle.object_store.specs.Store.{count_with};
ghost use Rattle.op_work.specs.Work.{Ends, WroteAll};
ghost use Rattle.py_model.specs.Lists.{pop as pop_plan, pop_item as pop_item_plan, close_gap as gap_plan, delitem as delitem_plan, del_item as del_item_plan};
ghost use Rattle.py_model.specs.Places.{with_index};
ghost use Rattle.py_value.specs.Contents.{contents, object};
ghost use Rattle.py_value.specs.Values.{IsNamed, AreNamed};

use crate::moving::move_down;
use op_dicts::del_entry;
use op_lists::{first_object, index, list, place, value_at};
use op_numbers::two;
use op_work::{Exception, Stop, Work};
use py_model::Answer;
use py_value::{Content, Kind, Location, Value};
use std::alloc::Global;

// The item at a place of so many goes: each later item moves down, and then the length is set.
fn close_gap(
    work: &mut Work,
    alloc: Global,
    o: u32,
    n: u64,
    p: u64,
    answer: Value,
) -> Result<Answer, Stop>
    requires named { IsNamed work.old.values answer }
    requires within { o < count_with work.old.made work.old.store }
    ensures { WroteAll (λ table. gap_plan o n p (contents table answer)) work.old work.new result }
{
    let behind = n.saturating_sub(p).saturating_sub(1);
    let fewer = n.saturating_sub(1);
    move_down(work, alloc, behind, o, p)?;
    work.set(Location::Len(o), Content::Len(fewer))?;
    Ok(Answer::Value(answer))
}

// The item at an index of a list is taken out, and is the answer.
fn pop_item(work: &mut Work, alloc: Global, o: u32, i: i64) -> Result<Answer, Stop>
    requires within { o < length work.old.store.objects }
    requires fresh { work.old.made ≡ None }
    ensures { Ends (λ table. pop_item_plan o i) work.old work.new result }
{
    let n = work.read_len(o)?;
    let p = place(work, alloc, i, n)?;
    let item = value_at(work, o, p)?;
    close_gap(work, alloc, o, n, p, item)
}

// `l.pop()` on an object.
fn pop_last(work: &mut Work, alloc: Global, o: u32) -> Result<Answer, Stop>
    requires fresh { work.old.made ≡ None }
    ensures { Ends (λ table. pop_plan (object o ∷ [])) work.old work.new result }
{
    list(work, alloc, o)?;
    pop_item(work, alloc, o, -1)
}

// `l.pop(i)` on an object.
fn pop_at(work: &mut Work, alloc: Global, o: u32, w: Value) -> Result<Answer, Stop>
    requires fresh { work.old.made ≡ None }
    ensures { Ends (λ table. pop_plan (object o ∷ contents table w ∷ [])) work.old work.new result }
{
    list(work, alloc, o)?;
    let i = index(work, alloc, w)?;
    pop_item(work, alloc, o, i)
}

/// `l.pop()` and `l.pop(i)` (83): the last item of a list is taken out, or the one at an index. It is the answer.
pub fn pop(work: &mut Work, alloc: Global, operands: &[Value]) -> Result<Answer, Stop>
    requires named { AreNamed work.old.values operands.now }
    requires fresh { work.old.made ≡ None }
    ensures { Ends (λ table. pop_plan (map (contents table) operands.now)) work.old work.new result }
{
    let Some(o) = first_object(operands) else {
        return Err(work.fault(alloc, Exception::TypeError, "wrong kind of value"));
    };
    if operands.len() == 1 {
        return pop_last(work, alloc, o);
    }
    if operands.len() == 2 {
        return pop_at(work, alloc, o, operands[1]);
    }
    Err(work.fault(alloc, Exception::TypeError, "wrong number of arguments"))
}

// The item at an index of a list is deleted.
fn del_in_list(work: &mut Work, alloc: Global, o: u32, w: Value) -> Result<Answer, Stop>
    requires within { o < length work.old.store.objects }
    requires fresh { work.old.made ≡ None }
    ensures { Ends (λ table. with_index (contents table w) (del_item_plan o)) work.old work.new result }
{
    let i = index(work, alloc, w)?;
    let n = work.read_len(o)?;
    let p = place(work, alloc, i, n)?;
    close_gap(work, alloc, o, n, p, Value::None)
}

// The item at an index of a list is deleted, or the one at a key of a dictionary.
fn del_in_object(work: &mut Work, alloc: Global, o: u32, w: Value) -> Result<Answer, Stop>
    requires named { IsNamed work.old.values w }
    requires fresh { work.old.made ≡ None }
    ensures { Ends (λ table. delitem_plan (object o ∷ contents table w ∷ [])) work.old work.new result }
{
    match work.kind_there(o) {
        Some(Kind::List) => del_in_list(work, alloc, o, w),
        Some(Kind::Dict) => del_entry(work, alloc, o, w),
        Some(Kind::Instance(_)) => Err(work.fault(
            alloc,
            Exception::TypeError,
            "wrong kind of value",
        )),
        Some(Kind::File(_, _)) => Err(work.fault(
            alloc,
            Exception::TypeError,
            "wrong kind of value",
        )),
        None => Err(work.fault(alloc, Exception::TypeError, "wrong kind of value")),
    }
}

// The item of a value at an index or a key is deleted.
fn del_in_value(work: &mut Work, alloc: Global, v: Value, w: Value) -> Result<Answer, Stop>
    requires named { IsNamed work.old.values w }
    requires fresh { work.old.made ≡ None }
    ensures { Ends (λ table. delitem_plan (contents table v ∷ contents table w ∷ [])) work.old work.new result }
{
    match v {
        Value::Object(o) => del_in_object(work, alloc, o, w),
        _ => Err(work.fault(alloc, Exception::TypeError, "wrong kind of value")),
    }
}

/// `del v[i]` (29): the item at an index of a list is deleted, or the one at a key of a dictionary.
pub fn delitem(work: &mut Work, alloc: Global, operands: &[Value]) -> Result<Answer, Stop>
    requires named { AreNamed work.old.values operands.now }
    requires fresh { work.old.made ≡ None }
    ensures { Ends (λ table. delitem_plan (map (contents table) operands.now)) work.old work.new result }
{
    let (v, w) = two(work, alloc, operands)?;
    del_in_value(work, alloc, v, w)
}
