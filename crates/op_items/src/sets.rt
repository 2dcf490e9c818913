// An item is set at an index or a key.
ghost use Rattle.std.specs.Prelude.{◌≡◌, ◌<◌, [], ◌∷◌, None, length, map};
ghost use Rattle.object_store.specs.Store.{count_with};
ghost use Rattle.op_work.specs.Work.{Ends, WroteAll};
ghost use Rattle.py_model.specs.Lists.{setitem as setitem_plan, set_item as set_plan};
ghost use Rattle.py_model.specs.Places.{with_index};
ghost use Rattle.py_model.specs.Plan.{write, done};
ghost use Rattle.py_value.specs.Contents.{contents, object, nothing};
ghost use Rattle.py_value.specs.Seen.{item_at, item_is};
ghost use Rattle.py_value.specs.Values.{IsNamed, AreNamed};

use crate::operands::three;
use crate::places::length_and_place;
use op_dicts::set_entry;
use op_lists::index;
use op_work::{Exception, Stop, Work};
use py_model::Answer;
use py_value::{Content, Kind, Location, Value};
use std::alloc::Global;

// An item is set at a place of a list.
fn put_item(work: &mut Work, o: u32, p: u64, x: Value) -> Result<Answer, Stop>
    requires named { IsNamed work.old.values x }
    requires within { o < count_with work.old.made work.old.store }
    ensures { WroteAll (λ table. write (item_at o p) (item_is (contents table x)) (done nothing)) work.old work.new result }
{
    work.set(Location::Item(o, p), Content::Item(x))?;
    Ok(Answer::Value(Value::None))
}

// An item is set at an index of a list.
fn set_in_list(work: &mut Work, alloc: Global, o: u32, w: Value, x: Value) -> Result<Answer, Stop>
    requires named { IsNamed work.old.values x }
    requires fresh { work.old.made ≡ None }
    requires within { o < length work.old.store.objects }
    ensures { Ends (λ table. with_index (contents table w) (set_plan o (contents table x))) work.old work.new result }
{
    let i = index(work, alloc, w)?;
    let found = length_and_place(work, alloc, o, i)?;
    put_item(work, o, found.1, x)
}

// An item is set at an index of a list, or at a key of a dictionary.
fn set_in_object(work: &mut Work, alloc: Global, o: u32, w: Value, x: Value) -> Result<Answer, Stop>
    requires index { IsNamed work.old.values w }
    requires item { IsNamed work.old.values x }
    requires fresh { work.old.made ≡ None }
    ensures { Ends (λ table. setitem_plan (object o ∷ contents table w ∷ contents table x ∷ [])) work.old work.new result }
{
    match work.kind_there(o) {
        Some(Kind::List) => set_in_list(work, alloc, o, w, x),
        Some(Kind::Dict) => set_entry(work, alloc, o, w, x),
        Some(Kind::Instance(_)) => Err(work.fault(
            alloc,
            Exception::TypeError,
            "wrong kind of value",
        )),
        Some(Kind::File(_, _)) => Err(work.fault(
            alloc,
            Exception::TypeError,
            "wrong kind of value",
        )),
        None => Err(work.fault(alloc, Exception::TypeError, "wrong kind of value")),
    }
}

// An item of a value is set at an index or a key.
fn set_in_value(
    work: &mut Work,
    alloc: Global,
    v: Value,
    w: Value,
    x: Value,
) -> Result<Answer, Stop>
    requires index { IsNamed work.old.values w }
    requires item { IsNamed work.old.values x }
    requires fresh { work.old.made ≡ None }
    ensures { Ends (λ table. setitem_plan (contents table v ∷ contents table w ∷ contents table x ∷ [])) work.old work.new result }
{
    match v {
        Value::Object(o) => set_in_object(work, alloc, o, w, x),
        _ => Err(work.fault(alloc, Exception::TypeError, "wrong kind of value")),
    }
}

/// `v[i] = w` (28): an item is set at an index of a list, or at a key of a dictionary.
pub fn setitem(work: &mut Work, alloc: Global, operands: &[Value]) -> Result<Answer, Stop>
    requires named { AreNamed work.old.values operands.now }
    requires fresh { work.old.made ≡ None }
    ensures { Ends (λ table. setitem_plan (map (contents table) operands.now)) work.old work.new result }
{
    let (v, (w, x)) = three(work, alloc, operands)?;
    set_in_value(work, alloc, v, w, x)
}
