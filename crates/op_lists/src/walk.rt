// The walk of a sequence: its items, each read, looked at or counted.
ghost use Rattle.std.specs.Prelude.{◌<◌, ◌≡◌, length, Some, IfOk, OnOk};
ghost use Rattle.op_work.specs.Work.{Comes, IsKept};
ghost use Rattle.op_lists.specs.ValuesSeen.{values_seen};
ghost use Rattle.object_store.specs.Store.{keys_at};
ghost use Rattle.py_model.specs.Walks.{walk, walk_object};
ghost use Rattle.py_model.specs.Plan.{kind_of, read_order};
ghost use Rattle.py_value.specs.Contents.{contents};
ghost use Rattle.py_value.specs.Values.{IsNamed, AreNamed};
ghost use Rattle.py_value.specs.declared.value.Value.TheVariants.{Tuple};

use crate::items::items_from;
use crate::ranges::walk_range;
use crate::texts::walk_text;
use op_work::{Exception, Stop, Work};
use prov_base::Memory;
use py_value::{Kind, Value, tuples_are_their_parts};
use std::alloc::Global;

/// The items of a tuple, each looked at.
pub fn walk_tuple(work: &mut Work, alloc: Global, id: u32) -> Result<Vec<Value>, Stop>
    requires { id < length work.old.values.tuples }
    ensures { Comes (λ values vs. AreNamed values vs.items) (λ table vs. values_seen table vs.items) (λ table. walk (contents table (Tuple id))) work.old work.new result }
{
    tuples_are_their_parts();
    work.look(work.tuple_of(id).len() as u64)?;
    let items = Vec::from_slice(alloc, work.tuple_of(id))?;
    Ok(items)
}

/// The keys of a dictionary, in their order.
pub fn walk_keys(work: &mut Work, alloc: Global, o: u32) -> Result<Vec<Value>, Stop>
    ensures { Comes (λ values vs. AreNamed values vs.items) (λ table vs. values_seen table vs.items) (λ table. read_order o) work.old work.new result }
{
    let count = work.read_order(o)?;
    let keys = keys_of(work, alloc, o, count)?;
    Ok(keys)
}

// So many keys of an order that was read.
fn keys_of(work: &Work, alloc: Global, o: u32, count: u32) -> Result<Vec<Value>, Memory>
    requires { count ≡ length (keys_at work.now.store o) }
    ensures { IfOk result (λ vs. vs.items ≡ keys_at work.now.store o) }
{
    let mut keys = Vec::new(alloc);
    for i in 0..count {
        keys.push(work.key(o, i))?;
    }
    Ok(keys)
}

/// The items of a list, or the keys of a dictionary.
pub fn walk_object(work: &mut Work, alloc: Global, o: u32) -> Result<Vec<Value>, Stop>
    ensures { Comes (λ values vs. AreNamed values vs.items) (λ table vs. values_seen table vs.items) (λ table go. kind_of o (walk_object o go)) work.old work.new result }
{
    match work.kind(o) {
        Some(Kind::List) => {
            let n = work.read_len(o)?;
            items_from(work, alloc, n, o, 0)
        }
        Some(Kind::Dict) => walk_keys(work, alloc, o),
        Some(Kind::File(_, _)) => Err(work.fault(
            alloc,
            Exception::NotImplementedError,
            "not in this profile",
        )),
        Some(Kind::Instance(_)) => Err(work.fault(
            alloc,
            Exception::TypeError,
            "wrong kind of value",
        )),
        None => Err(work.fault(alloc, Exception::TypeError, "wrong kind of value")),
    }
}

/// The items of a value that can be walked: a list, a dictionary, a tuple, a range or a text. Another is a fault.
pub fn walk_value(work: &mut Work, alloc: Global, v: Value) -> Result<Vec<Value>, Stop>
    requires { IsNamed work.old.values v }
    ensures { Comes (λ values vs. AreNamed values vs.items) (λ table vs. values_seen table vs.items) (λ table. walk (contents table v)) work.old work.new result }
{
    match v {
        Value::Text(id) => walk_text(work, alloc, id),
        Value::Tuple(id) => walk_tuple(work, alloc, id),
        Value::Range(start, end, step) => walk_range(work, alloc, start, end, step),
        Value::Object(o) => walk_object(work, alloc, o),
        _ => Err(work.fault(alloc, Exception::TypeError, "wrong kind of value")),
    }
}
