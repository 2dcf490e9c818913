// The entries of a dictionary at the keys of its order.
ghost use Rattle.op_work.specs.Entries.{IsKeyOf, IsNamedEntry, seen_entry, value_seen};
ghost use Rattle.op_work.specs.Work.{Comes};
ghost use Rattle.py_model.specs.Plan.{Plan, read_entry as plan_entry};
ghost use Rattle.py_value.specs.Contents.{Contents, contents};
ghost use Rattle.py_value.specs.Values.{IsNamed};

use op_work::{Stop, Work};
use py_value::{Key, Value};
use std::alloc::Global;

/// The key that a value of an order is; one that is no key is answered as out of memory.
pub fn order_key(work: &mut Work, alloc: Global, v: Value) -> Result<Key, Stop>
    requires { IsNamed work.old.values v }
    ensures { Comes (IsKeyOf v) (value_seen v) (λ table (go : Contents → Plan). go (contents table v)) work.old work.new result }
{
    match work.key_of(alloc, v) {
        Ok(key) => Ok(key),
        Err(_) => Err(Stop::Memory),
    }
}

/// The entry of a dictionary at a key of an order.
pub fn entry_at(
    work: &mut Work,
    alloc: Global,
    o: u32,
    v: Value,
) -> Result<Option<(Value, Value)>, Stop>
    requires { IsNamed work.old.values v }
    ensures { Comes IsNamedEntry seen_entry (λ table. plan_entry o (contents table v)) work.old work.new result }
{
    let key = order_key(work, alloc, v)?;
    work.read_entry(o, v, key)
}
