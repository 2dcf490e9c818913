// The writes of an entry and of its key.
ghost use Rattle.std.specs.Prelude.{◌≡◌, ◌<◌};
ghost use Rattle.object_store.specs.Store.{count_with};
ghost use Rattle.op_dicts.specs.Founds.{pair_set, pair_added, pair_removed};
ghost use Rattle.op_work.specs.Work.{WroteAll};
ghost use Rattle.py_value.specs.Contents.{contents};
ghost use Rattle.py_value.specs.Values.{IsNamed};

use op_work::{Stop, Work};
use py_model::Answer;
use py_value::{Change, Content, Key, Location, Value};

/// The entry at a key is set to its first form and a value.
pub(crate) fn put_pair(
    work: &mut Work,
    o: u32,
    key: Key,
    first: Value,
    item: Value,
) -> Result<Answer, Stop>
    requires key { IsNamed work.old.values key.value }
    requires first { IsNamed work.old.values first }
    requires item { IsNamed work.old.values item }
    ensures { WroteAll (λ table. pair_set o (contents table key.value) (contents table first) (contents table item)) work.old work.new result }
{
    work.set(Location::Entry(o, key), Content::Entry(Some((first, item))))?;
    Ok(Answer::Value(Value::None))
}

/// The entry at a key is set, and its first form goes behind the other keys.
pub(crate) fn add_pair(
    work: &mut Work,
    o: u32,
    key: Key,
    first: Value,
    item: Value,
) -> Result<Answer, Stop>
    requires key { IsNamed work.old.values key.value }
    requires first { IsNamed work.old.values first }
    requires item { IsNamed work.old.values item }
    requires within { o < count_with work.old.made work.old.store }
    ensures { WroteAll (λ table. pair_added o (contents table key.value) (contents table first) (contents table item)) work.old work.new result }
{
    work.set(Location::Entry(o, key), Content::Entry(Some((first, item))))?;
    work.update(Location::Order(o), Change::Insert(first))?;
    Ok(Answer::Value(Value::None))
}

/// The entry at a key is set as absent, and its first form goes out of the order.
pub(crate) fn remove_pair(work: &mut Work, o: u32, key: Key, first: Value) -> Result<Answer, Stop>
    requires key { IsNamed work.old.values key.value }
    requires first { IsNamed work.old.values first }
    requires within { o < count_with work.old.made work.old.store }
    ensures { WroteAll (λ table. pair_removed o (contents table key.value) (contents table first)) work.old work.new result }
{
    work.set(Location::Entry(o, key), Content::Entry(None))?;
    work.update(Location::Order(o), Change::Delete(first))?;
    Ok(Answer::Value(Value::None))
}
