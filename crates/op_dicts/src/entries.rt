// The item at a key of a dictionary.
ghost use Rattle.std.specs.Prelude.{◌≡◌, ◌<◌, None, length};
ghost use Rattle.op_dicts.specs.Founds.{IsFound, found_seen, with_entry};
ghost use Rattle.op_work.specs.Work.{Comes, Ends};
ghost use Rattle.py_model.specs.Dicts.{get_entry as plan_get, set_entry as plan_set, del_entry as plan_del};
ghost use Rattle.py_value.specs.Contents.{contents};
ghost use Rattle.py_value.specs.Values.{IsNamed};

use crate::puts::{add_pair, put_pair, remove_pair};
use op_work::{Exception, Stop, Work};
use py_model::Answer;
use py_value::{Key, Value, contents_stay};
use std::alloc::Global;

/// The key that a value is, and the entry of a dictionary that stands there.
pub fn entry_at(
    work: &mut Work,
    alloc: Global,
    o: u32,
    v: Value,
) -> Result<(Key, Option<(Value, Value)>), Stop>
    requires { IsNamed work.old.values v }
    ensures { Comes (IsFound v) (found_seen v) (λ table. with_entry o (contents table v)) work.old work.new result }
{
    contents_stay();
    let key = work.key_of(alloc, v)?;
    let _ = work.values();
    let entry = work.read_entry(o, v, key)?;
    let _ = work.values();
    Ok((key, entry))
}

/// The item at a key; one that is not there is refused.
pub fn get_entry(work: &mut Work, alloc: Global, o: u32, v: Value) -> Result<Answer, Stop>
    requires named { IsNamed work.old.values v }
    requires fresh { work.old.made ≡ None }
    ensures { Ends (λ table. plan_get o (contents table v)) work.old work.new result }
{
    let (key, entry) = entry_at(work, alloc, o, v)?;
    let _ = key;
    match entry {
        Some(pair) => Ok(Answer::Value(pair.1)),
        None => Err(Stop::Raises(Exception::KeyError.number(), v)),
    }
}

/// The item at a key is set. A key that is there keeps its place and its first form.
pub fn set_entry(
    work: &mut Work,
    alloc: Global,
    o: u32,
    v: Value,
    item: Value,
) -> Result<Answer, Stop>
    requires key { IsNamed work.old.values v }
    requires item { IsNamed work.old.values item }
    requires fresh { work.old.made ≡ None }
    requires within { o < length work.old.store.objects }
    ensures { Ends (λ table. plan_set o (contents table v) (contents table item)) work.old work.new result }
{
    contents_stay();
    let (key, entry) = entry_at(work, alloc, o, v)?;
    match entry {
        Some(pair) => put_pair(work, o, key, pair.0, item),
        None => add_pair(work, o, key, v, item),
    }
}

/// The item at a key is deleted; one that is not there is refused.
pub fn del_entry(work: &mut Work, alloc: Global, o: u32, v: Value) -> Result<Answer, Stop>
    requires named { IsNamed work.old.values v }
    requires fresh { work.old.made ≡ None }
    requires within { o < length work.old.store.objects }
    ensures { Ends (λ table. plan_del o (contents table v)) work.old work.new result }
{
    contents_stay();
    let (key, entry) = entry_at(work, alloc, o, v)?;
    match entry {
        Some(pair) => remove_pair(work, o, key, pair.0),
        None => Err(Stop::Raises(Exception::KeyError.number(), v)),
    }
}
