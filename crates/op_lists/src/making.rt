// A list of given items.
ghost use Rattle.std.specs.Prelude.{◌≡◌, ◌<◌, ◌+◌, ◌^◌, None, length, map};
ghost use Rattle.object_store.specs.Store.{count_with};
ghost use Rattle.op_work.specs.Work.{Ends, Wrote, WroteAll};
ghost use Rattle.py_model.specs.Making.{set_items as set_plan, new_list as list_plan};
ghost use Rattle.py_model.specs.Plan.{write, done};
ghost use Rattle.py_value.specs.Contents.{contents, object};
ghost use Rattle.py_value.specs.Seen.{len_at, len_is};
ghost use Rattle.py_value.specs.Values.{AreNamed};

use op_work::{Stop, Work};
use py_model::Answer;
use py_value::{Content, Kind, Location, Value};

/// Items are set from a place of an object on, one after the other.
pub fn set_items(work: &mut Work, o: u32, first: u64, items: &[Value]) -> Result<(), Stop>
    requires named { AreNamed work.old.values items.now }
    requires within { o < count_with work.old.made work.old.store }
    requires few { first + length items.now < 2 ^ 64 }
    ensures { Wrote (λ table. set_plan o first (map (contents table) items.now)) work.old work.new result }
{
    let mut at = first;
    for item in items {
        work.set(Location::Item(o, at), Content::Item(*item))?;
        at += 1;
    }
    Ok(())
}

/// A list of these items is made: its length is set, then its items. It is the answer.
pub fn new_list(work: &mut Work, items: &[Value]) -> Result<Answer, Stop>
    requires named { AreNamed work.old.values items.now }
    requires fresh { work.old.made ≡ None }
    ensures { Ends (λ table. list_plan (map (contents table) items.now)) work.old work.new result }
{
    let o = work.make(Kind::List);
    fill(work, o, items)
}

// The length of a list and its items are set.
fn fill(work: &mut Work, o: u32, items: &[Value]) -> Result<Answer, Stop>
    requires named { AreNamed work.old.values items.now }
    requires within { o < count_with work.old.made work.old.store }
    ensures { WroteAll (λ table. write (len_at o) (len_is (length items.now)) (set_plan o 0 (map (contents table) items.now) (done (object o)))) work.old work.new result }
{
    work.set(Location::Len(o), Content::Len(items.len() as u64))?;
    set_items(work, o, 0, items)?;
    Ok(Answer::Value(Value::Object(o)))
}
