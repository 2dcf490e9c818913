// Lists that are repeated: a new one is made, and each of its items is paid for as it is set.
ghost use Rattle.std.specs.Prelude.{◌≡◌, ◌<◌, ◌*◌, ◌^◌, None, length, map};
ghost use Rattle.object_store.specs.Store.{count_with};
ghost use Rattle.op_work.specs.Work.{Ends, Wrote, WroteAll};
ghost use Rattle.py_model.specs.Arithmetic.{repeated, repeats};
ghost use Rattle.py_model.specs.Making.{set_items as set_plan, new_list as list_plan};
ghost use Rattle.py_model.specs.Plan.{write, done};
ghost use Rattle.py_value.specs.Contents.{contents, object};
ghost use Rattle.py_value.specs.Seen.{len_at, len_is};
ghost use Rattle.py_value.specs.Values.{AreNamed};

use op_lists::{list, set_items, walk_value};
use op_work::{Stop, Work};
use py_model::Answer;
use py_value::{Content, Kind, Location, Value};
use std::alloc::Global;

// Items are set from the first place of an object on, so many times. Nothing is repeated where there are none.
fn set_rounds(work: &mut Work, o: u32, items: &[Value], n: u64) -> Result<(), Stop>
    requires named { AreNamed work.old.values items.now }
    requires within { o < count_with work.old.made work.old.store }
    requires few { length items.now * n < 2 ^ 64 }
    ensures { Wrote (λ table. set_plan o 0 (map (contents table) (repeated n items.now))) work.old work.new result }
{
    if items.is_empty() {
        return Ok(());
    }
    let mut at = 0;
    for _ in 0..n {
        set_items(work, o, at, items)?;
        at += items.len() as u64;
    }
    Ok(())
}

// The length of a list and its items are set.
fn fill_times(work: &mut Work, o: u32, items: &[Value], n: u64, count: u64) -> Result<Answer, Stop>
    requires named { AreNamed work.old.values items.now }
    requires within { o < count_with work.old.made work.old.store }
    requires count { count ≡ length items.now * n }
    ensures { WroteAll (λ table. write (len_at o) (len_is count) (set_plan o 0 (map (contents table) (repeated n items.now)) (done (object o)))) work.old work.new result }
{
    work.set(Location::Len(o), Content::Len(count))?;
    set_rounds(work, o, items, n)?;
    Ok(Answer::Value(Value::Object(o)))
}

// A list of items that are repeated so many times is made. It is the answer.
fn make_times(work: &mut Work, items: &[Value], n: u64) -> Result<Answer, Stop>
    requires named { AreNamed work.old.values items.now }
    requires fresh { work.old.made ≡ None }
    ensures { Ends (λ table. list_plan (repeated n (map (contents table) items.now))) work.old work.new result }
{
    let Some(count) = (items.len() as u64).checked_mul(n) else {
        return Err(Stop::Memory);
    };
    let o = work.make(Kind::List);
    fill_times(work, o, items, n, count)
}

/// A list so many times: it is walked, and a new one is made.
pub fn repeat_list(work: &mut Work, alloc: Global, o: u32, n: u64) -> Result<Answer, Stop>
    requires fresh { work.old.made ≡ None }
    ensures { Ends (λ table. repeats (object o) n) work.old work.new result }
{
    list(work, alloc, o)?;
    let items = walk_value(work, alloc, Value::Object(o))?;
    make_times(work, items.as_slice(), n)
}
