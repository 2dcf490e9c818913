// Lists that are extended in place.
ghost use Rattle.std.specs.Prelude.{◌≡◌, ◌<◌, ◌+◌, length, map, None};
ghost use Rattle.object_store.specs.Store.{count_with};
ghost use Rattle.op_joins.specs.Extended.{extended};
ghost use Rattle.op_work.specs.Work.{Ends, WroteAll};
ghost use Rattle.py_model.specs.Lists.{extend as extend_plan};
ghost use Rattle.py_model.specs.Making.{set_items as set_plan};
ghost use Rattle.py_model.specs.Plan.{write, done};
ghost use Rattle.py_value.specs.Contents.{contents};
ghost use Rattle.py_value.specs.Seen.{len_at, len_is};
ghost use Rattle.py_value.specs.Values.{IsNamed, AreNamed};

use crate::receivers::list_operand;
use op_lists::{if_walked, set_items, walk_value};
use op_work::{Stop, Work};
use py_model::Answer;
use py_value::{Content, Location, Value};
use std::alloc::Global;

/// The items of a sequence are set behind those of a list, and then its length. That the sequence can be walked is tested before
/// anything is read.
pub fn extend_list(
    work: &mut Work,
    alloc: Global,
    o: u32,
    other: Value,
    answer: Value,
) -> Result<Answer, Stop>
    requires other { IsNamed work.old.values other }
    requires answer { IsNamed work.old.values answer }
    requires within { o < length work.old.store.objects }
    requires fresh { work.old.made ≡ None }
    ensures { Ends (λ table. extended o (contents table other) (contents table answer)) work.old work.new result }
{
    if_walked(work, alloc, other)?;
    let n = work.read_len(o)?;
    let items = walk_value(work, alloc, other)?;
    set_behind(work, o, n, items.as_slice(), answer)
}

// Items are set behind so many others, and then the length. A length that passes 64 bits is refused as out of memory.
fn set_behind(
    work: &mut Work,
    o: u32,
    n: u64,
    items: &[Value],
    answer: Value,
) -> Result<Answer, Stop>
    requires items { AreNamed work.old.values items.now }
    requires answer { IsNamed work.old.values answer }
    requires within { o < count_with work.old.made work.old.store }
    ensures { WroteAll (λ table. set_plan o n (map (contents table) items.now) (write (len_at o) (len_is (n + length items.now)) (done (contents table answer)))) work.old work.new result }
{
    let Some(longer) = n.checked_add(items.len() as u64) else {
        return Err(Stop::Memory);
    };
    set_items(work, o, n, items)?;
    work.set(Location::Len(o), Content::Len(longer))?;
    Ok(Answer::Value(answer))
}

/// `l.extend(v)` (81): the list is extended in place.
pub fn extend(work: &mut Work, alloc: Global, operands: &[Value]) -> Result<Answer, Stop>
    requires named { AreNamed work.old.values operands.now }
    requires fresh { work.old.made ≡ None }
    ensures { Ends (λ table. extend_plan (map (contents table) operands.now)) work.old work.new result }
{
    let o = list_operand(work, alloc, operands, 2)?;
    extend_list(work, alloc, o, operands[1], Value::None)
}
