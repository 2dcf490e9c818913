// The item at an index or a key.
ghost use Rattle.std.specs.Prelude.{◌≡◌, ◌<◌, [], ◌∷◌, None, length, map};
ghost use Rattle.op_work.specs.Work.{Ends};
ghost use Rattle.py_model.specs.Lists.{getitem as getitem_plan, get_item as get_item_plan};
ghost use Rattle.py_model.specs.Places.{with_index};
ghost use Rattle.py_value.specs.Contents.{contents, range, object};
ghost use Rattle.py_value.specs.Values.{IsNamed, AreNamed};
ghost use Rattle.py_value.specs.declared.value.Value.TheVariants.{Text, Tuple};

use crate::letters::{letter_answer, letter_at};
use crate::numbers::number_answer;
use crate::parts::{look_answer, part_at};
use crate::places::index_place;
use op_dicts::get_entry;
use op_lists::{get_item, index, range_count};
use op_numbers::{two, value_answer};
use op_texts::size;
use op_work::{Exception, Stop, Work};
use py_model::Answer;
use py_value::{Kind, Value, tuples_are_their_parts};
use std::alloc::Global;

// The part of a tuple at an index, which is looked at.
fn tuple_item(work: &mut Work, alloc: Global, id: u32, w: Value) -> Result<Answer, Stop>
    requires there { id < length work.old.values.tuples }
    requires fresh { work.old.made ≡ None }
    ensures { Ends (λ table. getitem_plan (contents table (Tuple id) ∷ contents table w ∷ [])) work.old work.new result }
{
    tuples_are_their_parts();
    let count = work.tuple_of(id).len() as u64;
    let p = index_place(work, alloc, w, count)?;
    let item = part_at(work.tuple_of(id), p).unwrap_or(Value::None);
    look_answer(work, item)
}

// The number of a range at an index, which is looked at.
fn range_item(
    work: &mut Work,
    alloc: Global,
    start: i64,
    end: i64,
    step: i64,
    w: Value,
) -> Result<Answer, Stop>
    requires fresh { work.old.made ≡ None }
    ensures { Ends (λ table. getitem_plan (range start end step ∷ contents table w ∷ [])) work.old work.new result }
{
    let p = index_place(work, alloc, w, range_count(start, end, step))?;
    number_answer(work, start, step, p)
}

// The character of a text at an index, which is counted.
fn text_item(work: &mut Work, alloc: Global, id: u32, w: Value) -> Result<Answer, Stop>
    requires there { id < length work.old.values.texts }
    requires fresh { work.old.made ≡ None }
    ensures { Ends (λ table. getitem_plan (contents table (Text id) ∷ contents table w ∷ [])) work.old work.new result }
{
    let count = size(work.text_of(id));
    let p = index_place(work, alloc, w, count)?;
    let letter = letter_at(work.text_of(id), p);
    letter_answer(work, alloc, letter)
}

// The item of a list at an index.
fn list_item(work: &mut Work, alloc: Global, o: u32, w: Value) -> Result<Answer, Stop>
    requires fresh { work.old.made ≡ None }
    ensures { Ends (λ table. with_index (contents table w) (get_item_plan o)) work.old work.new result }
{
    let i = index(work, alloc, w)?;
    let item = get_item(work, alloc, o, i)?;
    value_answer(work, item)
}

// The item of a list at an index, or of a dictionary at a key.
fn object_item(work: &mut Work, alloc: Global, o: u32, w: Value) -> Result<Answer, Stop>
    requires named { IsNamed work.old.values w }
    requires fresh { work.old.made ≡ None }
    ensures { Ends (λ table. getitem_plan (object o ∷ contents table w ∷ [])) work.old work.new result }
{
    match work.kind_there(o) {
        Some(Kind::List) => list_item(work, alloc, o, w),
        Some(Kind::Dict) => get_entry(work, alloc, o, w),
        Some(Kind::Instance(_)) => Err(work.fault(
            alloc,
            Exception::TypeError,
            "wrong kind of value",
        )),
        Some(Kind::File(_, _)) => Err(work.fault(
            alloc,
            Exception::TypeError,
            "wrong kind of value",
        )),
        None => Err(work.fault(alloc, Exception::TypeError, "wrong kind of value")),
    }
}

// The item of a value at an index or a key.
fn value_item(work: &mut Work, alloc: Global, v: Value, w: Value) -> Result<Answer, Stop>
    requires sequence { IsNamed work.old.values v }
    requires index { IsNamed work.old.values w }
    requires fresh { work.old.made ≡ None }
    ensures { Ends (λ table. getitem_plan (contents table v ∷ contents table w ∷ [])) work.old work.new result }
{
    match v {
        Value::Text(id) => text_item(work, alloc, id, w),
        Value::Tuple(id) => tuple_item(work, alloc, id, w),
        Value::Range(start, end, step) => range_item(work, alloc, start, end, step, w),
        Value::Object(o) => object_item(work, alloc, o, w),
        _ => Err(work.fault(alloc, Exception::TypeError, "wrong kind of value")),
    }
}

/// `v[i]` (26): the item of a tuple, a range, a text or a list at an index, or of a dictionary at a key.
pub fn getitem(work: &mut Work, alloc: Global, operands: &[Value]) -> Result<Answer, Stop>
    requires named { AreNamed work.old.values operands.now }
    requires fresh { work.old.made ≡ None }
    ensures { Ends (λ table. getitem_plan (map (contents table) operands.now)) work.old work.new result }
{
    let (v, w) = two(work, alloc, operands)?;
    value_item(work, alloc, v, w)
}
