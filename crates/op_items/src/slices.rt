// A part of a sequence.
ghost use Rattle.std.specs.Prelude.{◌≡◌, ◌<◌, ◌≤◌, ◌+◌, [], ◌∷◌, None, Some, IfOk, List, length, map, slice_get};
ghost use Rattle.op_work.specs.Work.{Ends};
ghost use Rattle.py_model.specs.Lists.{slice as slice_plan};
ghost use Rattle.py_model.specs.Places.{part_from};
ghost use Rattle.py_value.specs.Contents.{contents, object};
ghost use Rattle.py_value.specs.Values.{IsNamed, AreNamed};
ghost use Rattle.py_value.specs.declared.value.Value.{Value as OneValue};
ghost use Rattle.py_value.specs.declared.value.Value.TheVariants.{Text, Tuple};

use crate::bounds::{bounds, part};
use crate::operands::three;
use crate::slice_letters::letters_from;
use op_lists::{items_from, list, new_list};
use op_numbers::value_answer;
use op_texts::size;
use op_work::{Exception, Stop, Work};
use prov_base::Memory;
use py_model::Answer;
use py_value::{Value, tuples_are_their_parts};
use std::alloc::Global;

// So many parts of a tuple, from a place on.
fn parts_from(
    work: &Work,
    alloc: Global,
    id: u32,
    first: u64,
    count: u64,
) -> Result<Vec<Value>, Memory>
    requires there { id < length work.now.values.tuples }
    requires within { (items : List OneValue) → slice_get work.now.values.tuples id ≡ Some items → first + count ≤ length items }
    ensures parts { IfOk result (λ vs. (items : List OneValue) → slice_get work.now.values.tuples id ≡ Some items → vs.items ≡ part_from first count items) }
    ensures named { IfOk result (λ vs. AreNamed work.now.values vs.items) }
{
    let items = work.tuple_of(id);
    let from = first as usize;
    let parts = Vec::from_slice(alloc, &items[from..from + count as usize])?;
    Ok(parts)
}

// A part of a tuple, which is looked at.
fn tuple_slice(
    work: &mut Work,
    alloc: Global,
    id: u32,
    low: Value,
    high: Value,
) -> Result<Answer, Stop>
    requires there { id < length work.old.values.tuples }
    requires fresh { work.old.made ≡ None }
    ensures { Ends (λ table. slice_plan (contents table (Tuple id) ∷ contents table low ∷ contents table high ∷ [])) work.old work.new result }
{
    tuples_are_their_parts();
    let n = work.tuple_of(id).len() as u64;
    let found = bounds(work, alloc, low, high)?;
    let (first, count) = part(found.0, found.1, n);
    work.look(count)?;
    let items = parts_from(work, alloc, id, first, count)?;
    let made = work.tuple(alloc, items.as_slice())?;
    value_answer(work, made)
}

// A part of a text, whose characters are counted.
fn text_slice(
    work: &mut Work,
    alloc: Global,
    id: u32,
    low: Value,
    high: Value,
) -> Result<Answer, Stop>
    requires there { id < length work.old.values.texts }
    requires fresh { work.old.made ≡ None }
    ensures { Ends (λ table. slice_plan (contents table (Text id) ∷ contents table low ∷ contents table high ∷ [])) work.old work.new result }
{
    let n = size(work.text_of(id));
    let found = bounds(work, alloc, low, high)?;
    let (first, count) = part(found.0, found.1, n);
    work.count(count)?;
    let words = letters_from(alloc, work.text_of(id), first, count)?;
    let made = work.text(alloc, words.as_str())?;
    value_answer(work, made)
}

// A part of a list, whose items are read, as a list.
fn list_slice(
    work: &mut Work,
    alloc: Global,
    o: u32,
    low: Value,
    high: Value,
) -> Result<Answer, Stop>
    requires fresh { work.old.made ≡ None }
    ensures { Ends (λ table. slice_plan (object o ∷ contents table low ∷ contents table high ∷ [])) work.old work.new result }
{
    list(work, alloc, o)?;
    let found = bounds(work, alloc, low, high)?;
    let n = work.read_len(o)?;
    let (first, count) = part(found.0, found.1, n);
    let items = items_from(work, alloc, count, o, first)?;
    new_list(work, items.as_slice())
}

// A part of a value.
fn value_slice(
    work: &mut Work,
    alloc: Global,
    v: Value,
    low: Value,
    high: Value,
) -> Result<Answer, Stop>
    requires named { IsNamed work.old.values v }
    requires fresh { work.old.made ≡ None }
    ensures { Ends (λ table. slice_plan (contents table v ∷ contents table low ∷ contents table high ∷ [])) work.old work.new result }
{
    match v {
        Value::Text(id) => text_slice(work, alloc, id, low, high),
        Value::Tuple(id) => tuple_slice(work, alloc, id, low, high),
        Value::Object(o) => list_slice(work, alloc, o, low, high),
        _ => Err(work.fault(alloc, Exception::TypeError, "wrong kind of value")),
    }
}

/// `v[low:high]` (27): a part of a text, a tuple or a list.
pub fn slice(work: &mut Work, alloc: Global, operands: &[Value]) -> Result<Answer, Stop>
    requires named { AreNamed work.old.values operands.now }
    requires fresh { work.old.made ≡ None }
    ensures { Ends (λ table. slice_plan (map (contents table) operands.now)) work.old work.new result }
{
    let (v, (low, high)) = three(work, alloc, operands)?;
    value_slice(work, alloc, v, low, high)
}
