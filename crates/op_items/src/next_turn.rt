// The next turn of a `for`.
ghost use Rattle.std.specs.Prelude.{◌≡◌, [], ◌∷◌, None, Some, map, pos};
ghost use Rattle.op_items.specs.Turns.{turn_of_value, size_of_value, is_size as is_size_of};
ghost use Rattle.op_work.specs.Work.{Ends};
ghost use Rattle.py_model.specs.Files.{next_line as line_plan};
ghost use Rattle.py_model.specs.Lists.{next as next_plan, next_of};
ghost use Rattle.py_value.specs.Contents.{contents, int, object};
ghost use Rattle.py_value.specs.Seen.{a_dict};
ghost use Rattle.py_value.specs.Values.{IsNamed, AreNamed};

use crate::lines::next_line;
use crate::operands::three;
use crate::turns::{next_in_list, next_in_range, next_in_text, next_in_tuple};
use op_numbers::value_answer;
use op_work::{Exception, Stop, Work};
use py_model::Answer;
use py_value::{Kind, Value};
use std::alloc::Global;

// The number of a turn.
fn turn_of(v: Value) -> Option<u64>
    ensures { result ≡ turn_of_value v }
{
    match v {
        Value::Int(i) => u64::try_from(i).ok(),
        _ => None,
    }
}

// How many keys a dictionary had; an integer below 0 is no number of keys.
fn size_in(v: Value) -> Option<Option<u64>>
    ensures { result ≡ size_of_value v }
{
    match v {
        Value::Int(i) => Some(u64::try_from(i).ok()),
        _ => None,
    }
}

// Whether a dictionary has as many keys as it had.
fn is_size(size: Option<u64>, count: u32) -> bool
    ensures { result ≡ is_size_of size count }
{
    match size {
        Some(size) => size == u64::from(count),
        None => false,
    }
}

// The key of a dictionary at a turn, or the end. Its size is that of the start, or RuntimeError is raised.
fn next_in_dict(
    work: &mut Work,
    alloc: Global,
    o: u32,
    n: u64,
    begun: Value,
) -> Result<Answer, Stop>
    requires fresh { work.old.made ≡ None }
    ensures { Ends (λ table. next_of line_plan o n (contents table begun) (Some a_dict)) work.old work.new result }
{
    let Some(size) = size_in(begun) else {
        return Err(work.fault(alloc, Exception::TypeError, "wrong kind of value"));
    };
    let count = work.read_order(o)?;
    if !is_size(size, count) {
        return Err(work.fault(alloc, Exception::RuntimeError, "dictionary changed size"));
    }
    if n < u64::from(count) {
        let key = work.key(o, n as u32);
        return value_answer(work, key);
    }
    Ok(Answer::End)
}

// The next turn over an object.
fn next_in_object(
    work: &mut Work,
    alloc: Global,
    o: u32,
    n: u64,
    begun: Value,
) -> Result<Answer, Stop>
    requires fresh { work.old.made ≡ None }
    ensures { Ends (λ table. next_plan line_plan (object o ∷ int (pos n) ∷ contents table begun ∷ [])) work.old work.new result }
{
    match work.kind_there(o) {
        Some(Kind::List) => next_in_list(work, o, n),
        Some(Kind::Dict) => next_in_dict(work, alloc, o, n, begun),
        Some(Kind::File(_, _)) => next_line(work, alloc, o),
        Some(Kind::Instance(_)) => Err(work.fault(
            alloc,
            Exception::TypeError,
            "wrong kind of value",
        )),
        None => Err(work.fault(alloc, Exception::TypeError, "wrong kind of value")),
    }
}

// The next turn over a value.
fn next_in_value(
    work: &mut Work,
    alloc: Global,
    v: Value,
    n: u64,
    begun: Value,
) -> Result<Answer, Stop>
    requires named { IsNamed work.old.values v }
    requires fresh { work.old.made ≡ None }
    ensures { Ends (λ table. next_plan line_plan (contents table v ∷ int (pos n) ∷ contents table begun ∷ [])) work.old work.new result }
{
    match v {
        Value::Text(id) => next_in_text(work, alloc, id, n),
        Value::Tuple(id) => next_in_tuple(work, id, n),
        Value::Range(start, end, step) => next_in_range(work, start, end, step, n),
        Value::Object(o) => next_in_object(work, alloc, o, n, begun),
        _ => Err(work.fault(alloc, Exception::TypeError, "wrong kind of value")),
    }
}

/// The next turn of a `for` (37) over a sequence, by the number of the turn and what its start answered.
pub fn next(work: &mut Work, alloc: Global, operands: &[Value]) -> Result<Answer, Stop>
    requires named { AreNamed work.old.values operands.now }
    requires fresh { work.old.made ≡ None }
    ensures { Ends (λ table. next_plan line_plan (map (contents table) operands.now)) work.old work.new result }
{
    let (v, (w, begun)) = three(work, alloc, operands)?;
    let Some(n) = turn_of(w) else {
        return Err(work.fault(alloc, Exception::TypeError, "wrong kind of value"));
    };
    next_in_value(work, alloc, v, n, begun)
}
