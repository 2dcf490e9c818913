// The start of a `for`.
ghost use Rattle.std.specs.Prelude.{◌≡◌, [], ◌∷◌, None, length, map, pos};
ghost use Rattle.op_work.specs.Work.{Ends};
ghost use Rattle.py_model.specs.Lists.{iter as iter_plan};
ghost use Rattle.py_model.specs.Operands.{gives};
ghost use Rattle.py_model.specs.Plan.{read_order};
ghost use Rattle.py_value.specs.Contents.{contents, object, int};
ghost use Rattle.py_value.specs.Values.{AreNamed};

use op_numbers::{one, value_answer};
use op_work::{Exception, Stop, Work};
use py_model::Answer;
use py_value::{Kind, Value};
use std::alloc::Global;

// How many keys a dictionary has.
fn key_count(work: &mut Work, o: u32) -> Result<Answer, Stop>
    requires fresh { work.old.made ≡ None }
    ensures { Ends (λ table. read_order o (λ keys. gives (int (pos (length keys))))) work.old work.new result }
{
    let count = work.read_order(o)?;
    value_answer(work, Value::Int(i64::from(count)))
}

// The start of a `for` over an object.
fn iter_object(work: &mut Work, alloc: Global, o: u32) -> Result<Answer, Stop>
    requires fresh { work.old.made ≡ None }
    ensures { Ends (λ table. iter_plan (object o ∷ [])) work.old work.new result }
{
    match work.kind_there(o) {
        Some(Kind::List) => value_answer(work, Value::None),
        Some(Kind::Dict) => key_count(work, o),
        Some(Kind::File(_, _)) => value_answer(work, Value::None),
        Some(Kind::Instance(_)) => Err(work.fault(
            alloc,
            Exception::TypeError,
            "wrong kind of value",
        )),
        None => Err(work.fault(alloc, Exception::TypeError, "wrong kind of value")),
    }
}

// The start of a `for` over a value.
fn iter_value(work: &mut Work, alloc: Global, v: Value) -> Result<Answer, Stop>
    requires fresh { work.old.made ≡ None }
    ensures { Ends (λ table. iter_plan (contents table v ∷ [])) work.old work.new result }
{
    match v {
        Value::Text(_) => value_answer(work, Value::None),
        Value::Tuple(_) => value_answer(work, Value::None),
        Value::Range(_, _, _) => value_answer(work, Value::None),
        Value::Object(o) => iter_object(work, alloc, o),
        _ => Err(work.fault(alloc, Exception::TypeError, "wrong kind of value")),
    }
}

/// The start of a `for` (36): how many keys a dictionary has, and None for every other sequence.
pub fn iter(work: &mut Work, alloc: Global, operands: &[Value]) -> Result<Answer, Stop>
    requires named { AreNamed work.old.values operands.now }
    requires fresh { work.old.made ≡ None }
    ensures { Ends (λ table. iter_plan (map (contents table) operands.now)) work.old work.new result }
{
    let v = one(work, alloc, operands)?;
    iter_value(work, alloc, v)
}
