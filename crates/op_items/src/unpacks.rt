// A value is taken apart for targets.
ghost use Rattle.std.specs.Prelude.{◌≡◌, ◌<◌, [], ◌∷◌, None, length, map};
ghost use Rattle.op_work.specs.Work.{Ends};
ghost use Rattle.py_model.specs.Lists.{unpack as unpack_plan};
ghost use Rattle.py_value.specs.Contents.{contents, object};
ghost use Rattle.py_value.specs.Values.{IsNamed, AreNamed};
ghost use Rattle.py_value.specs.declared.value.Value.TheVariants.{Tuple};

use op_lists::{items_from, list, tuple_display};
use op_numbers::{one, value_answer};
use op_work::{Exception, Stop, Work};
use py_model::Answer;
use py_value::{Value, tuples_are_their_parts};
use std::alloc::Global;

// A tuple of so many parts, each of which is looked at.
fn unpack_tuple(work: &mut Work, alloc: Global, targets: u64, id: u32) -> Result<Answer, Stop>
    requires there { id < length work.old.values.tuples }
    requires fresh { work.old.made ≡ None }
    ensures { Ends (λ table. unpack_plan targets (contents table (Tuple id) ∷ [])) work.old work.new result }
{
    tuples_are_their_parts();
    let count = work.tuple_of(id).len() as u64;
    if count != targets {
        return Err(work.fault(alloc, Exception::ValueError, "wrong number of values"));
    }
    work.look(targets)?;
    value_answer(work, Value::Tuple(id))
}

// A list of so many items, each of which is read.
fn unpack_list(work: &mut Work, alloc: Global, targets: u64, o: u32) -> Result<Answer, Stop>
    requires fresh { work.old.made ≡ None }
    ensures { Ends (λ table. unpack_plan targets (object o ∷ [])) work.old work.new result }
{
    list(work, alloc, o)?;
    let n = work.read_len(o)?;
    if n != targets {
        return Err(work.fault(alloc, Exception::ValueError, "wrong number of values"));
    }
    let items = items_from(work, alloc, n, o, 0)?;
    tuple_display(work, alloc, items.as_slice())
}

// The parts of a tuple, or the items of a list.
fn unpack_value(work: &mut Work, alloc: Global, targets: u64, v: Value) -> Result<Answer, Stop>
    requires named { IsNamed work.old.values v }
    requires fresh { work.old.made ≡ None }
    ensures { Ends (λ table. unpack_plan targets (contents table v ∷ [])) work.old work.new result }
{
    match v {
        Value::Tuple(id) => unpack_tuple(work, alloc, targets, id),
        Value::Object(o) => unpack_list(work, alloc, targets, o),
        _ => Err(work.fault(alloc, Exception::TypeError, "wrong kind of value")),
    }
}

/// A value is taken apart for so many targets (35): the tuple of its parts or items, where it has so many.
pub fn unpack(
    work: &mut Work,
    alloc: Global,
    targets: u64,
    operands: &[Value],
) -> Result<Answer, Stop>
    requires named { AreNamed work.old.values operands.now }
    requires fresh { work.old.made ≡ None }
    ensures { Ends (λ table. unpack_plan targets (map (contents table) operands.now)) work.old work.new result }
{
    let v = one(work, alloc, operands)?;
    unpack_value(work, alloc, targets, v)
}
