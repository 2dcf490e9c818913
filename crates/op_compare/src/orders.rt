// The order of two values: both are numbers, texts, tuples or lists.
ghost use Rattle.std.specs.Prelude.{true};
ghost use Rattle.op_compare.specs.Comparisons.{how_seen};
ghost use Rattle.op_work.specs.Work.{Comes, is_any, as_is};
ghost use Rattle.py_model.specs.Arithmetic.{in_order as plan_order, unless_apart};
ghost use Rattle.py_model.specs.Operands.{with_numbers, when_lists};
ghost use Rattle.py_model.specs.Plan.{Plan, kind_of};
ghost use Rattle.py_model.specs.Walks.{Comparison as OneComparison, compare_to as plan_to};
ghost use Rattle.py_value.specs.Contents.{contents};
ghost use Rattle.py_value.specs.Values.{IsNamed};

use crate::compare::compare_to;
use crate::comparison::Comparison;
use crate::pairs::{Shape, shape_at};
use crate::texts::ordered_texts;
use op_numbers::number;
use op_work::{Exception, Stop, Work};
use py_value::Value;
use std::alloc::Global;

// Two values, where the pair that decides is ordered.
fn ordered(work: &mut Work, alloc: Global, v: Value, w: Value) -> Result<Comparison, Stop>
    requires one { IsNamed work.old.values v }
    requires other { IsNamed work.old.values w }
    ensures { Comes is_any how_seen (λ table (go : OneComparison → Plan). plan_to true 100 (contents table v) (contents table w) (unless_apart go)) work.old work.new result }
{
    let compared = compare_to(work, alloc, true, v, w)?;
    match compared {
        Comparison::Apart => Err(work.fault(alloc, Exception::TypeError, "wrong kind of value")),
        Comparison::Alike => Ok(Comparison::Alike),
        Comparison::Before => Ok(Comparison::Before),
        Comparison::Behind => Ok(Comparison::Behind),
    }
}

// Two objects have an order where both are lists.
fn two_lists(work: &mut Work, alloc: Global, o: u32, p: u32) -> Result<(), Stop>
    ensures { Comes is_any as_is (λ table (go : Unit {0} → Plan). kind_of o (λ left. kind_of p (when_lists (go tt) left))) work.old work.new result }
{
    match shape_at(work, o, p) {
        Shape::Lists => Ok(()),
        Shape::Dicts => Err(work.fault(alloc, Exception::TypeError, "wrong kind of value")),
        Shape::Others => Err(work.fault(alloc, Exception::TypeError, "wrong kind of value")),
    }
}

// Two values that are numbers.
fn numbers_both(work: &mut Work, alloc: Global, v: Value, w: Value) -> Result<(), Stop>
    ensures { Comes is_any as_is (λ table (go : Unit {0} → Plan). with_numbers (contents table v) (contents table w) (λ i j. go tt)) work.old work.new result }
{
    let i = number(work, alloc, v)?;
    let j = number(work, alloc, w)?;
    let _ = (i, j);
    Ok(())
}

/// The order of two values. Two that have none raise TypeError. Two texts count the shorter, also where they are the same.
pub fn in_order(work: &mut Work, alloc: Global, v: Value, w: Value) -> Result<Comparison, Stop>
    requires one { IsNamed work.old.values v }
    requires other { IsNamed work.old.values w }
    ensures { Comes is_any how_seen (λ table. plan_order (contents table v) (contents table w)) work.old work.new result }
{
    match v {
        Value::Text(a) => match w {
            Value::Text(b) => ordered_texts(work, a, b),
            _ => Err(work.fault(alloc, Exception::TypeError, "wrong kind of value")),
        },
        Value::Tuple(_) => match w {
            Value::Tuple(_) => ordered(work, alloc, v, w),
            _ => Err(work.fault(alloc, Exception::TypeError, "wrong kind of value")),
        },
        Value::Object(o) => match w {
            Value::Object(p) => {
                two_lists(work, alloc, o, p)?;
                ordered(work, alloc, Value::Object(o), Value::Object(p))
            }
            _ => Err(work.fault(alloc, Exception::TypeError, "wrong kind of value")),
        },
        _ => {
            numbers_both(work, alloc, v, w)?;
            ordered(work, alloc, v, w)
        }
    }
}
