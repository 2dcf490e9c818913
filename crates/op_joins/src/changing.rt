// `a += b`: a list is extended in place, any other value is added as by `+`.
ghost use Rattle.std.specs.Prelude.{◌≡◌, None, map};
ghost use Rattle.op_work.specs.Work.{Ends};
ghost use Rattle.py_model.specs.Arithmetic.{add_in_place as in_place_plan, iadd_plan};
ghost use Rattle.py_value.specs.Contents.{contents, object};
ghost use Rattle.py_value.specs.Values.{IsNamed, AreNamed};

use crate::adding::added;
use crate::extending::extend_list;
use op_numbers::two;
use op_work::{Stop, Work};
use py_model::Answer;
use py_value::{Kind, Value};
use std::alloc::Global;

// An object on the left: a list is extended, and is the answer.
fn object_in_place(work: &mut Work, alloc: Global, o: u32, w: Value) -> Result<Answer, Stop>
    requires named { IsNamed work.old.values w }
    requires fresh { work.old.made ≡ None }
    ensures { Ends (λ table. in_place_plan (object o) (contents table w)) work.old work.new result }
{
    match work.kind_there(o) {
        Some(Kind::List) => extend_list(work, alloc, o, w, Value::Object(o)),
        Some(Kind::Dict) => added(work, alloc, Value::Object(o), w),
        Some(Kind::Instance(_)) => added(work, alloc, Value::Object(o), w),
        Some(Kind::File(_, _)) => added(work, alloc, Value::Object(o), w),
        None => added(work, alloc, Value::Object(o), w),
    }
}

// Any two values.
fn in_place(work: &mut Work, alloc: Global, v: Value, w: Value) -> Result<Answer, Stop>
    requires first { IsNamed work.old.values v }
    requires second { IsNamed work.old.values w }
    requires fresh { work.old.made ≡ None }
    ensures { Ends (λ table. in_place_plan (contents table v) (contents table w)) work.old work.new result }
{
    match v {
        Value::Object(o) => object_in_place(work, alloc, o, w),
        _ => added(work, alloc, v, w),
    }
}

/// `a += b` (22).
pub fn iadd(work: &mut Work, alloc: Global, operands: &[Value]) -> Result<Answer, Stop>
    requires named { AreNamed work.old.values operands.now }
    requires fresh { work.old.made ≡ None }
    ensures { Ends (λ table. iadd_plan (map (contents table) operands.now)) work.old work.new result }
{
    let (v, w) = two(work, alloc, operands)?;
    in_place(work, alloc, v, w)
}
