// Tuples one behind the other.
ghost use Rattle.std.specs.Prelude.{◌≡◌, ◌<◌, ◌++◌, None, Some, IfOk, List, length, slice_get};
ghost use Rattle.op_work.specs.Work.{Ends};
ghost use Rattle.py_model.specs.Arithmetic.{added};
ghost use Rattle.py_value.specs.Contents.{contents};
ghost use Rattle.py_value.specs.Values.{AreNamed};
ghost use Rattle.py_value.specs.declared.value.Value.{Value as OneValue};
ghost use Rattle.py_value.specs.declared.value.Value.TheVariants.{Tuple};

use crate::value_answer;
use op_work::{Stop, Work};
use prov_base::Memory;
use py_model::Answer;
use py_value::{Value, tuples_are_their_parts};
use std::alloc::Global;

// The items of two tuples.
fn both(work: &Work, alloc: Global, a: u32, b: u32) -> Result<Vec<Value>, Memory>
    requires first { a < length work.now.values.tuples }
    requires second { b < length work.now.values.tuples }
    ensures items { IfOk result (λ vs. (xs ys : List OneValue) → slice_get work.now.values.tuples a ≡ Some xs → slice_get work.now.values.tuples b ≡ Some ys → vs.items ≡ xs ++ ys) }
    ensures named { IfOk result (λ vs. AreNamed work.now.values vs.items) }
{
    let mut items = Vec::from_slice(alloc, work.tuple_of(a))?;
    items.extend_from_slice(work.tuple_of(b))?;
    Ok(items)
}

/// `a + b` of tuples: a tuple with the items of both, each looked at.
pub fn join_tuples(work: &mut Work, alloc: Global, a: u32, b: u32) -> Result<Answer, Stop>
    requires first { a < length work.old.values.tuples }
    requires second { b < length work.old.values.tuples }
    requires fresh { work.old.made ≡ None }
    ensures { Ends (λ table. added (contents table (Tuple a)) (contents table (Tuple b))) work.old work.new result }
{
    tuples_are_their_parts();
    work.look(work.tuple_of(a).len() as u64 + work.tuple_of(b).len() as u64)?;
    let items = both(work, alloc, a, b)?;
    let joined = work.tuple(alloc, items.as_slice())?;
    value_answer(work, joined)
}
