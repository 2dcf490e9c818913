// A value is sought among the items of a tuple.
ghost use Rattle.std.specs.Prelude.{◌<◌, length};
ghost use Rattle.op_lists.specs.Parts.{part_in, parts_in};
ghost use Rattle.op_work.specs.Work.{Comes, is_any, as_is};
ghost use Rattle.py_model.specs.Arithmetic.{contained as contained_plan, among_parts as among_plan};
ghost use Rattle.py_model.specs.Plan.{Plan, looks};
ghost use Rattle.py_value.specs.Contents.{Contents, contents};
ghost use Rattle.py_value.specs.Values.{IsNamed};
ghost use Rattle.py_value.specs.declared.value.Value.TheVariants.{Tuple};

use crate::compare::equals;
use op_lists::part_at;
use op_work::{Stop, Work};
use py_value::{Value, tuples_are_their_parts};
use std::alloc::Global;

// The item of a tuple at a place, looked at.
fn part_looked(work: &mut Work, id: u32, i: usize) -> Result<Value, Stop>
    requires { id < length work.old.values.tuples }
    ensures { Comes IsNamed contents (λ table (go : Contents → Plan). looks 1 (go (contents table (part_in table id i)))) work.old work.new result }
{
    work.look(1)?;
    Ok(part_at(work, id, i))
}

// Whether a value is among the items of a tuple: each is looked at and compared, up to the hit.
fn among_parts(work: &mut Work, alloc: Global, id: u32, v: Value) -> Result<bool, Stop>
    requires within { id < length work.old.values.tuples }
    requires named { IsNamed work.old.values v }
    ensures { Comes is_any as_is (λ table. among_plan (parts_in table id) (contents table v)) work.old work.new result }
{
    let n = work.tuple_of(id).len();
    for i in 0..n {
        let item = part_looked(work, id, i)?;
        let same = equals(work, alloc, v, item)?;
        if same {
            return Ok(true);
        }
    }
    Ok(false)
}

// Whether a value is in a tuple.
pub(crate) fn in_tuple(work: &mut Work, alloc: Global, v: Value, id: u32) -> Result<bool, Stop>
    requires within { id < length work.old.values.tuples }
    requires named { IsNamed work.old.values v }
    ensures { Comes is_any as_is (λ table. contained_plan (contents table v) (contents table (Tuple id))) work.old work.new result }
{
    tuples_are_their_parts();
    among_parts(work, alloc, id, v)
}
