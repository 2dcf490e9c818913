// A value is sought among the items of a list.
ghost use Rattle.op_work.specs.Work.{Comes, is_any, as_is};
ghost use Rattle.py_model.specs.Lists.{seek as seek_plan};
ghost use Rattle.py_value.specs.Contents.{contents};
ghost use Rattle.py_value.specs.Values.{IsNamed};

use crate::compare::equals;
use op_lists::value_at;
use op_work::{Stop, Work};
use py_value::Value;
use std::alloc::Global;

/// The place of a value among so many items of a list: each is read and compared, up to the hit.
pub fn seek(work: &mut Work, alloc: Global, n: u64, o: u32, v: Value) -> Result<Option<u64>, Stop>
    requires { IsNamed work.old.values v }
    ensures { Comes is_any as_is (λ table. seek_plan n o 0 (contents table v)) work.old work.new result }
{
    for i in 0..n {
        let item = value_at(work, o, i)?;
        let same = equals(work, alloc, v, item)?;
        if same {
            return Ok(Some(i));
        }
    }
    Ok(None)
}
