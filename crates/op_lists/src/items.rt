// The items of a list, read one after another.
ghost use Rattle.std.specs.Prelude.{◌+◌, ◌^◌, ◌<◌};
ghost use Rattle.op_work.specs.Work.{Comes};
ghost use Rattle.op_lists.specs.ValuesSeen.{values_seen};
ghost use Rattle.py_model.specs.Walks.{read_value, read_items};
ghost use Rattle.py_value.specs.Contents.{contents};
ghost use Rattle.py_value.specs.Values.{IsNamed, AreNamed};

use op_work::{Stop, Work};
use py_value::Value;
use std::alloc::Global;

/// The item of a list at a place. What was never set is read as None.
pub fn value_at(work: &mut Work, o: u32, p: u64) -> Result<Value, Stop>
    ensures { Comes IsNamed contents (λ table. read_value o p) work.old work.new result }
{
    let item = work.read_item(o, p)?;
    Ok(item.unwrap_or(Value::None))
}

/// So many items of a list from a place on.
pub fn items_from(
    work: &mut Work,
    alloc: Global,
    n: u64,
    o: u32,
    first: u64,
) -> Result<Vec<Value>, Stop>
    requires { first + n < 2 ^ 64 }
    ensures { Comes (λ values vs. AreNamed values vs.items) (λ table vs. values_seen table vs.items) (λ table. read_items n o first) work.old work.new result }
{
    let mut items = Vec::new(alloc);
    for i in 0..n {
        let item = value_at(work, o, first + i)?;
        items.push(item)?;
    }
    Ok(items)
}
