// The dictionary that a method is called on.
ghost use Rattle.std.specs.Prelude.{◌≡◌, ◌<◌, length, map, IfOk, OnOk};
ghost use Rattle.op_dicts.specs.Receivers.{with_dict};
ghost use Rattle.op_work.specs.Work.{Comes, is_any, as_is};
ghost use Rattle.py_value.specs.Contents.{contents};

use crate::gets::dict;
use op_lists::first_object;
use op_work::{Exception, Stop, Work};
use py_value::Value;
use std::alloc::Global;

/// The dictionary that a method is called on, where there are so many operands with it.
pub fn dict_operand(
    work: &mut Work,
    alloc: Global,
    operands: &[Value],
    count: usize,
) -> Result<u32, Stop>
    ensures comes { Comes is_any as_is (λ table. with_dict count (map (contents table) operands.now)) work.old work.new result }
    ensures there { IfOk result (λ o. o < length work.old.store.objects) }
    ensures count { OnOk result (length operands.now ≡ count) }
{
    let Some(o) = first_object(operands) else {
        return Err(work.fault(alloc, Exception::TypeError, "wrong kind of value"));
    };
    if operands.len() != count {
        return Err(work.fault(alloc, Exception::TypeError, "wrong number of arguments"));
    }
    dict(work, alloc, o)?;
    Ok(o)
}
