// What the print walk reads: parts of tuples, entries of dictionaries, and the arguments of exceptions.
ghost use Rattle.std.specs.Prelude.{◌<◌, length};
ghost use Rattle.op_lists.specs.Parts.{part_in};
ghost use Rattle.op_work.specs.Work.{Comes};
ghost use Rattle.py_model.specs.Plan.{Plan, looks, read_entry as plan_entry};
ghost use Rattle.py_model.specs.Raising.{read_args as plan_args};
ghost use Rattle.py_model.specs.Printing.{value_in};
ghost use Rattle.py_value.specs.Contents.{Contents, contents};
ghost use Rattle.py_value.specs.Values.{IsNamed};

use op_lists::{entry_at, part_at};
use op_work::{Stop, Work};
use py_value::Value;
use std::alloc::Global;

// The part of a tuple at a place, looked at.
pub(crate) fn look_part(work: &mut Work, id: u32, i: usize) -> Result<Value, Stop>
    requires { id < length work.old.values.tuples }
    ensures { Comes IsNamed contents (λ table (go : Contents → Plan). looks 1 (go (contents table (part_in table id i)))) work.old work.new result }
{
    work.look(1)?;
    Ok(part_at(work, id, i))
}

// The arguments of an exception, which are none where none stand there.
pub(crate) fn read_args(work: &mut Work, alloc: Global, o: u32) -> Result<Value, Stop>
    ensures { Comes IsNamed contents (λ table. plan_args o) work.old work.new result }
{
    let name = work.text(alloc, "args")?;
    match entry_at(work, alloc, o, name)? {
        Some(entry) => Ok(entry.1),
        None => work.tuple(alloc, &[]),
    }
}

// The value of the entry of a dictionary at a key of an order.
pub(crate) fn entry_value(work: &mut Work, alloc: Global, o: u32, key: Value) -> Result<Value, Stop>
    requires { IsNamed work.old.values key }
    ensures { Comes IsNamed contents (λ table (go : Contents → Plan). plan_entry o (contents table key) (λ entry. go (value_in entry))) work.old work.new result }
{
    match entry_at(work, alloc, o, key)? {
        Some(entry) => Ok(entry.1),
        None => Ok(Value::None),
    }
}
