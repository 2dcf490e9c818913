// The attributes that a value has of its own, and the methods of classes.
ghost use Rattle.std.specs.Prelude.{◌≡◌, ◌<◌, ◌++◌, length, None, codes};
ghost use Rattle.op_work.specs.Entries.{IsNamedEntry, seen_entry};
ghost use Rattle.op_work.specs.Work.{Comes, Faults, is_any, as_is};
ghost use Rattle.py_model.specs.Classes.{class_attribute};
ghost use Rattle.py_model.specs.Plan.{read_entry};
ghost use Rattle.py_value.specs.Contents.{contents, text};
ghost use Rattle.py_value.specs.Seen.{bytes_of};

use op_classes::{method_of_class, named_fault};
use op_work::{Exception, Stop, Work};
use prov_base::Pos;
use py_value::{Key, Value};
use std::alloc::Global;

/// The exception that a value has no attribute of a name.
pub(crate) fn no_attribute(work: &mut Work, alloc: Global, name: u32) -> Stop
    requires name { name < length work.old.values.texts }
    ensures { Faults 11 (codes "no attribute '" ++ bytes_of work.old.values name ++ codes "'") work.old work.new result }
{
    named_fault(
        work,
        alloc,
        Exception::AttributeError,
        "no attribute '",
        name,
        "'",
    )
}

/// The entry of an instance at a name.
pub(crate) fn own_attribute(
    work: &mut Work,
    o: u32,
    name: u32,
) -> Result<Option<(Value, Value)>, Stop>
    requires name { name < length work.old.values.texts }
    ensures { Comes IsNamedEntry seen_entry (λ table. read_entry o (text (bytes_of table name))) work.old work.new result }
{
    let at = Value::Text(name);
    work.read_entry(o, at, Key { value: at })
}

/// The method of a name in a class or in the first of its bases that has one; where none has, there is no attribute.
pub(crate) fn class_method(
    work: &mut Work,
    alloc: Global,
    name: u32,
    of: Value,
) -> Result<Pos, Stop>
    requires name { name < length work.old.values.texts }
    ensures { Comes is_any as_is (λ table go. class_attribute (bytes_of table name) go (contents table of)) work.old work.new result }
{
    let method = method_of_class(work, name, of)?;
    match method {
        Some(at) => Ok(at),
        None => Err(no_attribute(work, alloc, name)),
    }
}
