// Exceptions whose texts name something.
ghost use Rattle.std.specs.Prelude.{◌≡◌, ◌<◌, ◌++◌, length, IfOk};
ghost use Rattle.std.specs.String.{string_bytes};
ghost use Rattle.op_work.specs.Exceptions.{class_number};
ghost use Rattle.op_work.specs.Work.{Faults};
ghost use Rattle.py_value.specs.Seen.{bytes_of};

use op_work::{Exception, Stop, Work};
use prov_base::Memory;
use std::alloc::Global;

// A name between other words.
fn words_around(alloc: Global, before: &str, name: &str, after: &str) -> Result<String, Memory>
    ensures { IfOk result (λ text. string_bytes text ≡ before.now ++ name.now ++ after.now) }
{
    let mut text = String::from_str(alloc, before)?;
    text.push_str(name)?;
    text.push_str(after)?;
    Ok(text)
}

/// The exception of a class of the language whose text has a name between other words.
pub fn named_fault(
    work: &mut Work,
    alloc: Global,
    class: Exception,
    before: &str,
    name: u32,
    after: &str,
) -> Stop
    requires { name < length work.old.values.texts }
    ensures { Faults (class_number class) (before.now ++ bytes_of work.old.values name ++ after.now) work.old work.new result }
{
    match words_around(alloc, before, work.text_of(name), after) {
        Ok(text) => work.fault(alloc, class, text.as_str()),
        Err(_) => Stop::Memory,
    }
}
