// Attributes that are read.
ghost use Rattle.std.specs.Prelude.{◌≡◌, ◌<◌, length, None};
ghost use Rattle.op_work.specs.Work.{Ends};
ghost use Rattle.py_model.specs.Classes.{class_attribute, instance_attribute, no_method_value, getattr as plan_getattr};
ghost use Rattle.py_value.specs.Contents.{contents, object, builtin};
ghost use Rattle.py_value.specs.Seen.{bytes_of};

use crate::kinds::{Holder, holder_of, is_argv, is_module};
use crate::owns::{class_method, no_attribute, own_attribute};
use op_classes::class_of_instance;
use op_work::{Exception, Stop, Work};
use py_model::Answer;
use py_value::Value;
use std::alloc::Global;

// An attribute of a class: a method is no value.
fn get_of_class(work: &mut Work, alloc: Global, name: u32, of: Value) -> Result<Answer, Stop>
    requires name { name < length work.old.values.texts }
    requires first { work.old.made ≡ None }
    ensures { Ends (λ table. class_attribute (bytes_of table name) no_method_value (contents table of)) work.old work.new result }
{
    let at = class_method(work, alloc, name, of)?;
    let _ = at;
    Err(work.fault(alloc, Exception::NotImplementedError, "not in this profile"))
}

// An attribute of an instance: its entry, or else what its class has.
fn get_of_instance(
    work: &mut Work,
    alloc: Global,
    name: u32,
    o: u32,
    of: Value,
) -> Result<Answer, Stop>
    requires name { name < length work.old.values.texts }
    requires first { work.old.made ≡ None }
    ensures { Ends (λ table. instance_attribute (bytes_of table name) no_method_value o (contents table of)) work.old work.new result }
{
    let own = own_attribute(work, o, name)?;
    match own {
        Some(pair) => Ok(Answer::Value(pair.1)),
        None => get_of_class(work, alloc, name, of),
    }
}

// An attribute of an object.
fn get_of_object(work: &mut Work, alloc: Global, name: u32, o: u32) -> Result<Answer, Stop>
    requires name { name < length work.old.values.texts }
    requires first { work.old.made ≡ None }
    ensures { Ends (λ table. plan_getattr (bytes_of table name) (object o)) work.old work.new result }
{
    match class_of_instance(work.kind(o)) {
        Some(of) => get_of_instance(work, alloc, name, o, of),
        None => Err(work.fault(alloc, Exception::NotImplementedError, "not in this profile")),
    }
}

/// An attribute of a function or module of the language.
pub(crate) fn get_of_builtin(
    work: &mut Work,
    alloc: Global,
    name: u32,
    number: u64,
) -> Result<Answer, Stop>
    requires name { name < length work.old.values.texts }
    requires first { work.old.made ≡ None }
    ensures { Ends (λ table. plan_getattr (bytes_of table name) (builtin number)) work.old work.new result }
{
    let arguments = is_argv(number, work.text_of(name));
    if arguments {
        return Ok(Answer::Value(Value::Object(0)));
    }
    let module = is_module(number);
    if module {
        return Err(work.fault(alloc, Exception::NotImplementedError, "not in this profile"));
    }
    Err(no_attribute(work, alloc, name))
}

/// An attribute of a value is read (operation 30), by the number of its name's text.
pub fn getattr(work: &mut Work, alloc: Global, name: u32, v: Value) -> Result<Answer, Stop>
    requires name { name < length work.old.values.texts }
    requires first { work.old.made ≡ None }
    ensures { Ends (λ table. plan_getattr (bytes_of table name) (contents table v)) work.old work.new result }
{
    match holder_of(v) {
        Holder::Object(o) => get_of_object(work, alloc, name, o),
        Holder::Class => get_of_class(work, alloc, name, v),
        Holder::Text => Err(work.fault(
            alloc,
            Exception::NotImplementedError,
            "not in this profile",
        )),
        Holder::Tuple => Err(work.fault(
            alloc,
            Exception::NotImplementedError,
            "not in this profile",
        )),
        Holder::Builtin(number) => get_of_builtin(work, alloc, name, number),
        Holder::Plain => Err(no_attribute(work, alloc, name)),
    }
}
