// Attributes that are called.
ghost use Rattle.std.specs.Prelude.{◌≡◌, ◌<◌, length, None};
ghost use Rattle.op_work.specs.Work.{Ends};
ghost use Rattle.py_model.specs.Classes.{class_attribute, instance_attribute, method_found, find as plan_find};
ghost use Rattle.py_value.specs.Contents.{contents, object, builtin};
ghost use Rattle.py_value.specs.Seen.{bytes_of};

use crate::gets::get_of_builtin;
use crate::kinds::{Holder, holder_of, is_number};
use crate::methods::{
    dict_method, file_method, list_method, operation, random_method, text_method, time_method,
};
use crate::owns::{class_method, no_attribute, own_attribute};
use op_work::{Exception, Stop, Work};
use py_model::Answer;
use py_value::{Kind, Value};
use std::alloc::Global;

// The function of a method of a class.
fn find_in_class(work: &mut Work, alloc: Global, name: u32, of: Value) -> Result<Answer, Stop>
    requires name { name < length work.old.values.texts }
    requires first { work.old.made ≡ None }
    ensures { Ends (λ table. class_attribute (bytes_of table name) method_found (contents table of)) work.old work.new result }
{
    let at = class_method(work, alloc, name, of)?;
    Ok(Answer::Value(Value::Fn(at)))
}

// The attribute of an instance that is called: its entry, or else the function of a method of its class.
fn find_in_instance(
    work: &mut Work,
    alloc: Global,
    name: u32,
    o: u32,
    of: Value,
) -> Result<Answer, Stop>
    requires name { name < length work.old.values.texts }
    requires first { work.old.made ≡ None }
    ensures { Ends (λ table. instance_attribute (bytes_of table name) method_found o (contents table of)) work.old work.new result }
{
    let own = own_attribute(work, o, name)?;
    match own {
        Some(pair) => Ok(Answer::Value(pair.1)),
        None => find_in_class(work, alloc, name, of),
    }
}

// The attribute of an object that is called.
fn find_in_object(work: &mut Work, alloc: Global, name: u32, o: u32) -> Result<Answer, Stop>
    requires name { name < length work.old.values.texts }
    requires first { work.old.made ≡ None }
    ensures { Ends (λ table. plan_find (bytes_of table name) (object o)) work.old work.new result }
{
    match work.kind(o) {
        Some(Kind::List) => {
            let method = list_method(work.text_of(name));
            operation(work, alloc, method)
        }
        Some(Kind::Dict) => {
            let method = dict_method(work.text_of(name));
            operation(work, alloc, method)
        }
        Some(Kind::Instance(of)) => find_in_instance(work, alloc, name, o, of),
        Some(Kind::File(_, _)) => {
            let method = file_method(work.text_of(name));
            operation(work, alloc, method)
        }
        None => Err(work.fault(alloc, Exception::NotImplementedError, "not in this profile")),
    }
}

// The function of a module that is called.
fn find_in_builtin(work: &mut Work, alloc: Global, name: u32, number: u64) -> Result<Answer, Stop>
    requires name { name < length work.old.values.texts }
    requires first { work.old.made ≡ None }
    ensures { Ends (λ table. plan_find (bytes_of table name) (builtin number)) work.old work.new result }
{
    let of_sys = is_number(number, 22);
    if of_sys {
        return get_of_builtin(work, alloc, name, number);
    }
    let of_time = is_number(number, 23);
    if of_time {
        let method = time_method(work.text_of(name));
        return operation(work, alloc, method);
    }
    let of_random = is_number(number, 24);
    if of_random {
        let method = random_method(work.text_of(name));
        return operation(work, alloc, method);
    }
    Err(no_attribute(work, alloc, name))
}

/// The attribute of a value that a call names is found (operation 32), by the number of its name's text.
pub fn find(work: &mut Work, alloc: Global, name: u32, v: Value) -> Result<Answer, Stop>
    requires name { name < length work.old.values.texts }
    requires first { work.old.made ≡ None }
    ensures { Ends (λ table. plan_find (bytes_of table name) (contents table v)) work.old work.new result }
{
    match holder_of(v) {
        Holder::Object(o) => find_in_object(work, alloc, name, o),
        Holder::Class => find_in_class(work, alloc, name, v),
        Holder::Text => {
            let method = text_method(work.text_of(name));
            operation(work, alloc, method)
        }
        Holder::Tuple => Err(work.fault(
            alloc,
            Exception::NotImplementedError,
            "not in this profile",
        )),
        Holder::Builtin(number) => find_in_builtin(work, alloc, name, number),
        Holder::Plain => Err(no_attribute(work, alloc, name)),
    }
}
