// Attributes that are set.
ghost use Rattle.std.specs.Prelude.{◌≡◌, ◌<◌, length, None, Err};
ghost use Rattle.object_store.specs.Store.{count_with};
ghost use Rattle.op_attributes.specs.Owns.{own_set, own_added, builtin_refused};
ghost use Rattle.op_work.specs.Work.{Ends, WroteAll};
ghost use Rattle.py_model.specs.Classes.{setattr as plan_setattr, setattr_entry};
ghost use Rattle.py_model.specs.Plan.{read_entry};
ghost use Rattle.py_value.specs.Contents.{contents, object, text};
ghost use Rattle.py_value.specs.Seen.{bytes_of};
ghost use Rattle.py_value.specs.Values.{IsNamed};

use crate::kinds::{Holder, holder_of, is_module};
use crate::owns::{no_attribute, own_attribute};
use op_classes::class_of_instance;
use op_work::{Exception, Stop, Work};
use py_model::Answer;
use py_value::{Change, Content, Key, Location, Value};
use std::alloc::Global;

// An attribute that is there gets another value.
fn put(work: &mut Work, o: u32, name: u32, first: Value, v: Value) -> Result<Answer, Stop>
    requires name { name < length work.old.values.texts }
    requires first { IsNamed work.old.values first }
    requires value { IsNamed work.old.values v }
    ensures { WroteAll (λ table. own_set o (bytes_of table name) (contents table first) (contents table v)) work.old work.new result }
{
    let at = Value::Text(name);
    work.set(
        Location::Entry(o, Key { value: at }),
        Content::Entry(Some((first, v))),
    )?;
    Ok(Answer::Value(Value::None))
}

// A new attribute goes behind the others.
fn add(work: &mut Work, o: u32, name: u32, v: Value) -> Result<Answer, Stop>
    requires name { name < length work.old.values.texts }
    requires value { IsNamed work.old.values v }
    requires within { o < count_with work.old.made work.old.store }
    ensures { WroteAll (λ table. own_added o (bytes_of table name) (contents table v)) work.old work.new result }
{
    let at = Value::Text(name);
    work.set(
        Location::Entry(o, Key { value: at }),
        Content::Entry(Some((at, v))),
    )?;
    work.update(Location::Order(o), Change::Insert(at))?;
    Ok(Answer::Value(Value::None))
}

// An attribute of an instance is set.
fn set_of_instance(work: &mut Work, name: u32, o: u32, v: Value) -> Result<Answer, Stop>
    requires name { name < length work.old.values.texts }
    requires value { IsNamed work.old.values v }
    requires first { work.old.made ≡ None }
    requires within { o < length work.old.store.objects }
    ensures { Ends (λ table. read_entry o (text (bytes_of table name)) (λ entry. setattr_entry (bytes_of table name) o (contents table v) entry)) work.old work.new result }
{
    let own = own_attribute(work, o, name)?;
    match own {
        Some(pair) => put(work, o, name, pair.0, v),
        None => add(work, o, name, v),
    }
}

// An attribute of an object is set.
fn set_of_object(
    work: &mut Work,
    alloc: Global,
    name: u32,
    o: u32,
    v: Value,
) -> Result<Answer, Stop>
    requires name { name < length work.old.values.texts }
    requires value { IsNamed work.old.values v }
    requires first { work.old.made ≡ None }
    ensures { Ends (λ table. plan_setattr (bytes_of table name) (object o) (contents table v)) work.old work.new result }
{
    match class_of_instance(work.kind_there(o)) {
        Some(_) => set_of_instance(work, name, o, v),
        None => Err(work.fault(alloc, Exception::NotImplementedError, "not in this profile")),
    }
}

// An attribute of a function or module of the language cannot be set.
fn set_of_builtin(work: &mut Work, alloc: Global, name: u32, number: u64) -> Stop
    requires name { name < length work.old.values.texts }
    ensures { Ends (λ table. builtin_refused (bytes_of table name) number) work.old work.new (Err result) }
{
    let module = is_module(number);
    if module {
        return work.fault(alloc, Exception::NotImplementedError, "not in this profile");
    }
    no_attribute(work, alloc, name)
}

/// An attribute of a value is set (operation 31), by the number of its name's text.
pub fn setattr(
    work: &mut Work,
    alloc: Global,
    name: u32,
    holder: Value,
    v: Value,
) -> Result<Answer, Stop>
    requires name { name < length work.old.values.texts }
    requires value { IsNamed work.old.values v }
    requires first { work.old.made ≡ None }
    ensures { Ends (λ table. plan_setattr (bytes_of table name) (contents table holder) (contents table v)) work.old work.new result }
{
    match holder_of(holder) {
        Holder::Object(o) => set_of_object(work, alloc, name, o, v),
        Holder::Class => Err(work.fault(
            alloc,
            Exception::NotImplementedError,
            "not in this profile",
        )),
        Holder::Text => Err(work.fault(
            alloc,
            Exception::NotImplementedError,
            "not in this profile",
        )),
        Holder::Tuple => Err(work.fault(
            alloc,
            Exception::NotImplementedError,
            "not in this profile",
        )),
        Holder::Builtin(number) => Err(set_of_builtin(work, alloc, name, number)),
        Holder::Plain => Err(no_attribute(work, alloc, name)),
    }
}
