// Definitions of functions, methods and classes.
ghost use Rattle.std.specs.Prelude.{◌≡◌, ◌<◌, length, None, map};
ghost use Rattle.op_classes.specs.Definitions.{defining, beginning};
ghost use Rattle.op_work.specs.Work.{Ends, IsNamedMaybe, seen_maybe};
ghost use Rattle.py_model.specs.Classes.{define as plan_define, define_method as plan_method, class_begun as plan_begun};
ghost use Rattle.py_model.specs.Operations.{def_plan, class_plan};
ghost use Rattle.py_value.specs.Contents.{contents, function, class as class_contents};
ghost use Rattle.py_value.specs.Seen.{bytes_of};
ghost use Rattle.py_value.specs.Values.{AreNamed};

use crate::kinds::class_of;
use crate::matching::is_class;
use crate::object_kinds::function_of;
use op_work::{Exception, Stop, Work};
use prov_base::Pos;
use py_model::Answer;
use py_value::{Content, Location, Value};
use std::alloc::Global;

// The variable of the module is set to the function at a place, whose name is noted.
fn set_function(work: &mut Work, name: u32, place: Pos) -> Result<Answer, Stop>
    requires name { name < length work.old.values.texts }
    requires first { work.old.made ≡ None }
    requires unsaid { work.old.note ≡ None }
    ensures { Ends (λ table. plan_define (bytes_of table name) (function place)) work.old work.new result }
{
    work.note(place, name);
    work.set(Location::Var(0, name), Content::Var(Some(Value::Fn(place))))?;
    Ok(Answer::Value(Value::None))
}

// A function is defined.
fn define(work: &mut Work, alloc: Global, name: u32, v: Value) -> Result<Answer, Stop>
    requires name { name < length work.old.values.texts }
    requires first { work.old.made ≡ None }
    requires unsaid { work.old.note ≡ None }
    ensures { Ends (λ table. plan_define (bytes_of table name) (contents table v)) work.old work.new result }
{
    match function_of(v) {
        Some(place) => set_function(work, name, place),
        None => Err(work.fault(alloc, Exception::TypeError, "wrong kind of value")),
    }
}

// The method of a class is set to the function at a place, whose name is noted.
fn set_method(work: &mut Work, name: u32, place: Pos, of: Pos) -> Result<Answer, Stop>
    requires name { name < length work.old.values.texts }
    requires first { work.old.made ≡ None }
    requires unsaid { work.old.note ≡ None }
    ensures { Ends (λ table. plan_method (bytes_of table name) (function place) (class_contents of)) work.old work.new result }
{
    work.note(place, name);
    work.set(Location::Method(of, name), Content::Method(place))?;
    Ok(Answer::Value(Value::None))
}

// The function at a place becomes a method of a class.
fn method_at(
    work: &mut Work,
    alloc: Global,
    name: u32,
    place: Pos,
    of: Value,
) -> Result<Answer, Stop>
    requires name { name < length work.old.values.texts }
    requires first { work.old.made ≡ None }
    requires unsaid { work.old.note ≡ None }
    ensures { Ends (λ table. plan_method (bytes_of table name) (function place) (contents table of)) work.old work.new result }
{
    match class_of(of) {
        Some(at) => set_method(work, name, place, at),
        None => Err(work.fault(alloc, Exception::TypeError, "wrong kind of value")),
    }
}

// A method of a class is defined.
fn define_method(
    work: &mut Work,
    alloc: Global,
    name: u32,
    v: Value,
    of: Value,
) -> Result<Answer, Stop>
    requires name { name < length work.old.values.texts }
    requires first { work.old.made ≡ None }
    requires unsaid { work.old.note ≡ None }
    ensures { Ends (λ table. plan_method (bytes_of table name) (contents table v) (contents table of)) work.old work.new result }
{
    match function_of(v) {
        Some(place) => method_at(work, alloc, name, place, of),
        None => Err(work.fault(alloc, Exception::TypeError, "wrong kind of value")),
    }
}

/// A `def` (operation 42), by the number of its name's text: a function of the module, or a method of the class that is its operand.
pub fn def(
    work: &mut Work,
    alloc: Global,
    name: u32,
    v: Value,
    operands: &[Value],
) -> Result<Answer, Stop>
    requires name { name < length work.old.values.texts }
    requires first { work.old.made ≡ None }
    requires unsaid { work.old.note ≡ None }
    ensures { Ends (λ table. def_plan (defining (bytes_of table name) (contents table v)) (map (contents table) operands.now)) work.old work.new result }
{
    let Some((of, rest)) = operands.split_first() else {
        return define(work, alloc, name, v);
    };
    if rest.len() > 0 {
        return Err(work.fault(alloc, Exception::TypeError, "wrong number of arguments"));
    }
    define_method(work, alloc, name, v, *of)
}

// The base of the class at a place is set, and its name noted. The class is the answer.
fn set_base(work: &mut Work, name: u32, place: Pos, base: Option<Value>) -> Result<Answer, Stop>
    requires name { name < length work.old.values.texts }
    requires base { IsNamedMaybe work.old.values base }
    requires first { work.old.made ≡ None }
    requires unsaid { work.old.note ≡ None }
    ensures { Ends (λ table. plan_begun (bytes_of table name) (class_contents place) (seen_maybe table base)) work.old work.new result }
{
    work.note(place, name);
    work.set(Location::Base(place), Content::Base(base))?;
    Ok(Answer::Value(Value::Class(place)))
}

// A class begins, with a base or none.
fn class_begun(
    work: &mut Work,
    alloc: Global,
    name: u32,
    v: Value,
    base: Option<Value>,
) -> Result<Answer, Stop>
    requires name { name < length work.old.values.texts }
    requires base { IsNamedMaybe work.old.values base }
    requires first { work.old.made ≡ None }
    requires unsaid { work.old.note ≡ None }
    ensures { Ends (λ table. plan_begun (bytes_of table name) (contents table v) (seen_maybe table base)) work.old work.new result }
{
    match class_of(v) {
        Some(place) => set_base(work, name, place, base),
        None => Err(work.fault(alloc, Exception::TypeError, "wrong kind of value")),
    }
}

/// A `class` begins (operation 43), by the number of its name's text. Its operand, where it has one, is its base, which must be a class.
pub fn class(
    work: &mut Work,
    alloc: Global,
    name: u32,
    v: Value,
    operands: &[Value],
) -> Result<Answer, Stop>
    requires name { name < length work.old.values.texts }
    requires named { AreNamed work.old.values operands.now }
    requires first { work.old.made ≡ None }
    requires unsaid { work.old.note ≡ None }
    ensures { Ends (λ table. class_plan (beginning (bytes_of table name) (contents table v)) (map (contents table) operands.now)) work.old work.new result }
{
    let Some((base, rest)) = operands.split_first() else {
        return class_begun(work, alloc, name, v, None);
    };
    if rest.len() > 0 {
        return Err(work.fault(alloc, Exception::TypeError, "wrong number of arguments"));
    }
    let there = is_class(*base);
    if there {
        return class_begun(work, alloc, name, v, Some(*base));
    }
    Err(work.fault(alloc, Exception::TypeError, "wrong kind of value"))
}
