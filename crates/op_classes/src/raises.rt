// Exceptions that a script raises.
ghost use Rattle.std.specs.Prelude.{◌≡◌, None, map};
ghost use Rattle.op_classes.specs.Raises.{instance_raised, class_raised, bare_raised};
ghost use Rattle.op_work.specs.Work.{Ends};
ghost use Rattle.py_model.specs.Raising.{raise as plan_raise, raise_class as plan_raise_class, assertion_failed as plan_failed};
ghost use Rattle.py_value.specs.Contents.{contents, object};
ghost use Rattle.py_value.specs.Values.{IsNamed, AreNamed};

use crate::chains::end_of_chain;
use crate::kinds::{class_of_instance, object_of};
use crate::matching::is_class;
use crate::texts::begin_method;
use op_work::{Exception, Stop, Work};
use py_model::Answer;
use py_value::Value;
use std::alloc::Global;

// An instance is raised again, where the chain of its class ends at a class of the language.
fn raise_instance(work: &mut Work, alloc: Global, o: u32, of: Value) -> Result<Answer, Stop>
    requires first { work.old.made ≡ None }
    ensures { Ends (λ table. instance_raised o (contents table of)) work.old work.new result }
{
    let end = end_of_chain(work, of)?;
    match end {
        Some(_) => Ok(Answer::Raised(o)),
        None => Err(work.fault(alloc, Exception::TypeError, "wrong kind of value")),
    }
}

// An object is raised again, where it is an exception.
fn raise_object(work: &mut Work, alloc: Global, o: u32) -> Result<Answer, Stop>
    requires first { work.old.made ≡ None }
    ensures { Ends (λ table. plan_raise (object o)) work.old work.new result }
{
    match class_of_instance(work.kind(o)) {
        Some(of) => raise_instance(work, alloc, o, of),
        None => Err(work.fault(alloc, Exception::TypeError, "wrong kind of value")),
    }
}

// An exception of a class is made without arguments and raised, where the class has no `__init__` of the script.
fn raise_made(work: &mut Work, alloc: Global, of: Value) -> Result<Answer, Stop>
    requires class { IsNamed work.old.values of }
    requires first { work.old.made ≡ None }
    ensures { Ends (λ table. class_raised (contents table of)) work.old work.new result }
{
    let method = begin_method(work, alloc, of)?;
    match method {
        Some(_) => Err(work.fault(alloc, Exception::NotImplementedError, "not in this profile")),
        None => raise_without(work, alloc, of),
    }
}

// An exception of a class is made without arguments and raised, after the walk to the end of its chain.
fn raise_without(work: &mut Work, alloc: Global, of: Value) -> Result<Answer, Stop>
    requires class { IsNamed work.old.values of }
    requires first { work.old.made ≡ None }
    ensures { Ends (λ table. bare_raised (contents table of)) work.old work.new result }
{
    let end = end_of_chain(work, of)?;
    let _ = end;
    work.throw(alloc, of, &[])
}

// A class is raised, where its chain ends at a class of the language.
fn raise_class(work: &mut Work, alloc: Global, of: Value) -> Result<Answer, Stop>
    requires class { IsNamed work.old.values of }
    requires first { work.old.made ≡ None }
    ensures { Ends (λ table. plan_raise_class (contents table of)) work.old work.new result }
{
    let end = end_of_chain(work, of)?;
    match end {
        Some(_) => raise_made(work, alloc, of),
        None => Err(work.fault(alloc, Exception::TypeError, "wrong kind of value")),
    }
}

/// An exception is raised (operation 40): one that is there already, or one of a class, which is made for it.
pub fn raise(work: &mut Work, alloc: Global, v: Value) -> Result<Answer, Stop>
    requires named { IsNamed work.old.values v }
    requires first { work.old.made ≡ None }
    ensures { Ends (λ table. plan_raise (contents table v)) work.old work.new result }
{
    if let Some(o) = object_of(v) {
        return raise_object(work, alloc, o);
    }
    let there = is_class(v);
    if there {
        return raise_class(work, alloc, v);
    }
    Err(work.fault(alloc, Exception::TypeError, "wrong kind of value"))
}

/// What a failed assertion raises (operation 47), with the message or with nothing.
pub fn assertion_failed(work: &mut Work, alloc: Global, operands: &[Value]) -> Result<Answer, Stop>
    requires named { AreNamed work.old.values operands.now }
    requires first { work.old.made ≡ None }
    ensures { Ends (λ table. plan_failed (map (contents table) operands.now)) work.old work.new result }
{
    work.throw(alloc, Value::Exc(18), operands)
}
