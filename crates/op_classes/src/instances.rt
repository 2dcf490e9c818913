// Instances of classes.
ghost use Rattle.std.specs.Prelude.{◌≡◌, ◌<◌, None, map};
ghost use Rattle.object_store.specs.Store.{count_with};
ghost use Rattle.op_classes.specs.Instances.{args_begun, order_begun, exception_begun};
ghost use Rattle.op_work.specs.Work.{Ends, WroteAll};
ghost use Rattle.py_model.specs.Classes.{make_of as plan_make_of};
ghost use Rattle.py_model.specs.Operations.{make_plan};
ghost use Rattle.py_model.specs.Plan.{makes};
ghost use Rattle.py_value.specs.Contents.{contents};
ghost use Rattle.py_value.specs.Seen.{an_instance};
ghost use Rattle.py_value.specs.Values.{IsNamed, AreNamed};

use crate::chains::end_of_chain;
use crate::matching::is_class;
use crate::texts::begin_method;
use op_work::{Exception, Stop, Work};
use py_model::Answer;
use py_value::{Content, Key, Keys, Kind, Location, Value};
use std::alloc::Global;

// The attributes of an exception begin with `args`, the tuple of what its class was called with. The instance is the answer.
fn set_args(
    work: &mut Work,
    alloc: Global,
    o: u32,
    args: Value,
    items: Value,
) -> Result<Answer, Stop>
    requires args { IsNamed work.old.values args }
    requires items { IsNamed work.old.values items }
    requires within { o < count_with work.old.made work.old.store }
    ensures { WroteAll (λ table. args_begun (contents table args) (contents table items) o) work.old work.new result }
{
    let mut keys = Vec::new(alloc);
    keys.push(args)?;
    work.set(Location::Order(o), Content::Order(Keys::of(keys)))?;
    work.set(
        Location::Entry(o, Key { value: args }),
        Content::Entry(Some((args, items))),
    )?;
    Ok(Answer::Value(Value::Object(o)))
}

// An instance has no attributes yet. It is the answer.
fn set_order(work: &mut Work, alloc: Global, o: u32) -> Result<Answer, Stop>
    requires within { o < count_with work.old.made work.old.store }
    ensures { WroteAll (λ table. order_begun o) work.old work.new result }
{
    work.set(
        Location::Order(o),
        Content::Order(Keys::of(Vec::new(alloc))),
    )?;
    Ok(Answer::Value(Value::Object(o)))
}

// An instance of a class whose chain ends at a class of the language, so an exception.
fn make_exception(
    work: &mut Work,
    alloc: Global,
    of: Value,
    arguments: &[Value],
) -> Result<Answer, Stop>
    requires class { IsNamed work.old.values of }
    requires named { AreNamed work.old.values arguments.now }
    requires first { work.old.made ≡ None }
    ensures { Ends (λ table. makes (an_instance (contents table of)) (exception_begun (map (contents table) arguments.now))) work.old work.new result }
{
    let args = work.text(alloc, "args")?;
    let items = work.tuple(alloc, arguments)?;
    let o = work.make(Kind::Instance(of));
    set_args(work, alloc, o, args, items)
}

// An instance of another class.
fn make_plain(work: &mut Work, alloc: Global, of: Value) -> Result<Answer, Stop>
    requires class { IsNamed work.old.values of }
    requires first { work.old.made ≡ None }
    ensures { Ends (λ table. makes (an_instance (contents table of)) order_begun) work.old work.new result }
{
    let o = work.make(Kind::Instance(of));
    set_order(work, alloc, o)
}

// An instance of a class: the method walk of `__init__`, and the walk to the end of the chain.
fn make_of(work: &mut Work, alloc: Global, of: Value, arguments: &[Value]) -> Result<Answer, Stop>
    requires class { IsNamed work.old.values of }
    requires named { AreNamed work.old.values arguments.now }
    requires first { work.old.made ≡ None }
    ensures { Ends (λ table. plan_make_of (contents table of) (map (contents table) arguments.now)) work.old work.new result }
{
    let method = begin_method(work, alloc, of)?;
    let _ = method;
    let end = end_of_chain(work, of)?;
    match end {
        Some(_) => make_exception(work, alloc, of, arguments),
        None => make_plain(work, alloc, of),
    }
}

/// An instance of a class is made (operation 39), for the arguments that the class is called with.
pub fn make(work: &mut Work, alloc: Global, operands: &[Value]) -> Result<Answer, Stop>
    requires named { AreNamed work.old.values operands.now }
    requires first { work.old.made ≡ None }
    ensures { Ends (λ table. make_plan (map (contents table) operands.now)) work.old work.new result }
{
    let Some((of, arguments)) = operands.split_first() else {
        return Err(work.fault(alloc, Exception::TypeError, "wrong number of arguments"));
    };
    let there = is_class(*of);
    if there {
        return make_of(work, alloc, *of, arguments);
    }
    Err(work.fault(alloc, Exception::TypeError, "wrong kind of value"))
}
