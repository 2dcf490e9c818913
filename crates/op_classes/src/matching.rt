// Whether an exception is of a class, or of one of several.
ghost use Rattle.std.specs.Prelude.{◌≡◌, ◌≤◌, ◌<◌, length, None};
ghost use Rattle.op_classes.specs.Kinds.{tuple_in};
ghost use Rattle.py_model.specs.Classes.{first_hit};
ghost use Rattle.py_value.specs.Values.{IsNamed};
ghost use Rattle.op_classes.specs.Matching.{are_classes, is_class_value};
ghost use Rattle.op_work.specs.Work.{Comes, is_any, as_is, Ends};
ghost use Rattle.py_model.specs.Raising.{value_matches as plan_value_matches, matches as plan_matches};
ghost use Rattle.py_value.specs.Contents.{contents, parts_by};
ghost use Rattle.py_value.specs.declared.value.Value.TheVariants.{Object, Tuple};

use crate::chains::class_walk;
use crate::kinds::{class_of_instance, object_of, tuple_number};
use op_work::{Exception, Stop, Work};
use py_model::Answer;
use py_value::{Value, tuples_are_their_parts};
use std::alloc::Global;

/// Whether a value is a class.
pub fn is_class(v: Value) -> bool
    ensures { result ≡ is_class_value v }
{
    match v {
        Value::Class(_) => true,
        Value::Exc(_) => true,
        _ => false,
    }
}

// Whether all of these values are classes.
fn all_classes(values: &[Value]) -> bool
    ensures { result ≡ are_classes values.now }
{
    for i in 0..values.len() {
        if !is_class(values[i]) {
            return false;
        }
    }
    true
}

/// Whether an exception is of a class. Another value is of none.
pub fn value_matches(work: &mut Work, v: Value, sought: Value) -> Result<bool, Stop>
    ensures { Comes is_any as_is (λ table. plan_value_matches (contents table v) (contents table sought)) work.old work.new result }
{
    match object_of(v) {
        Some(o) => object_matches(work, o, sought),
        None => Ok(false),
    }
}

// Whether an object is an exception of a class.
fn object_matches(work: &mut Work, o: u32, sought: Value) -> Result<bool, Stop>
    ensures { Comes is_any as_is (λ table. plan_value_matches (contents table (Object o)) (contents table sought)) work.old work.new result }
{
    match class_of_instance(work.kind(o)) {
        Some(of) => class_walk(work, sought, of),
        None => Ok(false),
    }
}

// Whether an exception is of one of several classes, each of which is looked at, up to the first that is hit.
fn matches_one(work: &mut Work, v: Value, classes: &[Value]) -> Result<bool, Stop>
    ensures { Comes is_any as_is (λ table. first_hit (plan_value_matches (contents table v)) (parts_by (contents table) classes.now)) work.old work.new result }
{
    for i in 0..classes.len() {
        work.look(1)?;
        let hit = value_matches(work, v, classes[i])?;
        if hit {
            return Ok(true);
        }
    }
    Ok(false)
}

/// Whether an exception is of a class, or of one of a tuple of classes (operation 41).
pub fn matches(work: &mut Work, alloc: Global, v: Value, sought: Value) -> Result<Answer, Stop>
    requires first { work.old.made ≡ None }
    requires sought { IsNamed work.old.values sought }
    ensures { Ends (λ table. plan_matches (contents table v) (contents table sought)) work.old work.new result }
{
    match tuple_number(sought) {
        Some(id) => matches_tuple(work, alloc, v, id),
        None => matches_class(work, alloc, v, sought),
    }
}

// Whether an exception is of a class, which is no tuple.
fn matches_class(work: &mut Work, alloc: Global, v: Value, sought: Value) -> Result<Answer, Stop>
    requires first { work.old.made ≡ None }
    requires single { tuple_in sought ≡ None }
    ensures { Ends (λ table. plan_matches (contents table v) (contents table sought)) work.old work.new result }
{
    let is_one = is_class(sought);
    if is_one {
        let hit = value_matches(work, v, sought)?;
        return Ok(Answer::Value(Value::Bool(hit)));
    }
    Err(work.fault(alloc, Exception::TypeError, "wrong kind of value"))
}

// Whether an exception is of one of a tuple of classes.
fn matches_tuple(work: &mut Work, alloc: Global, v: Value, id: u32) -> Result<Answer, Stop>
    requires first { work.old.made ≡ None }
    requires id { id < length work.old.values.tuples }
    ensures { Ends (λ table. plan_matches (contents table v) (contents table (Tuple id))) work.old work.new result }
{
    tuples_are_their_parts();
    let classes = Vec::from_slice(alloc, work.tuple_of(id))?;
    let are_all = all_classes(classes.as_slice());
    if are_all {
        let hit = matches_one(work, v, classes.as_slice())?;
        return Ok(Answer::Value(Value::Bool(hit)));
    }
    Err(work.fault(alloc, Exception::TypeError, "wrong kind of value"))
}
