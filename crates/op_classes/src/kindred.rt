// Whether a value is of a kind, or of one of several.
ghost use Rattle.std.specs.Prelude.{◌≡◌, ◌<◌, length, None};
ghost use Rattle.op_classes.specs.Kinds.{tuple_in};
ghost use Rattle.op_classes.specs.ObjectKinds.{builtin_in, kind_named, value_named, plain_named, is_kind_value, are_kinds};
ghost use Rattle.op_work.specs.Work.{Comes, is_any, as_is, Ends};
ghost use Rattle.py_model.specs.Classes.{first_hit, isinstance as plan_isinstance, names_kind as model_names_kind, value_is as plan_value_is};
ghost use Rattle.py_value.specs.Contents.{contents, parts_by};
ghost use Rattle.py_value.specs.Values.{IsNamed};
ghost use Rattle.py_value.specs.declared.value.Value.TheVariants.{Object, Tuple};

use crate::chains::class_walk;
use crate::kinds::{class_of_instance, object_of, tuple_number};
use crate::object_kinds::builtin_of;
use op_work::{Exception, Stop, Work};
use py_model::Answer;
use py_value::{Kind, Value, tuples_are_their_parts};
use std::alloc::Global;

// Whether a function of the language, by its number, names a kind of values.
fn names_kind(number: u64) -> bool
    ensures { result ≡ model_names_kind number }
{
    number == 1 || (number == 3 || (number == 6 || (number == 9 || (number == 18 || number == 20))))
}

// Whether a value is a class or names a kind of values.
fn is_kind(v: Value) -> bool
    ensures { result ≡ is_kind_value v }
{
    match v {
        Value::Builtin(number) => names_kind(number),
        Value::Class(_) => true,
        Value::Exc(_) => true,
        _ => false,
    }
}

// Whether all of these values do.
fn all_kinds(values: &[Value]) -> bool
    ensures { result ≡ are_kinds values.now }
{
    for i in 0..values.len() {
        if !is_kind(values[i]) {
            return false;
        }
    }
    true
}

// Whether an object is of the kind that a function of the language names.
fn object_names(kind: Option<Kind>, number: u64) -> bool
    ensures { result ≡ kind_named kind number }
{
    match kind {
        Some(Kind::List) => number == 9,
        Some(Kind::Dict) => number == 3,
        _ => false,
    }
}

// Whether another value is of the kind that a function of the language names.
fn value_names(v: Value, number: u64) -> bool
    ensures { result ≡ value_named v number }
{
    match v {
        Value::Bool(_) => number == 1 || number == 6,
        Value::Int(_) => number == 6,
        Value::Text(_) => number == 18,
        Value::Tuple(_) => number == 20,
        _ => false,
    }
}

// Whether a value that is no object is of a kind.
fn plain_is(v: Value, sought: Value) -> bool
    ensures { result ≡ plain_named v (builtin_in sought) }
{
    match builtin_of(sought) {
        Some(number) => value_names(v, number),
        None => false,
    }
}

// Whether an object is an instance of a class.
fn object_of_class(work: &mut Work, o: u32, sought: Value) -> Result<bool, Stop>
    requires class { builtin_in sought ≡ None }
    ensures { Comes is_any as_is (λ table. plan_value_is (contents table (Object o)) (contents table sought)) work.old work.new result }
{
    match class_of_instance(work.kind(o)) {
        Some(of) => class_walk(work, sought, of),
        None => Ok(false),
    }
}

// Whether an object is of a kind.
fn object_is(work: &mut Work, o: u32, sought: Value) -> Result<bool, Stop>
    ensures { Comes is_any as_is (λ table. plan_value_is (contents table (Object o)) (contents table sought)) work.old work.new result }
{
    match builtin_of(sought) {
        Some(number) => Ok(object_names(work.kind(o), number)),
        None => object_of_class(work, o, sought),
    }
}

// Whether a value is of a kind.
fn value_is(work: &mut Work, v: Value, sought: Value) -> Result<bool, Stop>
    ensures { Comes is_any as_is (λ table. plan_value_is (contents table v) (contents table sought)) work.old work.new result }
{
    match object_of(v) {
        Some(o) => object_is(work, o, sought),
        None => Ok(plain_is(v, sought)),
    }
}

// Whether a value is of one of several kinds, each of which is looked at, up to the first that is hit.
fn is_of_one(work: &mut Work, v: Value, kinds: &[Value]) -> Result<bool, Stop>
    ensures { Comes is_any as_is (λ table. first_hit (plan_value_is (contents table v)) (parts_by (contents table) kinds.now)) work.old work.new result }
{
    for i in 0..kinds.len() {
        work.look(1)?;
        let hit = value_is(work, v, kinds[i])?;
        if hit {
            return Ok(true);
        }
    }
    Ok(false)
}

/// `isinstance(v, sought)` (57): whether a value is of a kind, or of one of a tuple of kinds.
pub fn isinstance(work: &mut Work, alloc: Global, v: Value, sought: Value) -> Result<Answer, Stop>
    requires first { work.old.made ≡ None }
    requires sought { IsNamed work.old.values sought }
    ensures { Ends (λ table. plan_isinstance (contents table v) (contents table sought)) work.old work.new result }
{
    match tuple_number(sought) {
        Some(id) => is_of_tuple(work, alloc, v, id),
        None => is_of_kind(work, alloc, v, sought),
    }
}

// Whether a value is of a kind, which is no tuple.
fn is_of_kind(work: &mut Work, alloc: Global, v: Value, sought: Value) -> Result<Answer, Stop>
    requires first { work.old.made ≡ None }
    requires single { tuple_in sought ≡ None }
    ensures { Ends (λ table. plan_isinstance (contents table v) (contents table sought)) work.old work.new result }
{
    let there = is_kind(sought);
    if there {
        let hit = value_is(work, v, sought)?;
        return Ok(Answer::Value(Value::Bool(hit)));
    }
    Err(work.fault(alloc, Exception::TypeError, "wrong kind of value"))
}

// Whether a value is of one of a tuple of kinds.
fn is_of_tuple(work: &mut Work, alloc: Global, v: Value, id: u32) -> Result<Answer, Stop>
    requires first { work.old.made ≡ None }
    requires id { id < length work.old.values.tuples }
    ensures { Ends (λ table. plan_isinstance (contents table v) (contents table (Tuple id))) work.old work.new result }
{
    tuples_are_their_parts();
    let kinds = Vec::from_slice(alloc, work.tuple_of(id))?;
    let are_all = all_kinds(kinds.as_slice());
    if are_all {
        let hit = is_of_one(work, v, kinds.as_slice())?;
        return Ok(Answer::Value(Value::Bool(hit)));
    }
    Err(work.fault(alloc, Exception::TypeError, "wrong kind of value"))
}
