// `a + b`: numbers are added; texts, tuples and lists are put one behind the other.
ghost use Rattle.std.specs.Prelude.{◌≡◌, ◌<◌, ◌++◌, ◌&&◌, length, map, None, IfOk, string_bytes};
ghost use Rattle.op_joins.specs.Adding.{pair_of_values, list_kind};
ghost use Rattle.op_work.specs.Work.{Comes, Ends, is_any, as_is};
ghost use Rattle.py_model.specs.Arithmetic.{added as added_plan, add_plan};
ghost use Rattle.py_model.specs.Operands.{gives_text, when_lists};
ghost use Rattle.py_model.specs.Plan.{Plan, kind_of};
ghost use Rattle.py_value.specs.Contents.{contents, object};
ghost use Rattle.py_value.specs.Seen.{bytes_of};
ghost use Rattle.py_value.specs.Values.{IsNamed, AreNamed};

use op_lists::{new_list, walk_value};
use op_numbers::{add_numbers, join_tuples, two, value_answer};
use op_texts::size;
use op_work::{Exception, Stop, Work};
use prov_base::Memory;
use py_model::Answer;
use py_value::{Kind, Value};
use std::alloc::{AllocError, Global};

/// What two values are together.
#[derive(Clone, Copy)]
pub enum Pair {
    /// Two texts, by their numbers.
    Texts(u32, u32),
    /// Two tuples, by their numbers.
    Tuples(u32, u32),
    /// Two objects.
    Objects(u32, u32),
    /// Anything else.
    Others,
}

// What two values are together.
fn pair_of(v: Value, w: Value) -> Pair
    ensures { result ≡ pair_of_values v w }
{
    match (v, w) {
        (Value::Text(a), Value::Text(b)) => Pair::Texts(a, b),
        (Value::Tuple(a), Value::Tuple(b)) => Pair::Tuples(a, b),
        (Value::Object(o), Value::Object(p)) => Pair::Objects(o, p),
        _ => Pair::Others,
    }
}

// One text behind the other.
fn joined(alloc: Global, one: &str, other: &str) -> Result<String, AllocError>
    ensures { IfOk result (λ made. string_bytes made ≡ one.now ++ other.now) }
{
    let mut made = String::new(alloc);
    made.push_str(one)?;
    made.push_str(other)?;
    Ok(made)
}

// Two texts: the characters of both count, before the text is built.
fn join_texts(work: &mut Work, alloc: Global, a: u32, b: u32) -> Result<Answer, Stop>
    requires first { a < length work.old.values.texts }
    requires second { b < length work.old.values.texts }
    requires fresh { work.old.made ≡ None }
    ensures { Ends (λ table. gives_text (bytes_of table a ++ bytes_of table b)) work.old work.new result }
{
    work.count(size(work.text_of(a)) + size(work.text_of(b)))?;
    let words = joined(alloc, work.text_of(a), work.text_of(b))?;
    let made = work.text(alloc, words.as_str())?;
    value_answer(work, made)
}

// Whether an object is a list.
fn is_list(kind: Option<Kind>) -> bool
    ensures { result ≡ list_kind kind }
{
    match kind {
        Some(Kind::List) => true,
        Some(Kind::Dict) => false,
        Some(Kind::Instance(_)) => false,
        Some(Kind::File(_, _)) => false,
        None => false,
    }
}

// Whether two objects are lists.
fn are_lists(left: Option<Kind>, right: Option<Kind>) -> bool
    ensures { result ≡ (list_kind left && list_kind right) }
{
    is_list(left) && is_list(right)
}

// It goes on where two objects are lists.
fn two_lists(work: &mut Work, alloc: Global, o: u32, p: u32) -> Result<(), Stop>
    ensures { Comes is_any as_is (λ table (go : Unit {0} → Plan). kind_of o (λ left. kind_of p (λ right. when_lists (go tt) left right))) work.old work.new result }
{
    let left = work.kind(o);
    let right = work.kind(p);
    if are_lists(left, right) {
        return Ok(());
    }
    Err(work.fault(alloc, Exception::TypeError, "wrong kind of value"))
}

// The items of two lists.
fn both(alloc: Global, lefts: &[Value], rights: &[Value]) -> Result<Vec<Value>, Memory>
    ensures { IfOk result (λ vs. vs.items ≡ lefts.now ++ rights.now) }
{
    let mut items = Vec::from_slice(alloc, lefts)?;
    items.extend_from_slice(rights)?;
    Ok(items)
}

// Two lists: each is walked, the left one first, and a list with the items of both is made.
fn join_lists(work: &mut Work, alloc: Global, o: u32, p: u32) -> Result<Answer, Stop>
    requires fresh { work.old.made ≡ None }
    ensures { Ends (λ table. added_plan (object o) (object p)) work.old work.new result }
{
    two_lists(work, alloc, o, p)?;
    let lefts = walk_value(work, alloc, Value::Object(o))?;
    let rights = walk_value(work, alloc, Value::Object(p))?;
    let items = both(alloc, lefts.as_slice(), rights.as_slice())?;
    new_list(work, items.as_slice())
}

/// The sum of two values.
pub fn added(work: &mut Work, alloc: Global, v: Value, w: Value) -> Result<Answer, Stop>
    requires first { IsNamed work.old.values v }
    requires second { IsNamed work.old.values w }
    requires fresh { work.old.made ≡ None }
    ensures { Ends (λ table. added_plan (contents table v) (contents table w)) work.old work.new result }
{
    match pair_of(v, w) {
        Pair::Texts(a, b) => join_texts(work, alloc, a, b),
        Pair::Tuples(a, b) => join_tuples(work, alloc, a, b),
        Pair::Objects(o, p) => join_lists(work, alloc, o, p),
        Pair::Others => add_numbers(work, alloc, v, w),
    }
}

/// `a + b` (7).
pub fn add(work: &mut Work, alloc: Global, operands: &[Value]) -> Result<Answer, Stop>
    requires named { AreNamed work.old.values operands.now }
    requires fresh { work.old.made ≡ None }
    ensures { Ends (λ table. add_plan (map (contents table) operands.now)) work.old work.new result }
{
    let (v, w) = two(work, alloc, operands)?;
    added(work, alloc, v, w)
}
