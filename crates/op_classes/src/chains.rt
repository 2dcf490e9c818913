// Chains of bases, and the walks along them.
ghost use Rattle.std.specs.Prelude.{◌≡◌, ◌≤◌, ◌<◌, length};
ghost use Rattle.op_classes.specs.Chains.{next_value, next_step, is_class_at, ends_so, exception_in};
ghost use Rattle.op_work.specs.Work.{Comes, is_any, as_is, seen_maybe};
ghost use Rattle.py_model.specs.Classes.{is_earlier, derives as model_derives, longest_chain, class_walk as plan_class_walk, end_of_chain as plan_end, method_of_class as plan_method};
ghost use Rattle.py_model.specs.Faults.{base_class};
ghost use Rattle.py_value.specs.Contents.{contents};
ghost use Rattle.py_value.specs.Seen.{bytes_of};

use crate::kinds::class_of;
use op_work::{Stop, Work};
use prov_base::Pos;
use py_value::Value;

// Whether a place stands before another.
fn is_before(p: Pos, q: Pos) -> bool
    ensures { result ≡ is_earlier p q }
{
    p.line < q.line || (p.line == q.line && p.col < q.col)
}

// The class that a chain goes on with behind the class at a place, which has this base.
fn next_class(place: Pos, base: Option<Value>) -> Option<Value>
    ensures { result ≡ next_value place base }
{
    match base {
        Some(Value::Class(at)) => if is_before(at, place) { base } else { None },
        Some(Value::Exc(_)) => base,
        _ => None,
    }
}

/// The class that a chain goes on with behind the class at a place, whose base is read.
pub fn next_of(work: &mut Work, place: Pos) -> Result<Option<Value>, Stop>
    ensures { Comes is_any seen_maybe (λ table. next_step place) work.old work.new result }
{
    let base = work.read_base(place)?;
    Ok(next_class(place, base))
}

// The base of a class of the language, by its number.
fn base_of(number: u64) -> Option<u64>
    ensures { result ≡ base_class number }
{
    match number {
        0 => None,
        2 | 3 => Some(1),
        5 | 6 => Some(4),
        8 => Some(7),
        13 | 14 => Some(12),
        16 => Some(15),
        _ => Some(0),
    }
}

// Whether a class of the language is another or derives from it, within 19 bases.
fn derives(number: u64, from: u64) -> bool
    ensures { result ≡ model_derives 19 number from }
{
    let mut at = number;
    for i in 0..19u32 {
        if at == from {
            return true;
        }
        match base_of(at) {
            Some(base) => at = base,
            None => return false,
        }
    }
    at == from
}

// Whether a value is the class of the script at a place.
fn is_at(v: Value, place: Pos) -> bool
    ensures { result ≡ is_class_at v place }
{
    match v {
        Value::Class(at) => at == place,
        _ => false,
    }
}

// Whether a chain that ends with a value that is no class of the script meets the class that is sought there.
fn meets(sought: Value, end: Value) -> bool
    ensures { result ≡ ends_so sought end }
{
    match end {
        Value::Exc(number) => match sought {
            Value::Exc(from) => derives(number, from),
            _ => false,
        },
        _ => false,
    }
}

/// The class walk: whether a class is the one that is sought or derives from it. The bases of classes of the script are read.
pub fn class_walk(work: &mut Work, sought: Value, of: Value) -> Result<bool, Stop>
    ensures { Comes is_any as_is (λ table. plan_class_walk longest_chain (contents table sought) (contents table of)) work.old work.new result }
{
    let mut at = of;
    for i in 0..1000001u32 {
        match class_of(at) {
            None => return Ok(meets(sought, at)),
            Some(place) => {
                if is_at(sought, place) {
                    return Ok(true);
                }
                match next_of(work, place)? {
                    None => return Ok(false),
                    Some(next) => at = next,
                }
            },
        }
    }
    Err(Stop::TooDear)
}

// The number of the class of the language that a value is.
fn exception_of(v: Value) -> Option<u64>
    ensures { result ≡ exception_in v }
{
    match v {
        Value::Exc(number) => Some(number),
        _ => None,
    }
}

/// The class of the language, by its number, at which the chain of a class ends, where it ends at one.
pub fn end_of_chain(work: &mut Work, of: Value) -> Result<Option<u64>, Stop>
    ensures { Comes is_any as_is (λ table. plan_end (contents table of)) work.old work.new result }
{
    let mut at = of;
    for i in 0..1000001u32 {
        match class_of(at) {
            None => return Ok(exception_of(at)),
            Some(place) => match next_of(work, place)? {
                None => return Ok(None),
                Some(next) => at = next,
            },
        }
    }
    Err(Stop::TooDear)
}

/// The method of a name in a class or in the first of its bases that has one.
pub fn method_of_class(work: &mut Work, name: u32, of: Value) -> Result<Option<Pos>, Stop>
    requires name { name < length work.old.values.texts }
    ensures { Comes is_any as_is (λ table. plan_method (bytes_of table name) (contents table of)) work.old work.new result }
{
    let mut at = of;
    for i in 0..1000001u32 {
        match class_of(at) {
            None => return Ok(None),
            Some(place) => {
                let method = work.read_method(place, name)?;
                if let Some(found) = method {
                    return Ok(Some(found));
                }
                match next_of(work, place)? {
                    None => return Ok(None),
                    Some(next) => at = next,
                }
            },
        }
    }
    Err(Stop::TooDear)
}
