// Whether what a row names is there.
ghost use Rattle.std.specs.Prelude.{◌≡◌};
ghost use Rattle.row_checks.specs.Numbers.{names_value as value_is_named, names_values as values_are_named, names_optional as optional_is_named, names_location as location_is_named, names_content as content_is_named, names_change as change_is_named, names_access as access_is_named, names_accesses as accesses_are_named, names_made as made_is_named};

use crate::Counts;
use py_value::{Access, Change, Content, Kind, Location, Value};

pub(crate) fn names_value(counts: Counts, v: Value) -> bool
    ensures { result ≡ value_is_named counts v }
{
    match v {
        Value::Text(n) => u64::from(n) < counts.texts,
        Value::Tuple(n) => u64::from(n) < counts.tuples,
        Value::Object(n) => u64::from(n) < counts.objects,
        Value::None
        | Value::Bool(_)
        | Value::Int(_)
        | Value::Range(..)
        | Value::Fn(_)
        | Value::Class(_)
        | Value::Exc(_)
        | Value::Builtin(_) => true,
    }
}

pub(crate) fn names_values(counts: Counts, values: &[Value]) -> bool
    ensures { result ≡ values_are_named counts values.now }
{
    values.iter().all(|v| names_value(counts, *v))
}

fn names_optional(counts: Counts, v: Option<Value>) -> bool
    ensures { result ≡ optional_is_named counts v }
{
    match v {
        None => true,
        Some(v) => names_value(counts, v),
    }
}

fn names_location(counts: Counts, l: Location) -> bool
    ensures { result ≡ location_is_named counts l }
{
    match l {
        Location::Var(scope, name) => {
            u64::from(scope) < counts.scopes && u64::from(name) < counts.texts
        }
        Location::Entry(object, key) => {
            u64::from(object) < counts.objects && names_value(counts, key.value)
        }
        Location::Len(object)
        | Location::Item(object, _)
        | Location::Order(object)
        | Location::Offset(object)
        | Location::Closed(object) => u64::from(object) < counts.objects,
        Location::File(text) | Location::Method(_, text) => u64::from(text) < counts.texts,
        Location::Base(_) => true,
    }
}

fn names_content(counts: Counts, content: &Content) -> bool
    ensures { result ≡ content_is_named counts content.now }
{
    match content {
        Content::Var(v) | Content::Base(v) => names_optional(counts, *v),
        Content::Item(v) => names_value(counts, *v),
        Content::Entry(None) => true,
        Content::Entry(Some((key, v))) => names_value(counts, *key) && names_value(counts, *v),
        Content::Order(keys) => names_values(counts, keys.as_slice()),
        Content::File(text) => u64::from(*text) < counts.texts,
        Content::Len(_) | Content::Offset(_) | Content::Closed(_) | Content::Method(_) => true,
    }
}

fn names_change(counts: Counts, change: Change) -> bool
    ensures { result ≡ change_is_named counts change }
{
    match change {
        Change::Insert(key) | Change::Delete(key) => names_value(counts, key),
        Change::Append(text) => u64::from(text) < counts.texts,
    }
}

fn names_access(counts: Counts, access: &Access) -> bool
    ensures { result ≡ access_is_named counts access.now }
{
    match access {
        Access::Read(l) => names_location(counts, *l),
        Access::Set(l, content) => { names_location(counts, *l) && names_content(counts, content) }
        Access::Update(l, change) => { names_location(counts, *l) && names_change(counts, *change) }
    }
}

pub(crate) fn names_accesses(counts: Counts, accesses: &[Access]) -> bool
    ensures { result ≡ accesses_are_named counts accesses.now }
{
    accesses.iter().all(|access| names_access(counts, access))
}

pub(crate) fn names_made(counts: Counts, made: Option<Kind>) -> bool
    ensures { result ≡ made_is_named counts made }
{
    match made {
        None | Some(Kind::List) | Some(Kind::Dict) => true,
        Some(Kind::Instance(class)) => names_value(counts, class),
        Some(Kind::File(path, _)) => u64::from(path) < counts.texts,
    }
}
