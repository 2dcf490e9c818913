// The items of what a value was taken apart into, for several targets.
ghost use Rattle.std.specs.Prelude.{◌≡◌, ◌<◌, length, slice_get};
ghost use Rattle.std.specs.Option.{option_map};
ghost use Rattle.py_tree.specs.Erasure.{form_of, targets_of};
ghost use Rattle.py_value.specs.Contents.{contents};
ghost use Rattle.py_value.specs.Values.{ValuesView, IsNamed, Keeps};
ghost use Rattle.py_value.specs.declared.value.Value.TheVariants.{Tuple as TupleValue};
ghost use Rattle.py_model.specs.Statements.{first_of, parts_in};
ghost use Rattle.flow_frames.specs.Machine.{parts_from, several_in};
ghost use Rattle.flow_frames.specs.Seen.{goal_seen};
ghost use Rattle.flow_targets.specs.Spreading.{IsTupleId};

use crate::storing::several_of;
use flow_frames::Goal;
use py_tree::{Stmt, Targets};
use py_value::{Value, Values, contents_stay, tuples_are_their_parts};

/// The number of a tuple; `None` where this is none.
fn tuple_id(value: Value) -> Option<u32>
    ensures { IsTupleId value result }
{
    match value {
        Value::Tuple(id) => Some(id),
        Value::None => None,
        Value::Bool(_) => None,
        Value::Int(_) => None,
        Value::Text(_) => None,
        Value::Range(_, _, _) => None,
        Value::Fn(_) => None,
        Value::Class(_) => None,
        Value::Exc(_) => None,
        Value::Builtin(_) => None,
        Value::Object(_) => None,
    }
}

/// An item by its number.
fn item_in<'a>(items: &'a [Value], number: usize) -> Option<&'a Value>
    ensures { option_map (λ v. v.now) result ≡ slice_get items.entry.now number }
{
    items.get(number)
}

/// An item of a tuple by its number; None where it has fewer.
fn tuple_item(values: &Values, id: u32, number: usize) -> Value
    requires { id < length values.now.tuples }
    ensures named { IsNamed values.now result }
    ensures means { (table : ValuesView) → Keeps values.now.texts table.texts → Keeps values.now.tuples table.tuples
        → contents table result ≡ first_of (parts_from number (parts_in (contents table (TupleValue id)))) }
{
    contents_stay();
    tuples_are_their_parts();
    let items = values.tuple_of(id);
    match item_in(items, number) {
        None => Value::None,
        Some(item) => *item,
    }
}

/// The item that a target with a number gets of what a value was taken apart into; None where there are fewer.
pub fn item_at(values: &Values, value: Value, number: usize) -> Value
    requires { IsNamed values.now value }
    ensures named { IsNamed values.now result }
    ensures means { (table : ValuesView) → Keeps values.now.texts table.texts → Keeps values.now.tuples table.tuples
        → contents table result ≡ first_of (parts_from number (parts_in (contents table value))) }
{
    match tuple_id(value) {
        None => Value::None,
        Some(id) => tuple_item(values, id, number),
    }
}

/// The several targets that what a value is taken apart into is stored in.
pub fn several_in<'a>(goal: Goal, stmt: &'a Stmt) -> Option<&'a Targets>
    ensures { (table : ValuesView) → option_map (λ ts. targets_of ts.now) result ≡ several_in (goal_seen table goal) (form_of stmt.entry.now.form.value) }
{
    match goal {
        Goal::Finishes => several_of(stmt),
        Goal::Turns(_, _, _) => several_of(stmt),
        Goal::Breaks(_) => None,
    }
}
