// Values, named anew. A tuple's parts are named before it. What stands at many places of a moment is walked once.
ghost use Rattle.std.specs.Prelude.{◌≡◌, ◌<◌, ◌≤◌, length, map, IfOk, OnOk};
ghost use Rattle.py_value.specs.Contents.{contents};
ghost use Rattle.py_value.specs.Seen.{bytes_of};
ghost use Rattle.py_value.specs.Values.{IsNamed, AreNamed, IsBelow, AreBelow};
ghost use Rattle.row_words.specs.Fits.{IsValue, AreValues};
ghost use Rattle.recorder.specs.Numbers.{NumbersText, NumbersValue, NumbersValues};
ghost use Rattle.recorder.specs.Walking.{IsReady};

use crate::fitting::value_fits;
use crate::namer::Namer;
use crate::walked::Walked;
use prov_base::Memory;
use py_value::{Value, Values, tuples_are_their_parts};
use std::alloc::Global;

/// The number in rows of a text of the run.
pub(crate) fn name_text(
    alloc: Global,
    namer: &mut Namer,
    walked: &Walked,
    values: &Values,
    id: u32,
) -> Result<u32, Memory>
    requires own { IsReady values.now namer.old.view walked.now }
    requires named { id < length values.now.texts }
    ensures numbers { IfOk result (NumbersText (bytes_of values.now id) namer.old namer.new) }
    ensures ready { OnOk result (IsReady values.now namer.new.view walked.now) }
{
    namer.text(alloc, values.text_of(id))
}

// A value, of which a tuple has a number below this one.
#[cycle(value)]
fn value_below(
    alloc: Global,
    namer: &mut Namer,
    walked: &mut Walked,
    values: &Values,
    below: u64,
    v: Value,
) -> Result<Value, Memory>
    requires own { IsReady values.now namer.old.view walked.old }
    requires named { IsNamed values.now v }
    requires below { IsBelow (length values.now.texts) below v }
    ensures numbers { IfOk result (NumbersValue (contents values.now v) namer.old namer.new) }
    ensures ready { OnOk result (IsReady values.now namer.new.view walked.new) }
    ensures fits { IfOk result IsValue }
{
    match v {
        Value::Text(id) => Ok(Value::Text(name_text(alloc, namer, walked, values, id)?)),
        Value::Tuple(id) => {
            if let Some(number) = walked.number_of(id) {
                return Ok(Value::Tuple(number));
            }
            tuples_are_their_parts();
            let items = values_below(
                alloc,
                namer,
                walked,
                values,
                u64::from(id),
                values.tuple_of(id),
            )?;
            let number = namer.tuple(alloc, items.as_slice())?;
            walked.note(id, number)?;
            Ok(Value::Tuple(number))
        }
        Value::None
        | Value::Bool(_)
        | Value::Int(_)
        | Value::Range(..)
        | Value::Fn(_)
        | Value::Class(_)
        | Value::Exc(_)
        | Value::Builtin(_)
        | Value::Object(_) => {
            value_fits(v);
            Ok(v)
        }
    }
}

// Values, of which each tuple has a number below this one.
#[cycle(value)]
fn values_below(
    alloc: Global,
    namer: &mut Namer,
    walked: &mut Walked,
    values: &Values,
    below: u64,
    items: &[Value],
) -> Result<Vec<Value>, Memory>
    requires own { IsReady values.now namer.old.view walked.old }
    requires named { AreNamed values.now items.now }
    requires below { AreBelow (length values.now.texts) below items.now }
    ensures numbers { IfOk result (λ vs. NumbersValues (map (contents values.now) items.now) namer.old namer.new vs.items) }
    ensures ready { OnOk result (IsReady values.now namer.new.view walked.new) }
    ensures fits { IfOk result (λ vs. AreValues vs.items) }
{
    let mut own = Vec::new(alloc);
    for item in items {
        let v = value_below(alloc, namer, walked, values, below, *item)?;
        own.push(v)?;
    }
    Ok(own)
}

/// A value by its numbers in rows.
pub(crate) fn name_value(
    alloc: Global,
    namer: &mut Namer,
    walked: &mut Walked,
    values: &Values,
    v: Value,
) -> Result<Value, Memory>
    requires own { IsReady values.now namer.old.view walked.old }
    requires named { IsNamed values.now v }
    ensures numbers { IfOk result (NumbersValue (contents values.now v) namer.old namer.new) }
    ensures ready { OnOk result (IsReady values.now namer.new.view walked.new) }
    ensures fits { IfOk result IsValue }
{
    match v {
        Value::Tuple(id) => value_below(alloc, namer, walked, values, u64::from(id) + 1, v),
        _ => value_below(alloc, namer, walked, values, 0, v),
    }
}

/// Values by their numbers in rows.
pub(crate) fn name_values(
    alloc: Global,
    namer: &mut Namer,
    walked: &mut Walked,
    values: &Values,
    items: &[Value],
) -> Result<Vec<Value>, Memory>
    requires own { IsReady values.now namer.old.view walked.old }
    requires named { AreNamed values.now items.now }
    ensures numbers { IfOk result (λ vs. NumbersValues (map (contents values.now) items.now) namer.old namer.new vs.items) }
    ensures ready { OnOk result (IsReady values.now namer.new.view walked.new) }
    ensures fits { IfOk result (λ vs. AreValues vs.items) }
{
    let mut own = Vec::new(alloc);
    for item in items {
        let v = name_value(alloc, namer, walked, values, *item)?;
        own.push(v)?;
    }
    Ok(own)
}
