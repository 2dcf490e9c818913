// Keys of dictionaries.
ghost use Rattle.std.specs.Prelude.{◌≡◌, ◌≤◌, not, nat_lt, IfOk, string_bytes};
ghost use Rattle.py_model.specs.Printing.{height, height_in, key_text as key_words, key_texts as keys_words, tuple_text};
ghost use Rattle.py_value.specs.Contents.{contents, parts_by};
ghost use Rattle.py_value.specs.Values.{IsNamed, AreNamed};

use crate::items::{push_item, tuple_end};
use crate::literals::literal;
use crate::printed::{int_text, truth_text};
use py_value::{Value, Values, tuples_are_their_parts};
use std::alloc::{AllocError, Global};

/// Whether at most so many tuples lie in one another in a key.
#[cycle(low)]
pub fn is_low(values: &Values, levels: u32, v: Value) -> bool
    requires { IsNamed values.now v }
    ensures { result ≡ not (nat_lt levels (height (contents values.now v))) }
{
    tuples_are_their_parts();
    match v {
        Value::Tuple(id) => {
            let items = values.tuple_of(id);
            levels != 0 && are_low(values, levels - 1, items)
        },
        _ => true,
    }
}

// Whether at most so many tuples lie in one another in each of these keys.
#[cycle(low)]
fn are_low(values: &Values, levels: u32, items: &[Value]) -> bool
    requires { AreNamed values.now items.now }
    ensures { result ≡ not (nat_lt levels (height_in (parts_by (contents values.now) items.now))) }
{
    for i in 0..items.len() {
        if !is_low(values, levels, items[i]) {
            return false;
        }
    }
    true
}

/// A key as it is printed: it is None, a truth value, an integer, a text or a tuple of keys. At most so many tuples lie in one another.
#[cycle(spell)]
pub fn key_text(values: &Values, alloc: Global, levels: u32, v: Value) -> Result<String, AllocError>
    requires named { IsNamed values.now v }
    requires low { height (contents values.now v) ≤ levels }
    ensures { IfOk result (λ made. string_bytes made ≡ key_words (contents values.now v)) }
{
    match v {
        Value::None => String::from_str(alloc, "None"),
        Value::Bool(b) => String::from_str(alloc, truth_text(b)),
        Value::Int(i) => int_text(alloc, i),
        Value::Text(id) => literal(alloc, values.text_of(id)),
        Value::Tuple(id) => {
            tuples_are_their_parts();
            key_tuple(values, alloc, levels - 1, values.tuple_of(id))
        },
        _ => String::from_str(alloc, "?"),
    }
}

// A tuple of keys.
#[cycle(spell)]
fn key_tuple(
    values: &Values,
    alloc: Global,
    levels: u32,
    items: &[Value],
) -> Result<String, AllocError>
    requires named { AreNamed values.now items.now }
    requires low { height_in (parts_by (contents values.now) items.now) ≤ levels }
    ensures { IfOk result (λ made. string_bytes made ≡ tuple_text (keys_words (parts_by (contents values.now) items.now))) }
{
    let mut text = String::from_str(alloc, "(")?;
    for i in 0..items.len() {
        let item = key_text(values, alloc, levels, items[i])?;
        push_item(&mut text, i == 0, item.as_str())?;
    }
    text.push_str(tuple_end(items.len()))?;
    Ok(text)
}
