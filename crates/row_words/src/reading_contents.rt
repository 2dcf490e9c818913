// What stands at a location, and changes to it, read. Their form is told by the location.
ghost use Rattle.std.specs.Prelude.{◌≡◌};
ghost use Rattle.py_value.specs.declared.access.Change.TheVariants.{Append};
ghost use Rattle.py_value.specs.declared.access.Content.TheVariants.{Var, Item, Order, Closed, Base};
ghost use Rattle.row_words.specs.Reading.{Gives, into, short_at, value_at, list_at};
ghost use Rattle.row_words.specs.AccessReading.{flag_at, optional_at, entry_at, content_at, key_change_at, change_at};

use crate::access_tags::flag;
use crate::fault::ReadFault;
use crate::reading_lists::read_values;
use crate::reading_numbers::{read_number, read_place, read_short};
use crate::reading_values::read_value;
use py_value::{Change, Content, Keys, Location, Value};
use std::alloc::Global;

#[tactic(auto, unfolding(crate::specs::AccessReading::flag_at))]
fn read_flag(bytes: &[u8]) -> Result<(bool, &[u8]), ReadFault>
    ensures { Gives (λ x. (x.0, x.1.now)) result (flag_at bytes.now) }
{
    let [b, rest @ ..] = bytes else {
        return Err(ReadFault::Bad);
    };
    match flag(*b) {
        None => Err(ReadFault::Bad),
        Some(is) => Ok((is, rest)),
    }
}

#[tactic(auto, unfolding(crate::specs::AccessReading::optional_at))]
fn read_optional(bytes: &[u8]) -> Result<(Option<Value>, &[u8]), ReadFault>
    ensures { Gives (λ x. (x.0, x.1.now)) result (optional_at bytes.now) }
{
    let [b, rest @ ..] = bytes else {
        return Err(ReadFault::Bad);
    };
    match flag(*b) {
        None => Err(ReadFault::Bad),
        Some(false) => Ok((None, rest)),
        Some(true) => {
            let (value, rest) = read_value(rest)?;
            Ok((Some(value), rest))
        }
    }
}

fn var_content(bytes: &[u8]) -> Result<(Content, &[u8]), ReadFault>
    ensures { Gives (λ x. (x.0, x.1.now)) result (into Var (optional_at bytes.now)) }
{
    let (value, rest) = read_optional(bytes)?;
    Ok((Content::Var(value), rest))
}

fn base_content(bytes: &[u8]) -> Result<(Content, &[u8]), ReadFault>
    ensures { Gives (λ x. (x.0, x.1.now)) result (into Base (optional_at bytes.now)) }
{
    let (value, rest) = read_optional(bytes)?;
    Ok((Content::Base(value), rest))
}

fn item_content(bytes: &[u8]) -> Result<(Content, &[u8]), ReadFault>
    ensures { Gives (λ x. (x.0, x.1.now)) result (into Item (value_at bytes.now)) }
{
    let (value, rest) = read_value(bytes)?;
    Ok((Content::Item(value), rest))
}

#[tactic(auto, unfolding(crate::specs::AccessReading::entry_at))]
fn entry_content(bytes: &[u8]) -> Result<(Content, &[u8]), ReadFault>
    ensures { Gives (λ x. (x.0, x.1.now)) result (entry_at bytes.now) }
{
    let [b, rest @ ..] = bytes else {
        return Err(ReadFault::Bad);
    };
    match flag(*b) {
        None => Err(ReadFault::Bad),
        Some(false) => Ok((Content::Entry(None), rest)),
        Some(true) => {
            let (key, rest) = read_value(rest)?;
            let (value, rest) = read_value(rest)?;
            Ok((Content::Entry(Some((key, value))), rest))
        }
    }
}

fn order_content(alloc: Global, bytes: &[u8]) -> Result<(Content, &[u8]), ReadFault>
    ensures { Gives (λ x. (x.0, x.1.now)) result (into Order (list_at value_at bytes.now)) }
{
    let (keys, rest) = read_values(alloc, bytes)?;
    Ok((Content::Order(Keys::of(keys)), rest))
}

fn closed_content(bytes: &[u8]) -> Result<(Content, &[u8]), ReadFault>
    ensures { Gives (λ x. (x.0, x.1.now)) result (into Closed (flag_at bytes.now)) }
{
    let (is, rest) = read_flag(bytes)?;
    Ok((Content::Closed(is), rest))
}

/// What stands at this location, at the front.
#[tactic(auto, unfolding(crate::specs::AccessReading::content_at))]
pub(crate) fn read_content(
    alloc: Global,
    at: Location,
    bytes: &[u8],
) -> Result<(Content, &[u8]), ReadFault>
    ensures { Gives (λ x. (x.0, x.1.now)) result (content_at at bytes.now) }
{
    match at {
        Location::Var(_, _) => var_content(bytes),
        Location::Len(_) => {
            let (n, rest) = read_number(bytes)?;
            Ok((Content::Len(n), rest))
        }
        Location::Item(_, _) => item_content(bytes),
        Location::Entry(_, _) => entry_content(bytes),
        Location::Order(_) => order_content(alloc, bytes),
        Location::File(_) => {
            let (text, rest) = read_short(bytes)?;
            Ok((Content::File(text), rest))
        }
        Location::Offset(_) => {
            let (n, rest) = read_number(bytes)?;
            Ok((Content::Offset(n), rest))
        }
        Location::Closed(_) => closed_content(bytes),
        Location::Method(_, _) => {
            let (at, rest) = read_place(bytes)?;
            Ok((Content::Method(at), rest))
        }
        Location::Base(_) => base_content(bytes),
    }
}

#[tactic(auto, unfolding(crate::specs::AccessReading::key_change_at))]
fn read_key_change(bytes: &[u8]) -> Result<(Change, &[u8]), ReadFault>
    ensures { Gives (λ x. (x.0, x.1.now)) result (key_change_at bytes.now) }
{
    let [b, rest @ ..] = bytes else {
        return Err(ReadFault::Bad);
    };
    match flag(*b) {
        None => Err(ReadFault::Bad),
        Some(false) => {
            let (key, rest) = read_value(rest)?;
            Ok((Change::Insert(key), rest))
        }
        Some(true) => {
            let (key, rest) = read_value(rest)?;
            Ok((Change::Delete(key), rest))
        }
    }
}

fn read_append(bytes: &[u8]) -> Result<(Change, &[u8]), ReadFault>
    ensures { Gives (λ x. (x.0, x.1.now)) result (into Append (short_at bytes.now)) }
{
    let (text, rest) = read_short(bytes)?;
    Ok((Change::Append(text), rest))
}

/// A change to this location, at the front. Only keys and contents of files are changed.
#[tactic(auto, unfolding(crate::specs::AccessReading::change_at))]
pub(crate) fn read_change(at: Location, bytes: &[u8]) -> Result<(Change, &[u8]), ReadFault>
    ensures { Gives (λ x. (x.0, x.1.now)) result (change_at at bytes.now) }
{
    match at {
        Location::Order(_) => read_key_change(bytes),
        Location::File(_) => read_append(bytes),
        _ => Err(ReadFault::Bad),
    }
}
