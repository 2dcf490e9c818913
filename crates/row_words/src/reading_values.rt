// Values and kinds, read.
ghost use Rattle.std.specs.Prelude.{◌≡◌};
ghost use Rattle.py_value.specs.declared.value.Value.TheVariants.{Int};
ghost use Rattle.row_words.specs.Reading.{Gives, into, both, number_at, short_at, signed_at, place_at, named_value as named_value_of, placed_value as placed_value_of, numbered_value as numbered_value_of, made_range, value_behind as behind_value, value_at, mode_at, made_instance, made_file, made_behind as behind_made, made_at};

use crate::fault::ReadFault;
use crate::reading_numbers::{read_number, read_place, read_short, read_signed};
use crate::tags::{
    MadeTag, NamedTag, NumberedTag, PlacedTag, ValueTag, made_tag, mode_tag, value_tag,
};
use prov_base::Pos;
use py_value::{Kind, Mode, Value};

fn named_value(form: NamedTag, n: u32) -> Value
    ensures { result ≡ named_value_of form n }
{
    match form {
        NamedTag::Text => Value::Text(n),
        NamedTag::Tuple => Value::Tuple(n),
        NamedTag::Object => Value::Object(n),
    }
}

fn placed_value(form: PlacedTag, at: Pos) -> Value
    ensures { result ≡ placed_value_of form at }
{
    match form {
        PlacedTag::Fn => Value::Fn(at),
        PlacedTag::Class => Value::Class(at),
    }
}

fn numbered_value(form: NumberedTag, n: u64) -> Value
    ensures { result ≡ numbered_value_of form n }
{
    match form {
        NumberedTag::Exc => Value::Exc(n),
        NumberedTag::Builtin => Value::Builtin(n),
    }
}

fn read_int(rest: &[u8]) -> Result<(Value, &[u8]), ReadFault>
    ensures { Gives (λ x. (x.0, x.1.now)) result (into Int (signed_at rest.now)) }
{
    let (i, rest) = read_signed(rest)?;
    Ok((Value::Int(i), rest))
}

fn read_range(rest: &[u8]) -> Result<(Value, &[u8]), ReadFault>
    ensures { Gives (λ x. (x.0, x.1.now)) result (into made_range (both signed_at (both signed_at signed_at) rest.now)) }
{
    let (start, rest) = read_signed(rest)?;
    let (end, rest) = read_signed(rest)?;
    let (step, rest) = read_signed(rest)?;
    Ok((Value::Range(start, end, step), rest))
}

fn read_named(form: NamedTag, rest: &[u8]) -> Result<(Value, &[u8]), ReadFault>
    ensures { Gives (λ x. (x.0, x.1.now)) result (into (named_value_of form) (short_at rest.now)) }
{
    let (n, rest) = read_short(rest)?;
    Ok((named_value(form, n), rest))
}

fn read_placed(form: PlacedTag, rest: &[u8]) -> Result<(Value, &[u8]), ReadFault>
    ensures { Gives (λ x. (x.0, x.1.now)) result (into (placed_value_of form) (place_at rest.now)) }
{
    let (at, rest) = read_place(rest)?;
    Ok((placed_value(form, at), rest))
}

fn read_numbered(form: NumberedTag, rest: &[u8]) -> Result<(Value, &[u8]), ReadFault>
    ensures { Gives (λ x. (x.0, x.1.now)) result (into (numbered_value_of form) (number_at rest.now)) }
{
    let (n, rest) = read_number(rest)?;
    Ok((numbered_value(form, n), rest))
}

// The value of this form, of which the first byte was read.
#[tactic(auto, unfolding(crate::specs::Reading::value_behind))]
fn value_behind(tag: ValueTag, rest: &[u8]) -> Result<(Value, &[u8]), ReadFault>
    ensures { Gives (λ x. (x.0, x.1.now)) result (behind_value tag rest.now) }
{
    match tag {
        ValueTag::None => Ok((Value::None, rest)),
        ValueTag::False => Ok((Value::Bool(false), rest)),
        ValueTag::True => Ok((Value::Bool(true), rest)),
        ValueTag::Int => read_int(rest),
        ValueTag::Range => read_range(rest),
        ValueTag::Named(form) => read_named(form, rest),
        ValueTag::Placed(form) => read_placed(form, rest),
        ValueTag::Numbered(form) => read_numbered(form, rest),
    }
}

/// The value at the front.
#[tactic(auto, unfolding(crate::specs::Reading::value_at))]
pub fn read_value(bytes: &[u8]) -> Result<(Value, &[u8]), ReadFault>
    ensures { Gives (λ x. (x.0, x.1.now)) result (value_at bytes.now) }
{
    let [b, rest @ ..] = bytes else {
        return Err(ReadFault::Bad);
    };
    match value_tag(*b) {
        None => Err(ReadFault::Bad),
        Some(tag) => value_behind(tag, rest),
    }
}

#[tactic(auto, unfolding(crate::specs::Reading::mode_at))]
fn read_mode(bytes: &[u8]) -> Result<(Mode, &[u8]), ReadFault>
    ensures { Gives (λ x. (x.0, x.1.now)) result (mode_at bytes.now) }
{
    let [b, rest @ ..] = bytes else {
        return Err(ReadFault::Bad);
    };
    match mode_tag(*b) {
        None => Err(ReadFault::Bad),
        Some(mode) => Ok((mode, rest)),
    }
}

fn read_instance(rest: &[u8]) -> Result<(Option<Kind>, &[u8]), ReadFault>
    ensures { Gives (λ x. (x.0, x.1.now)) result (into made_instance (value_at rest.now)) }
{
    let (class, rest) = read_value(rest)?;
    Ok((Some(Kind::Instance(class)), rest))
}

fn read_file(rest: &[u8]) -> Result<(Option<Kind>, &[u8]), ReadFault>
    ensures { Gives (λ x. (x.0, x.1.now)) result (into made_file (both short_at mode_at rest.now)) }
{
    let (path, rest) = read_short(rest)?;
    let (mode, rest) = read_mode(rest)?;
    Ok((Some(Kind::File(path, mode)), rest))
}

// What was made of this form, of which the first byte was read.
#[tactic(auto, unfolding(crate::specs::Reading::made_behind))]
fn made_behind(tag: MadeTag, rest: &[u8]) -> Result<(Option<Kind>, &[u8]), ReadFault>
    ensures { Gives (λ x. (x.0, x.1.now)) result (behind_made tag rest.now) }
{
    match tag {
        MadeTag::Nothing => Ok((None, rest)),
        MadeTag::List => Ok((Some(Kind::List), rest)),
        MadeTag::Dict => Ok((Some(Kind::Dict), rest)),
        MadeTag::Instance => read_instance(rest),
        MadeTag::File => read_file(rest),
    }
}

/// The kind at the front of what was made, or that nothing was.
#[tactic(auto, unfolding(crate::specs::Reading::made_at))]
pub fn read_made(bytes: &[u8]) -> Result<(Option<Kind>, &[u8]), ReadFault>
    ensures { Gives (λ x. (x.0, x.1.now)) result (made_at bytes.now) }
{
    let [b, rest @ ..] = bytes else {
        return Err(ReadFault::Bad);
    };
    match made_tag(*b) {
        None => Err(ReadFault::Bad),
        Some(tag) => made_behind(tag, rest),
    }
}
