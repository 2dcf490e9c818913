// Locations, read.
ghost use Rattle.std.specs.Prelude.{◌≡◌};
ghost use Rattle.py_value.specs.declared.access.Location.TheVariants.{Base};
ghost use Rattle.row_words.specs.Reading.{Gives, into, both, number_at, short_at, place_at, value_at};
ghost use Rattle.row_words.specs.AccessReading.{named_location as named_location_of, made_var, made_item, made_entry, made_method, location_behind as behind_location, location_at};

use crate::access_tags::{LocationTag, NamedTag, location_tag};
use crate::fault::ReadFault;
use crate::reading_numbers::{read_number, read_place, read_short};
use crate::reading_values::read_value;
use py_value::{Key, Location};

fn named_location(form: NamedTag, n: u32) -> Location
    ensures { result ≡ named_location_of form n }
{
    match form {
        NamedTag::Len => Location::Len(n),
        NamedTag::Order => Location::Order(n),
        NamedTag::File => Location::File(n),
        NamedTag::Offset => Location::Offset(n),
        NamedTag::Closed => Location::Closed(n),
    }
}

fn read_var(rest: &[u8]) -> Result<(Location, &[u8]), ReadFault>
    ensures { Gives (λ x. (x.0, x.1.now)) result (into made_var (both short_at short_at rest.now)) }
{
    let (scope, rest) = read_short(rest)?;
    let (name, rest) = read_short(rest)?;
    Ok((Location::Var(scope, name), rest))
}

fn read_item(rest: &[u8]) -> Result<(Location, &[u8]), ReadFault>
    ensures { Gives (λ x. (x.0, x.1.now)) result (into made_item (both short_at number_at rest.now)) }
{
    let (object, rest) = read_short(rest)?;
    let (index, rest) = read_number(rest)?;
    Ok((Location::Item(object, index), rest))
}

fn read_entry(rest: &[u8]) -> Result<(Location, &[u8]), ReadFault>
    ensures { Gives (λ x. (x.0, x.1.now)) result (into made_entry (both short_at value_at rest.now)) }
{
    let (object, rest) = read_short(rest)?;
    let (value, rest) = read_value(rest)?;
    Ok((Location::Entry(object, Key { value }), rest))
}

fn read_method(rest: &[u8]) -> Result<(Location, &[u8]), ReadFault>
    ensures { Gives (λ x. (x.0, x.1.now)) result (into made_method (both place_at short_at rest.now)) }
{
    let (class, rest) = read_place(rest)?;
    let (name, rest) = read_short(rest)?;
    Ok((Location::Method(class, name), rest))
}

fn read_base(rest: &[u8]) -> Result<(Location, &[u8]), ReadFault>
    ensures { Gives (λ x. (x.0, x.1.now)) result (into Base (place_at rest.now)) }
{
    let (class, rest) = read_place(rest)?;
    Ok((Location::Base(class), rest))
}

fn read_named(form: NamedTag, rest: &[u8]) -> Result<(Location, &[u8]), ReadFault>
    ensures { Gives (λ x. (x.0, x.1.now)) result (into (named_location_of form) (short_at rest.now)) }
{
    let (n, rest) = read_short(rest)?;
    Ok((named_location(form, n), rest))
}

// The location of this form, of which the first byte was read.
#[tactic(auto, unfolding(crate::specs::AccessReading::location_behind))]
fn location_behind(tag: LocationTag, rest: &[u8]) -> Result<(Location, &[u8]), ReadFault>
    ensures { Gives (λ x. (x.0, x.1.now)) result (behind_location tag rest.now) }
{
    match tag {
        LocationTag::Var => read_var(rest),
        LocationTag::Item => read_item(rest),
        LocationTag::Entry => read_entry(rest),
        LocationTag::Method => read_method(rest),
        LocationTag::Base => read_base(rest),
        LocationTag::Named(form) => read_named(form, rest),
    }
}

/// The location at the front.
#[tactic(auto, unfolding(crate::specs::AccessReading::location_at))]
pub(crate) fn read_location(bytes: &[u8]) -> Result<(Location, &[u8]), ReadFault>
    ensures { Gives (λ x. (x.0, x.1.now)) result (location_at bytes.now) }
{
    let [b, rest @ ..] = bytes else {
        return Err(ReadFault::Bad);
    };
    match location_tag(*b) {
        None => Err(ReadFault::Bad),
        Some(tag) => location_behind(tag, rest),
    }
}
