// Whether the keys of a row are keys.
ghost use Rattle.std.specs.Prelude.{◌≡◌, true};
ghost use Rattle.std.specs.List.{list_all};
ghost use Rattle.row_checks.specs.Heights.{is_low as is_low_in_table};
ghost use Rattle.row_checks.specs.Keys.{keys_of_location, keys_of_content, keys_of_change, keys_of_access, keys_of_accesses};

use crate::heights::{Height, is_low};
use py_value::{Access, Change, Content, Location, Value};

fn location_has_keys(heights: &[Height], l: Location) -> bool
    ensures { result ≡ keys_of_location (is_low_in_table heights.now) l }
{
    match l {
        Location::Entry(_, key) => is_low(heights, false, key.value),
        Location::Var(..)
        | Location::Len(_)
        | Location::Item(..)
        | Location::Order(_)
        | Location::File(_)
        | Location::Offset(_)
        | Location::Closed(_)
        | Location::Method(..)
        | Location::Base(_) => true,
    }
}

fn are_keys(heights: &[Height], keys: &[Value]) -> bool
    ensures { result ≡ list_all (is_low_in_table heights.now true) keys.now }
{
    keys.iter().all(|key| is_low(heights, true, *key))
}

fn content_has_keys(heights: &[Height], content: &Content) -> bool
    ensures { result ≡ keys_of_content (is_low_in_table heights.now) content.now }
{
    match content {
        Content::Entry(Some((key, _))) => is_low(heights, true, *key),
        Content::Order(keys) => are_keys(heights, keys.as_slice()),
        Content::Entry(None)
        | Content::Var(_)
        | Content::Len(_)
        | Content::Item(_)
        | Content::File(_)
        | Content::Offset(_)
        | Content::Closed(_)
        | Content::Method(_)
        | Content::Base(_) => true,
    }
}

fn change_has_keys(heights: &[Height], change: Change) -> bool
    ensures { result ≡ keys_of_change (is_low_in_table heights.now) change }
{
    match change {
        Change::Insert(key) | Change::Delete(key) => is_low(heights, true, key),
        Change::Append(_) => true,
    }
}

fn access_has_keys(heights: &[Height], access: &Access) -> bool
    ensures { result ≡ keys_of_access (is_low_in_table heights.now) access.now }
{
    match access {
        Access::Read(l) => location_has_keys(heights, *l),
        Access::Set(l, content) => {
            location_has_keys(heights, *l) && content_has_keys(heights, content)
        }
        Access::Update(l, change) => {
            location_has_keys(heights, *l) && change_has_keys(heights, *change)
        }
    }
}

pub(crate) fn accesses_have_keys(heights: &[Height], accesses: &[Access]) -> bool
    ensures { result ≡ keys_of_accesses (is_low_in_table heights.now) accesses.now }
{
    accesses
        .iter()
        .all(|access| access_has_keys(heights, access))
}
