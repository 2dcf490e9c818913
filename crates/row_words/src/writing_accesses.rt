// Locations, contents, changes and accesses, written at the end of a buffer.
ghost use Rattle.std.specs.Prelude.{◌≡◌, ◌++◌, ◌∷◌, [], OnOk};
ghost use Rattle.row_words.specs.Bytes.{number_bytes, place_bytes, value_bytes};
ghost use Rattle.row_words.specs.AccessBytes.{location_bytes, optional_bytes, content_bytes, change_bytes, access_bytes, accesses_bytes};

use crate::writing::{
    write_byte, write_number, write_numbered, write_place, write_placed, write_tagged, write_value,
    write_values,
};
use prov_base::{Memory, Pos};
use py_value::{Access, Change, Content, Location, Value};

#[tactic(auto, using(std::proofs::Common::append_assoc))]
fn write_two(out: &mut Vec<u8>, tag: u8, first: u64, second: u64) -> Result<(), Memory>
    ensures { OnOk result (out.new.items ≡ out.old.items ++ (tag ∷ number_bytes first ++ number_bytes second)) }
{
    write_numbered(out, tag, first)?;
    write_number(out, second)
}

#[tactic(auto, using(std::proofs::Common::append_assoc))]
fn write_entry(out: &mut Vec<u8>, object: u32, key: Value) -> Result<(), Memory>
    ensures { OnOk result (out.new.items ≡ out.old.items ++ (3 ∷ number_bytes object ++ value_bytes key)) }
{
    write_numbered(out, 3, u64::from(object))?;
    write_value(out, key)
}

#[tactic(auto, using(std::proofs::Common::append_assoc))]
fn write_method(out: &mut Vec<u8>, class: Pos, name: u32) -> Result<(), Memory>
    ensures { OnOk result (out.new.items ≡ out.old.items ++ (8 ∷ place_bytes class ++ number_bytes name)) }
{
    write_placed(out, 8, class)?;
    write_number(out, u64::from(name))
}

fn write_location(out: &mut Vec<u8>, at: Location) -> Result<(), Memory>
    ensures { OnOk result (out.new.items ≡ out.old.items ++ location_bytes at) }
{
    match at {
        Location::Var(scope, name) => write_two(out, 0, u64::from(scope), u64::from(name)),
        Location::Len(object) => write_numbered(out, 1, u64::from(object)),
        Location::Item(object, index) => write_two(out, 2, u64::from(object), index),
        Location::Entry(object, key) => write_entry(out, object, key.value),
        Location::Order(object) => write_numbered(out, 4, u64::from(object)),
        Location::File(path) => write_numbered(out, 5, u64::from(path)),
        Location::Offset(object) => write_numbered(out, 6, u64::from(object)),
        Location::Closed(object) => write_numbered(out, 7, u64::from(object)),
        Location::Method(class, name) => write_method(out, class, name),
        Location::Base(class) => write_placed(out, 9, class),
    }
}

fn write_optional(out: &mut Vec<u8>, value: Option<Value>) -> Result<(), Memory>
    ensures { OnOk result (out.new.items ≡ out.old.items ++ optional_bytes value) }
{
    match value {
        None => write_byte(out, 0),
        Some(value) => write_tagged(out, 1, value),
    }
}

#[tactic(auto, using(std::proofs::Common::append_assoc))]
fn write_pair(out: &mut Vec<u8>, key: Value, value: Value) -> Result<(), Memory>
    ensures { OnOk result (out.new.items ≡ out.old.items ++ (1 ∷ value_bytes key ++ value_bytes value)) }
{
    write_tagged(out, 1, key)?;
    write_value(out, value)
}

fn write_content(out: &mut Vec<u8>, content: &Content) -> Result<(), Memory>
    ensures { OnOk result (out.new.items ≡ out.old.items ++ content_bytes content.now) }
{
    match content {
        Content::Var(value) => write_optional(out, *value),
        Content::Len(n) => write_number(out, *n),
        Content::Item(value) => write_value(out, *value),
        Content::Entry(None) => write_byte(out, 0),
        Content::Entry(Some((key, value))) => write_pair(out, *key, *value),
        Content::Order(keys) => write_values(out, keys.as_slice()),
        Content::File(text) => write_number(out, u64::from(*text)),
        Content::Offset(n) => write_number(out, *n),
        Content::Closed(false) => write_byte(out, 0),
        Content::Closed(true) => write_byte(out, 1),
        Content::Method(at) => write_place(out, *at),
        Content::Base(value) => write_optional(out, *value),
    }
}

fn write_change(out: &mut Vec<u8>, change: Change) -> Result<(), Memory>
    ensures { OnOk result (out.new.items ≡ out.old.items ++ change_bytes change) }
{
    match change {
        Change::Insert(key) => write_tagged(out, 0, key),
        Change::Delete(key) => write_tagged(out, 1, key),
        Change::Append(text) => write_number(out, u64::from(text)),
    }
}

#[tactic(auto, using(std::proofs::Common::append_assoc))]
fn write_access(out: &mut Vec<u8>, access: &Access) -> Result<(), Memory>
    ensures { OnOk result (out.new.items ≡ out.old.items ++ access_bytes access.now) }
{
    match access {
        Access::Read(at) => {
            write_byte(out, 0)?;
            write_location(out, *at)
        }
        Access::Set(at, content) => {
            write_byte(out, 1)?;
            write_location(out, *at)?;
            write_content(out, content)
        }
        Access::Update(at, change) => {
            write_byte(out, 2)?;
            write_location(out, *at)?;
            write_change(out, *change)
        }
    }
}

/// Writes a list of accesses.
pub fn write_accesses(out: &mut Vec<u8>, accesses: &[Access]) -> Result<(), Memory>
    ensures { OnOk result (out.new.items ≡ out.old.items ++ accesses_bytes accesses.now) }
{
    write_number(out, accesses.len() as u64)?;
    for access in accesses {
        write_access(out, access)?;
    }
    Ok(())
}
