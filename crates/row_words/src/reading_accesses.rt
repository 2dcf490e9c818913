// Accesses and lists of them, read.
ghost use Rattle.std.specs.Prelude.{◌≡◌};
ghost use Rattle.row_words.specs.Reading.{Gives, each_at, list_at};
ghost use Rattle.row_words.specs.declared.access_tags.AccessTag.TheVariants.{Set as SetTag, Update as UpdateTag};
ghost use Rattle.row_words.specs.AccessReading.{access_behind as behind_access, access_at};

use crate::access_tags::{AccessTag, access_tag};
use crate::fault::ReadFault;
use crate::reading_contents::{read_change, read_content};
use crate::reading_locations::read_location;
use crate::reading_numbers::read_number;
use py_value::Access;
use std::alloc::Global;

#[tactic(auto, unfolding(crate::specs::AccessReading::access_behind))]
fn read_set(alloc: Global, rest: &[u8]) -> Result<(Access, &[u8]), ReadFault>
    ensures { Gives (λ x. (x.0, x.1.now)) result (behind_access SetTag rest.now) }
{
    let (at, rest) = read_location(rest)?;
    let (content, rest) = read_content(alloc, at, rest)?;
    Ok((Access::Set(at, content), rest))
}

#[tactic(auto, unfolding(crate::specs::AccessReading::access_behind))]
fn read_update(rest: &[u8]) -> Result<(Access, &[u8]), ReadFault>
    ensures { Gives (λ x. (x.0, x.1.now)) result (behind_access UpdateTag rest.now) }
{
    let (at, rest) = read_location(rest)?;
    let (change, rest) = read_change(at, rest)?;
    Ok((Access::Update(at, change), rest))
}

// The access of this form, of which the first byte was read.
#[tactic(auto, unfolding(crate::specs::AccessReading::access_behind))]
fn access_behind(alloc: Global, tag: AccessTag, rest: &[u8]) -> Result<(Access, &[u8]), ReadFault>
    ensures { Gives (λ x. (x.0, x.1.now)) result (behind_access tag rest.now) }
{
    match tag {
        AccessTag::Read => {
            let (at, rest) = read_location(rest)?;
            Ok((Access::Read(at), rest))
        }
        AccessTag::Set => read_set(alloc, rest),
        AccessTag::Update => read_update(rest),
    }
}

// The access at the front.
#[tactic(auto, unfolding(crate::specs::AccessReading::access_at))]
fn read_access(alloc: Global, bytes: &[u8]) -> Result<(Access, &[u8]), ReadFault>
    ensures { Gives (λ x. (x.0, x.1.now)) result (access_at bytes.now) }
{
    let [b, rest @ ..] = bytes else {
        return Err(ReadFault::Bad);
    };
    match access_tag(*b) {
        None => Err(ReadFault::Bad),
        Some(tag) => access_behind(alloc, tag, rest),
    }
}

// So many accesses at the front. No room is reserved by the count, which may be any number.
fn read_each(alloc: Global, count: u64, bytes: &[u8]) -> Result<(Vec<Access>, &[u8]), ReadFault>
    ensures { Gives (λ x. (x.0.items, x.1.now)) result (each_at access_at count bytes.now) }
{
    let mut accesses = Vec::new(alloc);
    let mut rest = bytes;
    for _ in 0..count {
        let (access, after) = read_access(alloc, rest)?;
        accesses.push(access)?;
        rest = after;
    }
    Ok((accesses, rest))
}

/// The list of accesses at the front.
#[tactic(auto, unfolding(crate::specs::Reading::list_at))]
pub fn read_accesses(alloc: Global, bytes: &[u8]) -> Result<(Vec<Access>, &[u8]), ReadFault>
    ensures { Gives (λ x. (x.0.items, x.1.now)) result (list_at access_at bytes.now) }
{
    let (count, rest) = read_number(bytes)?;
    read_each(alloc, count, rest)
}
