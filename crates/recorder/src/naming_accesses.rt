// Locations, and what is done to them, with texts and tuples named anew.
ghost use Rattle.std.specs.Prelude.{◌≡◌, IfOk, OnOk, Some, map};
ghost use Rattle.std.specs.Option.{option_map};
ghost use Rattle.py_value.specs.Contents.{contents};
ghost use Rattle.py_value.specs.declared.access.Content.TheVariants.{Entry as EntryContent};
ghost use Rattle.py_value.specs.Named.{IsNamedContent, IsNamedChange, IsNamedAccess, AreNamedAccesses};
ghost use Rattle.py_value.specs.Seen.{IsNamedLocation, location_seen, content_seen, change_seen, access_seen};
ghost use Rattle.row_words.specs.AccessBytes.{IsLocation, IsOptional, IsContent, IsChange, IsAccess, AreAccesses};
ghost use Rattle.recorder.specs.Walking.{IsReady};
ghost use Rattle.recorder.specs.Parts.{IsNamedOption, NumbersOption, NumbersLocation, NumbersContent, NumbersChange, NumbersAccess, NumbersAccesses};

use crate::fitting::{location_fits, place_fits};
use crate::namer::Namer;
use crate::naming_values::{name_text, name_value, name_values};
use crate::walked::Walked;
use prov_base::Memory;
use py_value::{Access, Change, Content, Key, Keys, Location, Value, Values};
use std::alloc::Global;

// A value, where there is one.
fn name_option(
    alloc: Global,
    namer: &mut Namer,
    walked: &mut Walked,
    values: &Values,
    v: Option<Value>,
) -> Result<Option<Value>, Memory>
    requires own { IsReady values.now namer.old.view walked.old }
    requires named { IsNamedOption values.now v }
    ensures numbers { IfOk result (NumbersOption (option_map (contents values.now) v) namer.old namer.new) }
    ensures ready { OnOk result (IsReady values.now namer.new.view walked.new) }
    ensures fits { IfOk result IsOptional }
{
    match v {
        None => Ok(None),
        Some(v) => Ok(Some(name_value(alloc, namer, walked, values, v)?)),
    }
}

fn name_location(
    alloc: Global,
    namer: &mut Namer,
    walked: &mut Walked,
    values: &Values,
    l: Location,
) -> Result<Location, Memory>
    requires own { IsReady values.now namer.old.view walked.old }
    requires named { IsNamedLocation values.now l }
    ensures numbers { IfOk result (NumbersLocation (location_seen values.now l) namer.old namer.new) }
    ensures ready { OnOk result (IsReady values.now namer.new.view walked.new) }
    ensures fits { IfOk result IsLocation }
{
    match l {
        Location::Var(scope, name) => {
            let name = name_text(alloc, namer, walked, values, name)?;
            Ok(Location::Var(scope, name))
        }
        Location::Entry(object, key) => {
            let value = name_value(alloc, namer, walked, values, key.value)?;
            Ok(Location::Entry(object, Key { value }))
        }
        Location::File(path) => {
            let path = name_text(alloc, namer, walked, values, path)?;
            Ok(Location::File(path))
        }
        Location::Method(class, name) => {
            place_fits(class);
            let name = name_text(alloc, namer, walked, values, name)?;
            Ok(Location::Method(class, name))
        }
        Location::Len(_)
        | Location::Item(..)
        | Location::Order(_)
        | Location::Offset(_)
        | Location::Closed(_)
        | Location::Base(_) => {
            location_fits(l);
            Ok(l)
        }
    }
}

// The first key and the value of an entry.
fn name_entry(
    alloc: Global,
    namer: &mut Namer,
    walked: &mut Walked,
    values: &Values,
    key: Value,
    v: Value,
) -> Result<Content, Memory>
    requires own { IsReady values.now namer.old.view walked.old }
    requires named { IsNamedContent values.now (EntryContent (Some (key, v))) }
    ensures numbers { IfOk result (NumbersContent (content_seen values.now (EntryContent (Some (key, v)))) namer.old namer.new) }
    ensures ready { OnOk result (IsReady values.now namer.new.view walked.new) }
    ensures fits { IfOk result IsContent }
{
    let key = name_value(alloc, namer, walked, values, key)?;
    let v = name_value(alloc, namer, walked, values, v)?;
    Ok(Content::Entry(Some((key, v))))
}

fn name_content(
    alloc: Global,
    namer: &mut Namer,
    walked: &mut Walked,
    values: &Values,
    content: &Content,
) -> Result<Content, Memory>
    requires own { IsReady values.now namer.old.view walked.old }
    requires named { IsNamedContent values.now content.now }
    ensures numbers { IfOk result (NumbersContent (content_seen values.now content.now) namer.old namer.new) }
    ensures ready { OnOk result (IsReady values.now namer.new.view walked.new) }
    ensures fits { IfOk result IsContent }
{
    match content {
        Content::Var(v) => Ok(Content::Var(name_option(alloc, namer, walked, values, *v)?)),
        Content::Item(v) => Ok(Content::Item(name_value(alloc, namer, walked, values, *v)?)),
        Content::Entry(None) => Ok(Content::Entry(None)),
        Content::Entry(Some((key, v))) => name_entry(alloc, namer, walked, values, *key, *v),
        Content::Order(keys) => {
            let own = name_values(alloc, namer, walked, values, keys.as_slice())?;
            Ok(Content::Order(Keys::of(own)))
        }
        Content::File(text) => {
            let text = name_text(alloc, namer, walked, values, *text)?;
            Ok(Content::File(text))
        }
        Content::Base(v) => Ok(Content::Base(name_option(alloc, namer, walked, values, *v)?)),
        Content::Len(len) => Ok(Content::Len(*len)),
        Content::Offset(offset) => Ok(Content::Offset(*offset)),
        Content::Closed(is_closed) => Ok(Content::Closed(*is_closed)),
        Content::Method(at) => {
            place_fits(*at);
            Ok(Content::Method(*at))
        }
    }
}

fn name_change(
    alloc: Global,
    namer: &mut Namer,
    walked: &mut Walked,
    values: &Values,
    change: Change,
) -> Result<Change, Memory>
    requires own { IsReady values.now namer.old.view walked.old }
    requires named { IsNamedChange values.now change }
    ensures numbers { IfOk result (NumbersChange (change_seen values.now change) namer.old namer.new) }
    ensures ready { OnOk result (IsReady values.now namer.new.view walked.new) }
    ensures fits { IfOk result IsChange }
{
    match change {
        Change::Insert(key) => Ok(Change::Insert(name_value(alloc, namer, walked, values, key)?)),
        Change::Delete(key) => Ok(Change::Delete(name_value(alloc, namer, walked, values, key)?)),
        Change::Append(text) => {
            let text = name_text(alloc, namer, walked, values, text)?;
            Ok(Change::Append(text))
        }
    }
}

fn name_access(
    alloc: Global,
    namer: &mut Namer,
    walked: &mut Walked,
    values: &Values,
    access: &Access,
) -> Result<Access, Memory>
    requires own { IsReady values.now namer.old.view walked.old }
    requires named { IsNamedAccess values.now access.now }
    ensures numbers { IfOk result (NumbersAccess (access_seen values.now access.now) namer.old namer.new) }
    ensures ready { OnOk result (IsReady values.now namer.new.view walked.new) }
    ensures fits { IfOk result IsAccess }
{
    match access {
        Access::Read(l) => Ok(Access::Read(name_location(alloc, namer, walked, values, *l)?)),
        Access::Set(l, content) => {
            let l = name_location(alloc, namer, walked, values, *l)?;
            let content = name_content(alloc, namer, walked, values, content)?;
            Ok(Access::Set(l, content))
        }
        Access::Update(l, change) => {
            let l = name_location(alloc, namer, walked, values, *l)?;
            let change = name_change(alloc, namer, walked, values, *change)?;
            Ok(Access::Update(l, change))
        }
    }
}

/// Accesses, with texts and tuples by their numbers in rows.
pub(crate) fn name_accesses(
    alloc: Global,
    namer: &mut Namer,
    walked: &mut Walked,
    values: &Values,
    accesses: &[Access],
) -> Result<Vec<Access>, Memory>
    requires own { IsReady values.now namer.old.view walked.old }
    requires named { AreNamedAccesses values.now accesses.now }
    ensures numbers { IfOk result (λ xs. NumbersAccesses (map (access_seen values.now) accesses.now) namer.old namer.new xs.items) }
    ensures ready { OnOk result (IsReady values.now namer.new.view walked.new) }
    ensures fits { IfOk result (λ xs. AreAccesses xs.items) }
{
    let mut own = Vec::new(alloc);
    for access in accesses {
        let named = name_access(alloc, namer, walked, values, access)?;
        own.push(named)?;
    }
    Ok(own)
}
