// Cases of `object_store`: plans of writes, and the whole map after them. In a row `N`, `T` and `F` stand for None, True and False, `t3` for the text with number 3,
// `u0` for a tuple, `o1` for an object, `c3` for the class at line 3, and `-` for no value.
ghost use Rattle.std.specs.Prelude.{◌≡◌, ◌<◌, IfOk, IsTrue, OnOk, length};
ghost use Rattle.py_value.specs.Values.{ValuesView, AreBelow};
ghost use Rattle.object_store.specs.Room.{HasRoomToSet, HasRoomToUpdate, HasRoomFor, IsReserved, IsNamedChange, IsNamedAccess, AreNamedAccesses, IsWithin, IsAccessWithin, AreWithin, Takes, cells_of, keys_of, bytes_of, cells_set, keys_set, keys_put, bytes_put};
ghost use Rattle.object_store.specs.Store.{IsOwn, IsOwnChange, IsReservedFor, count_with, room_of};

use crate::Stop;
use crate::map::write_map;
use crate::rows::{parse_kind, parse_plan, place};
use object_store::Store;
use prov_base::Memory;
use py_value::{Access, Change, Content, Kind, Location, Value, Values};
use std::alloc::{AllocError, Global};

/// The answers to the rows of a section, in a store of its own.
pub fn play_rows(alloc: Global, rows: &str, out: &mut Vec<u8>) -> Result<(), Stop> {
    let mut values = Values::new(alloc)?;
    play_over(alloc, &mut values, rows, out)
}

/// What plays the rows of a section.
trait Played {
    /// The answers to the rows of a section.
    fn play(
        &mut self,
        alloc: Global,
        values: &mut Values,
        rows: &str,
        out: &mut Vec<u8>,
    ) -> Result<(), Stop>;
}

impl Played for Store {
    fn play(
        &mut self,
        alloc: Global,
        values: &mut Values,
        rows: &str,
        out: &mut Vec<u8>,
    ) -> Result<(), Stop> {
        let last = name_all(alloc, values)?;
        play_lines(alloc, self, values, last, rows, out)
    }
}

fn play_and_drop<P: Played + Drop>(
    alloc: Global,
    mut store: P,
    values: &mut Values,
    rows: &str,
    out: &mut Vec<u8>,
) -> Result<(), Stop> {
    store.play(alloc, values, rows, out)
}

fn play_over(
    alloc: Global,
    values: &mut Values,
    rows: &str,
    out: &mut Vec<u8>,
) -> Result<(), Stop> {
    match Store::new(alloc, values, "p.py", &[]) {
        Ok(store) => play_and_drop(alloc, store, values, rows, out),
        Err(_) => Err(Stop::Memory),
    }
}

fn play_lines(
    alloc: Global,
    store: &mut Store,
    values: &Values,
    last: u32,
    rows: &str,
    out: &mut Vec<u8>,
) -> Result<(), Stop>
    requires { last < length values.now.texts }
{
    for line in rows.lines() {
        out.extend_from_slice(line.as_bytes())?;
        out.extend_from_slice(b" -> ")?;
        play(alloc, store, values, last, line, out)?;
        out.push(b'\n')?;
    }
    Ok(())
}

// The tuples of `True` and of 1, in this order, and texts 3 to 7, behind those of a store as it begins. The number of the
// last text is answered.
fn name_all(alloc: Global, values: &mut Values) -> Result<u32, Memory>
    ensures { IfOk result (λ last. last < length values.new.texts) }
{
    name_tuples(alloc, values)?;
    name_words(alloc, values)
}

fn name_tuples(alloc: Global, values: &mut Values) -> Result<(), Memory> {
    values.tuple(alloc, &[Value::Bool(true)])?;
    values.tuple(alloc, &[Value::Int(1)])?;
    Ok(())
}

fn name_words(alloc: Global, values: &mut Values) -> Result<u32, Memory>
    ensures { IfOk result (λ last. last < length values.new.texts) }
{
    values.text(alloc, "a")?;
    values.text(alloc, "ab")?;
    values.text(alloc, "xyz")?;
    values.text(alloc, "")?;
    let last = values.text(alloc, "out.txt")?;
    Ok(last)
}

// Runs the plan of a line, compares the map with a line that is indented, or makes another call.
fn play(
    alloc: Global,
    store: &mut Store,
    values: &Values,
    last: u32,
    line: &str,
    out: &mut Vec<u8>,
) -> Result<(), Stop>
    requires { last < length values.now.texts }
{
    if let Some(map) = line.strip_prefix("  ") {
        write_map(alloc, store, map, out)?;
        return Ok(());
    }
    match line.split_once(": ") {
        Some((made, words)) => run(alloc, store, values, last, made, words, out),
        None => call(alloc, store, values, line, out),
    }
}

fn number(word: &str) -> u32 {
    word.parse::<u32>().unwrap_or(0)
}

// Sets a file at a fetch, notes the name of a place, makes a list by a whole plan, or tells the name that is noted at a place.
fn call(
    alloc: Global,
    store: &mut Store,
    values: &Values,
    line: &str,
    out: &mut Vec<u8>,
) -> Result<(), Stop> {
    let (command, words) = line.split_once(' ').unwrap_or((line, ""));
    let (first, second) = words.split_once(' ').unwrap_or((words, ""));
    match command {
        "place" => store.place_file(alloc, number(first), second.as_bytes())?,
        "list" => perform_list(alloc, store, values)?,
        "name" => store.name_place(place(number(first)), number(second))?,
        _ => write_name(alloc, store.name_at(place(number(first))), out)?,
    }
    Ok(())
}

// Makes a list of no items.
fn perform_list(alloc: Global, store: &mut Store, values: &Values) -> Result<(), Memory> {
    let plan = [Access::Set(Location::Len(store.next()), Content::Len(0))];
    store.reserve_for(alloc, &plan, Some(Kind::List), values)?;
    store.perform(&plan, Some(Kind::List), values);
    Ok(())
}

fn write_name(alloc: Global, name: Option<u32>, out: &mut Vec<u8>) -> Result<(), AllocError> {
    match name {
        Some(name) => out.extend_from_slice(format!(in alloc; "t{name}")?.as_bytes()),
        None => out.extend_from_slice(b"none"),
    }
}

// Takes memory for a plan, makes its object and makes its writes.
fn run(
    alloc: Global,
    store: &mut Store,
    values: &Values,
    last: u32,
    made: &str,
    words: &str,
    out: &mut Vec<u8>,
) -> Result<(), Stop>
    requires { last < length values.now.texts }
{
    let Some(plan) = parse_plan(alloc, words)? else {
        return Err(Stop::Failed);
    };
    begin(
        alloc,
        store,
        values,
        last,
        parse_kind(made),
        plan.as_slice(),
    )?;
    write_all(store, values, last, plan)?;
    out.extend_from_slice(b"done")?;
    Ok(())
}

// Takes memory for a plan, and makes its object.
fn begin(
    alloc: Global,
    store: &mut Store,
    values: &Values,
    last: u32,
    made: Option<Kind>,
    plan: &[Access],
) -> Result<(), Stop>
    requires { last < length values.now.texts }
    ensures { OnOk result (IsReserved values.now (room_of store.new) plan.now) }
{
    let count = objects_with(store, made);
    let are_within = are_within(plan, count);
    let are_named = are_named(plan, last);
    if !are_within || !are_named {
        return Err(Stop::Failed);
    }
    store.reserve_for(alloc, plan, made, values)?;
    make_first(store, made, values, plan);
    Ok(())
}

// How many objects a plan may name.
fn objects_with(store: &Store, made: Option<Kind>) -> u64
    ensures { result ≡ count_with made store.now }
{
    match made {
        Some(_) => u64::from(store.next()) + 1,
        None => u64::from(store.next()),
    }
}

// Makes the object of a plan, where it makes one.
fn make_first(store: &mut Store, made: Option<Kind>, values: &Values, plan: &[Access])
    requires { IsReservedFor values.now store.old made plan.now }
    ensures { IsReserved values.now (room_of store.new) plan.now }
{
    if let Some(kind) = made {
        store.make(kind);
    }
}

// Makes the writes of a plan for which there is room.
fn write_all(store: &mut Store, values: &Values, last: u32, plan: Vec<Access>) -> Result<(), Stop>
    requires named { last < length values.now.texts }
    requires reserved { IsReserved values.now (room_of store.old) plan.items }
{
    for access in plan {
        write(store, values, last, access)?;
    }
    Ok(())
}

fn write(store: &mut Store, values: &Values, last: u32, access: Access) -> Result<(), Stop>
    requires named { last < length values.now.texts }
    requires room { HasRoomFor values.now (room_of store.old) access }
    ensures { OnOk result (Takes (room_of store.old) (room_of store.new) (cells_of access) (keys_of access) (bytes_of values.now access)) }
{
    match access {
        Access::Read(_) => Err(Stop::Failed),
        Access::Set(l, c) => set(store, l, c),
        Access::Update(l, c) => update(store, values, last, l, c),
    }
}

fn set(store: &mut Store, l: Location, c: Content) -> Result<(), Stop>
    requires { HasRoomToSet (room_of store.old) l c }
    ensures { OnOk result (Takes (room_of store.old) (room_of store.new) (cells_set l) (keys_set c) 0) }
{
    if !is_own(l, &c) {
        return Err(Stop::Failed);
    }
    store.set(l, c);
    Ok(())
}

fn update(store: &mut Store, values: &Values, last: u32, l: Location, c: Change) -> Result<(), Stop>
    requires named { last < length values.now.texts }
    requires room { HasRoomToUpdate values.now (room_of store.old) l c }
    ensures { OnOk result (Takes (room_of store.old) (room_of store.new) 0 (keys_put c) (bytes_put values.now c)) }
{
    let is_own = is_own_change(l, c);
    let is_named = is_named_change(c, last);
    if !is_own || !is_named {
        return Err(Stop::Failed);
    }
    store.update(l, c, values);
    Ok(())
}

// The content is of the location's own kind.
fn is_own(l: Location, c: &Content) -> bool
    ensures { IsTrue result → IsOwn l c.now }
{
    match (l, c) {
        (Location::Var(_, _), Content::Var(_)) => true,
        (Location::Len(_), Content::Len(_)) => true,
        (Location::Item(_, _), Content::Item(_)) => true,
        (Location::Entry(_, _), Content::Entry(_)) => true,
        (Location::Order(_), Content::Order(_)) => true,
        (Location::File(_), Content::File(_)) => true,
        (Location::Offset(_), Content::Offset(_)) => true,
        (Location::Closed(_), Content::Closed(_)) => true,
        (Location::Method(_, _), Content::Method(_)) => true,
        (Location::Base(_), Content::Base(_)) => true,
        _ => false,
    }
}

// The change is of the location's own kind.
fn is_own_change(l: Location, c: Change) -> bool
    ensures { IsTrue result → IsOwnChange l c }
{
    match (l, c) {
        (Location::Order(_), Change::Insert(_)) => true,
        (Location::Order(_), Change::Delete(_)) => true,
        (Location::File(_), Change::Append(_)) => true,
        _ => false,
    }
}

// The text of an append has a number up to the last.
fn is_named_change(c: Change, last: u32) -> bool
    ensures { (values : ValuesView) → last < length values.texts → IsTrue result → IsNamedChange values c }
{
    match c {
        Change::Append(text) => text <= last,
        _ => true,
    }
}

fn is_named(access: &Access, last: u32) -> bool
    ensures { (values : ValuesView) → last < length values.texts → IsTrue result → IsNamedAccess values access.now }
{
    match access {
        Access::Update(_, c) => is_named_change(*c, last),
        _ => true,
    }
}

fn are_named(plan: &[Access], last: u32) -> bool
    ensures { (values : ValuesView) → last < length values.texts → IsTrue result → AreNamedAccesses values plan.now }
{
    for access in plan {
        if !is_named(access, last) {
            return false;
        }
    }
    true
}

// The object of an item or an order is one of so many.
fn is_location_within(l: Location, count: u64) -> bool
    ensures { IsTrue result → IsWithin count l }
{
    match l {
        Location::Item(o, _) | Location::Order(o) => u64::from(o) < count,
        _ => true,
    }
}

fn is_within(access: &Access, count: u64) -> bool
    ensures { IsTrue result → IsAccessWithin count access.now }
{
    match access {
        Access::Read(_) => true,
        Access::Set(l, _) => is_location_within(*l, count),
        Access::Update(l, _) => is_location_within(*l, count),
    }
}

fn are_within(plan: &[Access], count: u64) -> bool
    ensures { IsTrue result → AreWithin count plan.now }
{
    for access in plan {
        if !is_within(access, count) {
            return false;
        }
    }
    true
}
