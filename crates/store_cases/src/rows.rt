// How rows are read: kinds, values, locations, contents, and plans of them.
use prov_base::Pos;
use py_value::{Access, Change, Content, Key, Keys, Kind, Location, Mode, Value};
use std::alloc::{AllocError, Global};

pub fn parse_kind(word: &str) -> Option<Kind> {
    match word {
        "list" => Some(Kind::List),
        "dict" => Some(Kind::Dict),
        "instance" => Some(Kind::Instance(Value::Class(place(3)))),
        "file" => Some(Kind::File(7, Mode::Write)),
        _ => None,
    }
}

pub fn place(line: u32) -> Pos {
    Pos { line, col: 1 }
}

fn parse_number(word: &str) -> Option<u32> {
    word.parse::<u32>().ok()
}

pub fn parse_value(word: &str) -> Option<Value> {
    match word {
        "N" => Some(Value::None),
        "T" => Some(Value::Bool(true)),
        "F" => Some(Value::Bool(false)),
        _ => parse_numbered(word),
    }
}

fn parse_numbered(word: &str) -> Option<Value> {
    if let Some(number) = word.strip_prefix('t') {
        return Some(Value::Text(parse_number(number)?));
    }
    if let Some(number) = word.strip_prefix('u') {
        return Some(Value::Tuple(parse_number(number)?));
    }
    if let Some(number) = word.strip_prefix('o') {
        return Some(Value::Object(parse_number(number)?));
    }
    if let Some(line) = word.strip_prefix('c') {
        return Some(Value::Class(place(parse_number(line)?)));
    }
    parse_other(word)
}

// A range from a start to 3, a function by its line, an exception class or a built-in by its number, or an integer.
fn parse_other(word: &str) -> Option<Value> {
    if let Some(start) = word.strip_prefix('r') {
        return Some(Value::Range(i64::from(parse_number(start)?), 3, 1));
    }
    if let Some(line) = word.strip_prefix('f') {
        return Some(Value::Fn(place(parse_number(line)?)));
    }
    if let Some(number) = word.strip_prefix('e') {
        return Some(Value::Exc(u64::from(parse_number(number)?)));
    }
    if let Some(number) = word.strip_prefix('b') {
        return Some(Value::Builtin(u64::from(parse_number(number)?)));
    }
    Some(Value::Int(word.parse::<i64>().ok()?))
}

// A value, or none where `-` stands.
fn parse_optional(word: &str) -> Option<Option<Value>> {
    if word == "-" {
        return Some(None);
    }
    Some(Some(parse_value(word)?))
}

// A first key and the value under it, or none where `-` stands.
fn parse_entry(word: &str) -> Option<Option<(Value, Value)>> {
    if word == "-" {
        return Some(None);
    }
    let (first, value) = word.split_once(':')?;
    Some(Some((parse_value(first)?, parse_value(value)?)))
}

pub fn parse_location(word: &str) -> Option<Location> {
    let (name, rest) = word.split_once('.')?;
    match rest.split_once('.') {
        Some((first, second)) => parse_second(name, parse_number(first)?, second),
        None => parse_first(name, parse_number(rest)?),
    }
}

fn parse_first(name: &str, first: u32) -> Option<Location> {
    match name {
        "Len" => Some(Location::Len(first)),
        "Order" => Some(Location::Order(first)),
        "File" => Some(Location::File(first)),
        "Offset" => Some(Location::Offset(first)),
        "Closed" => Some(Location::Closed(first)),
        "Base" => Some(Location::Base(place(first))),
        _ => None,
    }
}

fn parse_second(name: &str, first: u32, second: &str) -> Option<Location> {
    if name == "Entry" {
        let value = parse_value(second)?;
        return Some(Location::Entry(first, Key { value }));
    }
    let second = parse_number(second)?;
    match name {
        "Var" => Some(Location::Var(first, second)),
        "Item" => Some(Location::Item(first, u64::from(second))),
        "Method" => Some(Location::Method(place(first), second)),
        _ => None,
    }
}

// A content that is no order.
pub fn parse_content(l: Location, text: &str) -> Option<Content> {
    match l {
        Location::Var(_, _) => Some(Content::Var(parse_optional(text)?)),
        Location::Len(_) => Some(Content::Len(u64::from(parse_number(text)?))),
        Location::Item(_, _) => Some(Content::Item(parse_value(text)?)),
        Location::Entry(_, _) => Some(Content::Entry(parse_entry(text)?)),
        Location::Order(_) => None,
        Location::File(_) => Some(Content::File(parse_number(text.strip_prefix('t')?)?)),
        Location::Offset(_) => Some(Content::Offset(u64::from(parse_number(text)?))),
        Location::Closed(_) => Some(Content::Closed(text == "T")),
        Location::Method(_, _) => Some(Content::Method(place(parse_number(text)?))),
        Location::Base(_) => Some(Content::Base(parse_optional(text)?)),
    }
}

// Values with commas between them.
fn parse_keys(alloc: Global, text: &str) -> Result<Keys, AllocError> {
    let mut keys = Vec::new(alloc);
    for word in text.split(',') {
        if let Some(key) = parse_value(word) {
            keys.push(key)?;
        }
    }
    Ok(Keys::of(keys))
}

fn parse_change(l: Location, sign: char, text: &str) -> Option<Change> {
    match l {
        Location::File(_) => Some(Change::Append(parse_number(text.strip_prefix('t')?)?)),
        _ if sign == '+' => Some(Change::Insert(parse_value(text)?)),
        _ => Some(Change::Delete(parse_value(text)?)),
    }
}

// One write of a plan: `=` sets a location, `+` adds a key or a text to it, and `-` takes a key out of it.
fn parse_access(alloc: Global, word: &str) -> Result<Option<Access>, AllocError> {
    if let Some((place, text)) = word.split_once('=') {
        return match parse_location(place) {
            Some(Location::Order(o)) => {
                let keys = parse_keys(alloc, text)?;
                Ok(Some(Access::Set(Location::Order(o), Content::Order(keys))))
            }
            Some(l) => Ok(parse_set(l, text)),
            None => Ok(None),
        };
    }
    Ok(parse_update(word))
}

fn parse_set(l: Location, text: &str) -> Option<Access> {
    Some(Access::Set(l, parse_content(l, text)?))
}

fn parse_update(word: &str) -> Option<Access> {
    if let Some((place, text)) = word.split_once('+') {
        let l = parse_location(place)?;
        return Some(Access::Update(l, parse_change(l, '+', text)?));
    }
    let (place, text) = word.split_once('-')?;
    let l = parse_location(place)?;
    Some(Access::Update(l, parse_change(l, '-', text)?))
}

/// The accesses of a plan, none where a word is no write.
pub fn parse_plan(alloc: Global, words: &str) -> Result<Option<Vec<Access>>, AllocError> {
    let mut plan = Vec::new(alloc);
    for word in words.split(' ') {
        let Some(access) = parse_access(alloc, word)? else {
            return Ok(None);
        };
        plan.push(access)?;
    }
    Ok(Some(plan))
}

/// Writes a value as the rows have it.
pub fn write_value(alloc: Global, value: Value, out: &mut Vec<u8>) -> Result<(), AllocError> {
    let word = match value {
        Value::None => String::from_str(alloc, "N"),
        Value::Bool(true) => String::from_str(alloc, "T"),
        Value::Bool(false) => String::from_str(alloc, "F"),
        Value::Int(i) => format!(in alloc; "{i}"),
        Value::Text(id) => format!(in alloc; "t{id}"),
        Value::Tuple(id) => format!(in alloc; "u{id}"),
        Value::Range(start, _, _) => format!(in alloc; "r{start}"),
        Value::Fn(at) => format!(in alloc; "f{}", at.line),
        Value::Class(at) => format!(in alloc; "c{}", at.line),
        Value::Exc(number) => format!(in alloc; "e{number}"),
        Value::Builtin(number) => format!(in alloc; "b{number}"),
        Value::Object(object) => format!(in alloc; "o{object}"),
    };
    out.extend_from_slice(word?.as_bytes())
}
