// The whole map of a store, compared with a line of the table: the kinds of its objects, then a word for each location
// at which something stands. An order without keys is left out, since it is none.
use crate::rows::{parse_content, parse_kind, parse_location, parse_value, place};
use object_store::Store;
use py_value::{Content, Key, Location, Value};
use std::alloc::{AllocError, Global};

/// Writes `ok` where each word stands, and there are as many locations at which something stands; else what does not.
pub fn write_map(
    alloc: Global,
    store: &Store,
    map: &str,
    out: &mut Vec<u8>,
) -> Result<(), AllocError> {
    let (kinds, words) = map.split_once(' ').unwrap_or((map, ""));
    if !has_kinds(store, kinds) {
        return out.extend_from_slice(b"other kinds");
    }
    let mut count = 0_u32;
    for word in words.split(' ') {
        if !stands(alloc, store, word)? {
            out.extend_from_slice(b"not ")?;
            return out.extend_from_slice(word.as_bytes());
        }
        count = count.saturating_add(1);
    }
    out.extend_from_slice(if count_all(store) == count {
        b"ok"
    } else {
        b"more or less"
    })
}

// The objects are of these kinds.
fn has_kinds(store: &Store, kinds: &str) -> bool {
    let mut at = 0_u32;
    for word in kinds.split(',') {
        if at >= store.next() || Some(store.kind(at)) != parse_kind(word) {
            return false;
        }
        at = at.saturating_add(1);
    }
    at == store.next()
}

// At the location that the word names stands what it says.
fn stands(alloc: Global, store: &Store, word: &str) -> Result<bool, AllocError> {
    let Some((place, text)) = word.split_once('=') else {
        return Ok(false);
    };
    match parse_location(place) {
        Some(Location::Order(o)) => Ok(has_keys(store, o, text)),
        Some(Location::File(path)) => Ok(has_bytes(store, path, text)),
        Some(l) => has_content(alloc, store, l, text),
        None => Ok(false),
    }
}

// The keys of an order are these, with commas between them.
fn has_keys(store: &Store, o: u32, keys: &str) -> bool {
    if o >= store.next() {
        return false;
    }
    let mut at = 0_u32;
    for word in keys.split(',') {
        if at >= store.order_len(o) || Some(store.order_key(o, at)) != parse_value(word) {
            return false;
        }
        at = at.saturating_add(1);
    }
    at == store.order_len(o)
}

fn has_bytes(store: &Store, path: u32, text: &str) -> bool {
    match store.file(path) {
        Some(bytes) => *bytes == *text.as_bytes(),
        None => false,
    }
}

// A content is compared as it prints.
fn has_content(alloc: Global, store: &Store, l: Location, text: &str) -> Result<bool, AllocError> {
    let got = format!(in alloc; "{:?}", read(store, l))?;
    let want = format!(in alloc; "{:?}", parse_content(l, text))?;
    Ok(got.as_str() == want.as_str())
}

// What stands at a location that is neither an order nor a file.
fn read(store: &Store, l: Location) -> Option<Content> {
    match l {
        Location::Order(_) | Location::File(_) => None,
        _ => store.read(l),
    }
}

// At how many of the locations that the rows speak of something stands.
fn count_all(store: &Store) -> u32 {
    let mut count = 0_u32;
    for first in 0..8 {
        count = count.saturating_add(count_first(store, first));
        for second in 0..8 {
            count = count.saturating_add(count_second(store, first, second));
        }
    }
    count
}

fn count_first(store: &Store, first: u32) -> u32 {
    let mut count = u32::from(has_order(store, first));
    count = one_more(count, store.file(first).is_some());
    count = one_more(count, store.read(Location::Len(first)).is_some());
    count = one_more(count, store.read(Location::Offset(first)).is_some());
    count = one_more(count, store.read(Location::Closed(first)).is_some());
    one_more(count, store.read(Location::Base(place(first))).is_some())
}

fn count_second(store: &Store, first: u32, second: u32) -> u32 {
    let mut count = u32::from(store.read(Location::Var(first, second)).is_some());
    count = one_more(
        count,
        store
            .read(Location::Item(first, u64::from(second)))
            .is_some(),
    );
    count = one_more(
        count,
        store.read(Location::Entry(first, key_at(second))).is_some(),
    );
    one_more(
        count,
        store.read(Location::Method(place(first), second)).is_some(),
    )
}

fn one_more(count: u32, is_there: bool) -> u32 {
    if is_there {
        count.saturating_add(1)
    } else {
        count
    }
}

// Eight keys, those of the rows among them.
fn key_at(number: u32) -> Key {
    let value = match number {
        0 | 1 | 2 | 3 => Value::Int(i64::from(number)),
        4 => Value::Text(3),
        5 => Value::Tuple(0),
        6 => Value::Tuple(1),
        _ => Value::None,
    };
    Key { value }
}

// There are keys in the order of this object.
fn has_order(store: &Store, o: u32) -> bool {
    o < store.next() && store.order_len(o) > 0
}
