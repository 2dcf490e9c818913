// How operations came out: values, what was made, and accesses, as words. Each is written with a blank before it.
use crate::texts::write_text;
use prov_base::Pos;
use py_model::{Answer, Deed, Done};
use py_value::{Access, Change, Content, Keys, Kind, Location, Mode, Value, Values};
use std::alloc::{AllocError, Global};

/// How many pieces of one value are written.
const MOST_PIECES: u32 = 40;

/// What of a value is still to be written.
#[derive(Clone, Copy)]
enum Piece {
    One(Value),
    Close,
}

/// Writes words as they stand.
fn put(words: &str, out: &mut Vec<u8>) -> Result<(), AllocError> {
    out.extend_from_slice(words.as_bytes())
}

/// Writes a number behind words.
fn number(alloc: Global, words: &str, number: u64, out: &mut Vec<u8>) -> Result<(), AllocError> {
    let digits = format!(in alloc; "{number}")?;
    put(words, out)?;
    put(digits.as_str(), out)
}

/// Writes an integer behind words.
fn integer(alloc: Global, words: &str, integer: i64, out: &mut Vec<u8>) -> Result<(), AllocError> {
    let digits = format!(in alloc; "{integer}")?;
    put(words, out)?;
    put(digits.as_str(), out)
}

/// Writes a place behind words.
fn place(alloc: Global, words: &str, at: Pos, out: &mut Vec<u8>) -> Result<(), AllocError> {
    number(alloc, words, u64::from(at.line), out)?;
    number(alloc, ":", u64::from(at.col), out)
}

fn range(alloc: Global, a: i64, b: i64, c: i64, out: &mut Vec<u8>) -> Result<(), AllocError> {
    integer(alloc, " r", a, out)?;
    integer(alloc, ":", b, out)?;
    integer(alloc, ":", c, out)
}

/// Writes a text behind words.
fn text(words: &str, values: &Values, id: u32, out: &mut Vec<u8>) -> Result<(), AllocError> {
    put(words, out)?;
    if values.has(Value::Text(id)) {
        return write_text(values.text_of(id), out);
    }
    put(" ?", out)
}

/// Writes a value that is no tuple.
fn single(alloc: Global, values: &Values, v: Value, out: &mut Vec<u8>) -> Result<(), AllocError> {
    match v {
        Value::None => put(" None", out),
        Value::Bool(true) => put(" True", out),
        Value::Bool(false) => put(" False", out),
        Value::Int(i) => integer(alloc, " ", i, out),
        Value::Text(id) => text("", values, id, out),
        Value::Tuple(_) => Ok(()),
        Value::Range(a, b, c) => range(alloc, a, b, c, out),
        Value::Fn(at) => place(alloc, " f", at, out),
        Value::Class(at) => place(alloc, " c", at, out),
        Value::Exc(class) => number(alloc, " e", class, out),
        Value::Builtin(which) => number(alloc, " b", which, out),
        Value::Object(o) => number(alloc, " #", u64::from(o), out),
    }
}

/// Puts the parts of a tuple before what is still to be written.
fn put_parts(values: &Values, id: u32, todo: &mut Vec<Piece>) -> Result<(), AllocError> {
    todo.push(Piece::Close)?;
    if values.has(Value::Tuple(id)) {
        for item in values.tuple_of(id).iter().rev() {
            todo.push(Piece::One(*item))?;
        }
    }
    Ok(())
}

fn write_piece(
    alloc: Global,
    values: &Values,
    piece: Piece,
    todo: &mut Vec<Piece>,
    out: &mut Vec<u8>,
) -> Result<(), AllocError> {
    match piece {
        Piece::Close => put(" )", out),
        Piece::One(Value::Tuple(id)) => {
            put(" (", out)?;
            put_parts(values, id, todo)
        }
        Piece::One(v) => single(alloc, values, v, out),
    }
}

/// Writes a value behind words. A long one ends with `..`.
pub fn write_value(
    alloc: Global,
    words: &str,
    values: &Values,
    v: Value,
    out: &mut Vec<u8>,
) -> Result<(), AllocError> {
    put(words, out)?;
    let mut todo = Vec::new(alloc);
    todo.push(Piece::One(v))?;
    for _ in 0..MOST_PIECES {
        let Some(piece) = todo.pop() else {
            return Ok(());
        };
        write_piece(alloc, values, piece, &mut todo, out)?;
    }
    put(if todo.is_empty() { "" } else { " .." }, out)
}

/// Writes what was made.
fn write_made(
    alloc: Global,
    values: &Values,
    made: Kind,
    out: &mut Vec<u8>,
) -> Result<(), AllocError> {
    match made {
        Kind::List => put(" makes list", out),
        Kind::Dict => put(" makes dict", out),
        Kind::Instance(of) => write_value(alloc, " makes", values, of, out),
        Kind::File(path, mode) => {
            text(" makes file", values, path, out)?;
            put(mode_word(mode), out)
        }
    }
}

fn mode_word(mode: Mode) -> &'static str {
    match mode {
        Mode::Read => " r",
        Mode::Write => " w",
        Mode::Append => " a",
    }
}

fn write_location(
    alloc: Global,
    values: &Values,
    l: Location,
    out: &mut Vec<u8>,
) -> Result<(), AllocError> {
    match l {
        Location::Var(scope, name) => {
            number(alloc, " var ", u64::from(scope), out)?;
            text("", values, name, out)
        }
        Location::Len(o) => number(alloc, " len ", u64::from(o), out),
        Location::Item(o, i) => {
            number(alloc, " item ", u64::from(o), out)?;
            number(alloc, " ", i, out)
        }
        Location::Entry(o, key) => {
            number(alloc, " entry ", u64::from(o), out)?;
            write_value(alloc, "", values, key.value, out)
        }
        Location::Order(o) => number(alloc, " order ", u64::from(o), out),
        Location::File(path) => text(" file", values, path, out),
        Location::Offset(o) => number(alloc, " offset ", u64::from(o), out),
        Location::Closed(o) => number(alloc, " closed ", u64::from(o), out),
        Location::Method(at, name) => {
            place(alloc, " method ", at, out)?;
            text("", values, name, out)
        }
        Location::Base(at) => place(alloc, " base ", at, out),
    }
}

fn write_keys(
    alloc: Global,
    values: &Values,
    keys: &Keys,
    out: &mut Vec<u8>,
) -> Result<(), AllocError> {
    for key in keys.as_slice() {
        write_value(alloc, "", values, *key, out)?;
    }
    Ok(())
}

fn write_pair(
    alloc: Global,
    values: &Values,
    key: Value,
    v: Value,
    out: &mut Vec<u8>,
) -> Result<(), AllocError> {
    write_value(alloc, "", values, key, out)?;
    write_value(alloc, "", values, v, out)
}

fn write_content(
    alloc: Global,
    values: &Values,
    content: &Content,
    out: &mut Vec<u8>,
) -> Result<(), AllocError> {
    match content {
        Content::Var(Some(v)) => write_value(alloc, "", values, *v, out),
        Content::Var(None) => put(" unset", out),
        Content::Len(n) => number(alloc, " ", *n, out),
        Content::Item(v) => write_value(alloc, "", values, *v, out),
        Content::Entry(Some((key, v))) => write_pair(alloc, values, *key, *v, out),
        Content::Entry(None) => put(" absent", out),
        Content::Order(keys) => write_keys(alloc, values, keys, out),
        Content::File(id) => text("", values, *id, out),
        Content::Offset(n) => number(alloc, " ", *n, out),
        Content::Closed(b) => write_value(alloc, "", values, Value::Bool(*b), out),
        Content::Method(at) => write_value(alloc, "", values, Value::Fn(*at), out),
        Content::Base(Some(v)) => write_value(alloc, "", values, *v, out),
        Content::Base(None) => put(" none", out),
    }
}

fn write_change(
    alloc: Global,
    values: &Values,
    how: Change,
    out: &mut Vec<u8>,
) -> Result<(), AllocError> {
    match how {
        Change::Insert(key) => write_value(alloc, " +", values, key, out),
        Change::Delete(key) => write_value(alloc, " -", values, key, out),
        Change::Append(id) => text(" +", values, id, out),
    }
}

fn write_access(
    alloc: Global,
    values: &Values,
    access: &Access,
    out: &mut Vec<u8>,
) -> Result<(), AllocError> {
    match access {
        Access::Read(l) => {
            put("; R", out)?;
            write_location(alloc, values, *l, out)
        }
        Access::Set(l, content) => {
            put("; S", out)?;
            write_location(alloc, values, *l, out)?;
            put(" =", out)?;
            write_content(alloc, values, content, out)
        }
        Access::Update(l, how) => {
            put("; U", out)?;
            write_location(alloc, values, *l, out)?;
            write_change(alloc, values, *how, out)
        }
    }
}

fn write_accesses(
    alloc: Global,
    values: &Values,
    deed: &Deed,
    out: &mut Vec<u8>,
) -> Result<(), AllocError> {
    if let Some(made) = deed.made {
        write_made(alloc, values, made, out)?;
    }
    for access in deed.accesses.as_slice() {
        write_access(alloc, values, access, out)?;
    }
    Ok(())
}

fn write_answer(
    alloc: Global,
    values: &Values,
    answer: Answer,
    out: &mut Vec<u8>,
) -> Result<(), AllocError> {
    match answer {
        Answer::Value(v) => write_value(alloc, "", values, v, out),
        Answer::Raised(o) => number(alloc, " raised #", u64::from(o), out),
        Answer::End => put(" end", out),
    }
}

/// Writes how an operation came out, with its accesses or without.
pub fn write_done(
    alloc: Global,
    values: &Values,
    done: &Done,
    whole: bool,
    out: &mut Vec<u8>,
) -> Result<(), AllocError> {
    put(" ->", out)?;
    match done {
        Done::Did(deed) => {
            write_answer(alloc, values, deed.answer, out)?;
            if whole {
                write_accesses(alloc, values, deed, out)?;
            }
            number(alloc, " : ", u64::from(deed.weight), out)
        }
        Done::TooDear => put(" too dear", out),
        Done::Unanswered => put(" unanswered", out),
    }
}
