// Values that are one word, but for texts.
use crate::texts::halves;
use prov_base::Pos;
use py_value::Value;

/// The number that a word spells, or 0.
pub fn number(word: &str) -> u32 {
    word.parse::<u32>().unwrap_or(0)
}

fn integer(word: &str) -> i64 {
    word.parse::<i64>().unwrap_or(0)
}

fn place(word: &str) -> Pos {
    let (line, col) = halves(word, ':');
    Pos {
        line: number(line),
        col: number(col),
    }
}

fn range(word: &str) -> Value {
    let (start, rest) = halves(word, ':');
    let (end, step) = halves(rest, ':');
    Value::Range(integer(start), integer(end), integer(step))
}

/// The value of a word that is no text and no tuple: `$` is the last one.
pub fn plain_value(word: &str, last: Value) -> Value {
    let rest = word.get(1..).unwrap_or("");
    match word.as_bytes().first() {
        Some(b'$') => last,
        Some(b'N') => Value::None,
        Some(b'T') => Value::Bool(true),
        Some(b'F') => Value::Bool(false),
        Some(b'r') => range(rest),
        Some(b'f') => Value::Fn(place(rest)),
        Some(b'c') => Value::Class(place(rest)),
        Some(b'e') => Value::Exc(u64::from(number(rest))),
        Some(b'b') => Value::Builtin(u64::from(number(rest))),
        Some(b'#') => Value::Object(number(rest)),
        _ => Value::Int(integer(word)),
    }
}
