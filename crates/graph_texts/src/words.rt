// How values are written that have no parts and no number.
ghost use Rattle.std.specs.Prelude.{◌≡◌, ◌++◌, pos, codes, IfOk, string_bytes};
ghost use Rattle.std.specs.Fmt.{decimal};
ghost use Rattle.graph_texts.specs.Seen.{end_words, key_bytes, number_words};
ghost use Rattle.graph_texts.specs.Steps.{class_words, file_words, plain_words};
ghost use Rattle.py_model.specs.Graph.{mode_text as mode_words, closed_text as closed_words};
ghost use Rattle.py_model.specs.Numbers.{int_text as int_words};
ghost use Rattle.py_model.specs.Printing.{literal as literal_words};
ghost use Rattle.py_value.specs.Contents.{contents};
ghost use Rattle.py_value.specs.Values.{ValuesView, IsNamed};

use crate::names::Names;
use crate::reads::Reads;
use py_value::{Mode, Value};
use spelling::{angled, builtin_text, class_word, int_text, literal, range_text, truth_text};
use std::alloc::{AllocError, Global};

// A number in base 10.
fn decimal_text(alloc: Global, n: u64) -> Result<String, AllocError>
    ensures { IfOk result (λ made. string_bytes made ≡ decimal n) }
{
    n.to_string(alloc)
}

/// A number that is not negative, as it is printed.
pub(crate) fn natural(alloc: Global, n: u64) -> Result<String, AllocError>
    ensures { IfOk result (λ made. string_bytes made ≡ int_words (pos n)) }
{
    let made = decimal_text(alloc, n)?;
    Ok(made)
}

// What stands behind the number of a thing.
fn number_end(fresh: bool) -> &'static str
    ensures { result.now ≡ end_words fresh }
{
    if fresh { "=" } else { "" }
}

/// The number of a thing, with `=` behind it where its content follows.
pub(crate) fn number_text(alloc: Global, number: u64, fresh: bool) -> Result<String, AllocError>
    ensures { IfOk result (λ made. string_bytes made ≡ number_words number fresh) }
{
    let mut made = String::from_str(alloc, "#")?;
    made.push_str(natural(alloc, number)?.as_str())?;
    made.push_str(number_end(fresh))?;
    Ok(made)
}

/// The name of a class.
pub(crate) fn class_text(names: &Names, of: Value) -> &str
    ensures { (view : ValuesView) → result.now ≡ class_words names.now (contents view of) }
{
    match of {
        Value::Class(at) => names.name_of(true, at),
        Value::Exc(number) => class_word(number),
        _ => "?",
    }
}

/// A value that has no parts and no number, and is no text.
pub(crate) fn plain_text(alloc: Global, names: &Names, v: Value) -> Result<String, AllocError>
    ensures { IfOk result (λ made. (view : ValuesView) → string_bytes made ≡ plain_words names.now (contents view v)) }
{
    match v {
        Value::None => String::from_str(alloc, "None"),
        Value::Bool(b) => String::from_str(alloc, truth_text(b)),
        Value::Int(i) => int_text(alloc, i),
        Value::Range(start, end, step) => range_text(alloc, start, end, step),
        Value::Fn(at) => angled(alloc, "function ", names.name_of(false, at)),
        Value::Class(at) => angled(alloc, "class ", names.name_of(true, at)),
        Value::Exc(number) => angled(alloc, "class ", class_word(number)),
        Value::Builtin(number) => builtin_text(alloc, number),
        Value::Text(_) | Value::Tuple(_) | Value::Object(_) => String::from_str(alloc, ""),
    }
}

// A mode, and whether a file is closed.
fn mode_text(mode: Mode) -> &'static str
    ensures { result.now ≡ mode_words mode }
{
    match mode {
        Mode::Read => "'r'",
        Mode::Write => "'w'",
        Mode::Append => "'a'",
    }
}

fn closed_text(is_closed: bool) -> &'static str
    ensures { result.now ≡ closed_words is_closed }
{
    if is_closed { "closed" } else { "open" }
}

// The path and the mode of a file, behind the word.
fn file_head(alloc: Global, path: &str, mode: Mode) -> Result<String, AllocError>
    ensures { IfOk result (λ made. string_bytes made ≡ codes "file(" ++ literal_words path.now ++ codes ", " ++ mode_words mode) }
{
    let mut made = String::from_str(alloc, "file(")?;
    made.push_str(literal(alloc, path)?.as_str())?;
    made.push_str(", ")?;
    made.push_str(mode_text(mode))?;
    Ok(made)
}

/// A file: its path, its mode, how far it was read, and whether it was closed.
pub(crate) fn file_text(
    alloc: Global,
    path: &str,
    mode: Mode,
    offset: u64,
    is_closed: bool,
) -> Result<String, AllocError>
    ensures { IfOk result (λ made. string_bytes made ≡ file_words path.now mode offset is_closed) }
{
    let mut made = file_head(alloc, path, mode)?;
    made.push_str(", ")?;
    made.push_str(natural(alloc, offset)?.as_str())?;
    made.push_str(", ")?;
    made.push_str(closed_text(is_closed))?;
    made.push_str(")")?;
    Ok(made)
}

/// A key that is no tuple, as `repr` writes it.
pub(crate) fn key_words<R: Reads>(alloc: Global, reads: &R, v: Value) -> Result<String, AllocError>
    requires { IsNamed (R.values reads.now) v }
    ensures { IfOk result (λ made. string_bytes made ≡ key_bytes (R.values reads.now) v) }
{
    match v {
        Value::None => String::from_str(alloc, "None"),
        Value::Bool(b) => String::from_str(alloc, truth_text(b)),
        Value::Int(i) => int_text(alloc, i),
        Value::Text(id) => literal(alloc, reads.text_of(id)),
        _ => String::from_str(alloc, "?"),
    }
}
