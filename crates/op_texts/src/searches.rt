// Searches in texts.
ghost use Rattle.std.specs.Prelude.{◌≡◌, ◌≤◌, map, length, None, IfSome};
ghost use Rattle.op_work.specs.Work.{Ends};
ghost use Rattle.py_model.specs.TextMethods.{startswith_plan, endswith_plan, isdigit_plan, find_plan};
ghost use Rattle.py_model.specs.Texts.{begins_with as text_begins, ends_with as text_ends, is_digit as byte_is_digit, all_digits as text_all_digits, are_digits as text_are_digits, place_of as text_place_of};
ghost use Rattle.py_value.specs.Contents.{contents};
ghost use Rattle.py_value.specs.Values.{AreNamed};

use crate::answers::searched;
use crate::characters::size_of;
use crate::operands::{one_text, two_texts};
use op_work::{Stop, Work};
use py_model::Answer;
use py_value::Value;
use std::alloc::Global;

// Whether bytes begin with others.
fn begins_with(bytes: &[u8], sought: &[u8]) -> bool
    ensures { result ≡ text_begins bytes.now sought.now }
{
    bytes.starts_with(sought)
}

// Whether bytes end with others.
fn ends_with(bytes: &[u8], sought: &[u8]) -> bool
    ensures { result ≡ text_ends bytes.now sought.now }
{
    bytes.ends_with(sought)
}

// Whether a byte is a digit.
fn is_digit(byte: u8) -> bool
    ensures { result ≡ byte_is_digit byte }
{
    48 <= byte && byte <= 57
}

// Whether all bytes are digits.
fn are_digits(bytes: &[u8]) -> bool
    ensures { result ≡ text_are_digits bytes.now }
{
    for byte in bytes {
        if !is_digit(*byte) {
            return false;
        }
    }
    true
}

/// Whether bytes are digits, and some are there.
pub fn all_digits(bytes: &[u8]) -> bool
    ensures { result ≡ text_all_digits bytes.now }
{
    !bytes.is_empty() && are_digits(bytes)
}

/// `startswith` (98): whether the text begins with another.
pub fn startswith(work: &mut Work, alloc: Global, operands: &[Value]) -> Result<Answer, Stop>
    requires named { AreNamed work.old.values operands.now }
    requires fresh { work.old.made ≡ None }
    ensures { Ends (λ table. startswith_plan (map (contents table) operands.now)) work.old work.new result }
{
    let (text, sought) = two_texts(work, alloc, operands)?;
    searched(work, text)?;
    let is = begins_with(
        work.text_of(text).as_bytes(),
        work.text_of(sought).as_bytes(),
    );
    Ok(Answer::Value(Value::Bool(is)))
}

/// `endswith` (99): whether the text ends with another.
pub fn endswith(work: &mut Work, alloc: Global, operands: &[Value]) -> Result<Answer, Stop>
    requires named { AreNamed work.old.values operands.now }
    requires fresh { work.old.made ≡ None }
    ensures { Ends (λ table. endswith_plan (map (contents table) operands.now)) work.old work.new result }
{
    let (text, sought) = two_texts(work, alloc, operands)?;
    searched(work, text)?;
    let is = ends_with(
        work.text_of(text).as_bytes(),
        work.text_of(sought).as_bytes(),
    );
    Ok(Answer::Value(Value::Bool(is)))
}

/// `isdigit` (102): whether the text has characters, and all are digits of ASCII.
pub fn isdigit(work: &mut Work, alloc: Global, operands: &[Value]) -> Result<Answer, Stop>
    requires named { AreNamed work.old.values operands.now }
    requires fresh { work.old.made ≡ None }
    ensures { Ends (λ table. isdigit_plan (map (contents table) operands.now)) work.old work.new result }
{
    let text = one_text(work, alloc, operands)?;
    let is = all_digits(work.text_of(text).as_bytes());
    Ok(Answer::Value(Value::Bool(is)))
}

// How many bytes stand before others, where these stand first.
fn place_of(bytes: &[u8], sought: &[u8]) -> Option<usize>
    ensures place { result ≡ text_place_of bytes.now sought.now }
    ensures within { IfSome result (λ n. n ≤ length bytes.now) }
{
    for at in 0..bytes.len() {
        if begins_with(&bytes[at..], sought) {
            return Some(at);
        }
    }
    if sought.is_empty() {
        Some(bytes.len())
    } else {
        None
    }
}

/// `find` (97): how many characters stand before the first place where a text stands in the text, or -1.
pub fn find(work: &mut Work, alloc: Global, operands: &[Value]) -> Result<Answer, Stop>
    requires named { AreNamed work.old.values operands.now }
    requires fresh { work.old.made ≡ None }
    ensures { Ends (λ table. find_plan (map (contents table) operands.now)) work.old work.new result }
{
    let (text, sought) = two_texts(work, alloc, operands)?;
    searched(work, text)?;
    let bytes = work.text_of(text).as_bytes();
    let Some(n) = place_of(bytes, work.text_of(sought).as_bytes()) else {
        return Ok(Answer::Value(Value::Int(-1)));
    };
    // No text in memory has more characters than 64 bits with a sign can say.
    let Ok(before) = i64::try_from(size_of(&bytes[..n])) else {
        return Err(Stop::Memory);
    };
    Ok(Answer::Value(Value::Int(before)))
}
