// Characters and their codes.
ghost use Rattle.std.specs.Prelude.{◌≡◌, None, map, chars, encode_utf8};
ghost use Rattle.op_numbers.specs.Characters.{only, character_of, IsText, text_of_value};
ghost use Rattle.op_work.specs.Work.{Comes, Ends};
ghost use Rattle.py_model.specs.Arithmetic.{chr_plan, ord_plan};
ghost use Rattle.py_model.specs.Operands.{with_text, gives_text};
ghost use Rattle.py_value.specs.Contents.{contents};
ghost use Rattle.py_value.specs.Seen.{bytes_of};
ghost use Rattle.py_value.specs.Values.{IsNamed, AreNamed};

use crate::{int_answer, one, one_number};
use op_work::{Exception, Stop, Work};
use py_model::Answer;
use py_value::Value;
use std::alloc::Global;

/// The number of a text. Any other value raises TypeError.
pub fn text_number(work: &mut Work, alloc: Global, v: Value) -> Result<u32, Stop>
    requires { IsNamed work.old.values v }
    ensures { Comes IsText bytes_of (λ table. with_text (contents table v)) work.old work.new result }
{
    match text_in(v) {
        Some(id) => Ok(id),
        None => Err(work.fault(alloc, Exception::TypeError, "wrong kind of value")),
    }
}

// The number of a text, where the value is one.
fn text_in(v: Value) -> Option<u32>
    ensures { result ≡ text_of_value v }
{
    match v {
        Value::Text(id) => Some(id),
        _ => None,
    }
}

// The character of a text that is one character.
fn only_character(s: &str) -> Option<char>
    ensures { result ≡ only (chars s.now) }
{
    let mut rest = s.chars();
    let first = rest.next()?;
    if rest.next().is_some() {
        return None;
    }
    Some(first)
}

// The character with a code.
fn character(i: i64) -> Option<char>
    ensures { result ≡ character_of i }
{
    match u32::try_from(i) {
        Ok(code) => char::from_u32(code),
        Err(_) => None,
    }
}

// The text that is one character, which is counted.
fn character_answer(work: &mut Work, alloc: Global, c: char) -> Result<Answer, Stop>
    requires fresh { work.old.made ≡ None }
    ensures { Ends (λ table. gives_text (encode_utf8 c)) work.old work.new result }
{
    work.count(1)?;
    let mut buffer = [0; 4];
    let text = work.text(alloc, c.encode_utf8(&mut buffer))?;
    Ok(Answer::Value(text))
}

/// `chr` of a number: the text of the character with that code. A number without a character raises ValueError.
pub fn chr(work: &mut Work, alloc: Global, operands: &[Value]) -> Result<Answer, Stop>
    requires named { AreNamed work.old.values operands.now }
    requires fresh { work.old.made ≡ None }
    ensures { Ends (λ table. chr_plan (map (contents table) operands.now)) work.old work.new result }
{
    let i = one_number(work, alloc, operands)?;
    match character(i) {
        Some(c) => character_answer(work, alloc, c),
        None => Err(work.fault(alloc, Exception::ValueError, "not a character")),
    }
}

/// `ord` of a text that is one character: its code. Another text raises ValueError.
pub fn ord(work: &mut Work, alloc: Global, operands: &[Value]) -> Result<Answer, Stop>
    requires named { AreNamed work.old.values operands.now }
    requires fresh { work.old.made ≡ None }
    ensures { Ends (λ table. ord_plan (map (contents table) operands.now)) work.old work.new result }
{
    let v = one(work, alloc, operands)?;
    let id = text_number(work, alloc, v)?;
    match only_character(work.text_of(id)) {
        Some(c) => int_answer(work, alloc, Some(i64::from(u32::from(c)))),
        None => Err(work.fault(alloc, Exception::ValueError, "not a character")),
    }
}
