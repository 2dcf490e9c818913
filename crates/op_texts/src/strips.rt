// Texts without the white space at their ends.
ghost use Rattle.std.specs.Prelude.{◌≡◌, map, None};
ghost use Rattle.op_texts.specs.Operands.{IsText, with_one_searched};
ghost use Rattle.op_work.specs.Work.{Comes, Ends};
ghost use Rattle.py_model.specs.TextMethods.{strip_plan, lstrip_plan, rstrip_plan};
ghost use Rattle.py_model.specs.Texts.{is_white as byte_is_white, without_white_front, without_white_back};
ghost use Rattle.py_value.specs.Contents.{contents};
ghost use Rattle.py_value.specs.Seen.{bytes_of};
ghost use Rattle.py_value.specs.Values.{AreNamed};

use crate::answers::{gives_text, searched};
use crate::operands::one_text;
use op_work::{Stop, Work};
use py_model::Answer;
use py_value::Value;
use std::alloc::Global;

// Whether a byte is white space.
fn is_white(byte: u8) -> bool
    ensures { result ≡ byte_is_white byte }
{
    byte == 32 || (9 <= byte && byte <= 13)
}

// The text without the white space at its start.
fn without_front(text: &str) -> &str
    ensures { result.now ≡ without_white_front text.now }
{
    let mut rest = text;
    while !rest.is_empty() && is_white(rest.as_bytes()[0]) {
        rest = &rest[1..];
    }
    rest
}

// The text without the white space at its end.
fn without_back(text: &str) -> &str
    ensures { result.now ≡ without_white_back text.now }
{
    let mut rest = text;
    while !rest.is_empty() && is_white(rest.as_bytes()[rest.len() - 1]) {
        rest = &rest[..rest.len() - 1];
    }
    rest
}

// The number of the text that the only operand is, whose characters count.
fn searched_text(work: &mut Work, alloc: Global, operands: &[Value]) -> Result<u32, Stop>
    requires { AreNamed work.old.values operands.now }
    ensures { Comes IsText bytes_of (λ table. with_one_searched (map (contents table) operands.now)) work.old work.new result }
{
    let text = one_text(work, alloc, operands)?;
    searched(work, text)?;
    Ok(text)
}

/// `strip` (91): the text without the white space at its ends.
pub fn strip(work: &mut Work, alloc: Global, operands: &[Value]) -> Result<Answer, Stop>
    requires named { AreNamed work.old.values operands.now }
    requires fresh { work.old.made ≡ None }
    ensures { Ends (λ table. strip_plan (map (contents table) operands.now)) work.old work.new result }
{
    let text = searched_text(work, alloc, operands)?;
    let made = String::from_str(alloc, without_back(without_front(work.text_of(text))))?;
    gives_text(work, alloc, made.as_str())
}

/// `lstrip` (92): the text without the white space at its start.
pub fn lstrip(work: &mut Work, alloc: Global, operands: &[Value]) -> Result<Answer, Stop>
    requires named { AreNamed work.old.values operands.now }
    requires fresh { work.old.made ≡ None }
    ensures { Ends (λ table. lstrip_plan (map (contents table) operands.now)) work.old work.new result }
{
    let text = searched_text(work, alloc, operands)?;
    let made = String::from_str(alloc, without_front(work.text_of(text)))?;
    gives_text(work, alloc, made.as_str())
}

/// `rstrip` (93): the text without the white space at its end.
pub fn rstrip(work: &mut Work, alloc: Global, operands: &[Value]) -> Result<Answer, Stop>
    requires named { AreNamed work.old.values operands.now }
    requires fresh { work.old.made ≡ None }
    ensures { Ends (λ table. rstrip_plan (map (contents table) operands.now)) work.old work.new result }
{
    let text = searched_text(work, alloc, operands)?;
    let made = String::from_str(alloc, without_back(work.text_of(text)))?;
    gives_text(work, alloc, made.as_str())
}
