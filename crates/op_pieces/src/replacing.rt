// Texts in which others are replaced.
ghost use Rattle.std.specs.Prelude.{◌≡◌, ◌<◌, map, length, string_bytes, None};
ghost use Rattle.op_pieces.specs.Counted.{Counted};
ghost use Rattle.op_work.specs.Work.{Ends};
ghost use Rattle.py_model.specs.TextMethods.{replaced as plan_replaced, replace_plan};
ghost use Rattle.py_model.specs.Texts.{joined_by, pieces};
ghost use Rattle.py_value.specs.Contents.{contents};
ghost use Rattle.py_value.specs.Seen.{bytes_of};
ghost use Rattle.py_value.specs.Values.{AreNamed};

use crate::texts::put_words;
use op_texts::{searched, text};
use op_work::{Exception, Stop, Work};
use py_model::Answer;
use py_value::Value;
use std::alloc::Global;

// The text with another for each piece that is found, from the left.
fn put_replaced(
    work: &mut Work,
    out: &mut String,
    bytes: &str,
    sought: &str,
    other: &str,
) -> Result<(), Stop>
    requires { 0 < length sought.now }
    ensures { Counted (λ table. joined_by other.now (pieces sought.now bytes.now)) (string_bytes out.old) (string_bytes out.new) work.old work.new result }
{
    let mut rest = bytes;
    while let Some((front, back)) = rest.split_once(sought) {
        put_words(work, out, front)?;
        put_words(work, out, other)?;
        rest = back;
    }
    put_words(work, out, rest)
}

// The texts with these numbers: in the first, the third stands for each second.
fn replaced(
    work: &mut Work,
    alloc: Global,
    id: u32,
    sought: u32,
    other: u32,
) -> Result<Answer, Stop>
    requires text { id < length work.old.values.texts }
    requires sought { sought < length work.old.values.texts }
    requires other { other < length work.old.values.texts }
    requires fresh { work.old.made ≡ None }
    ensures { Ends (λ table. plan_replaced (bytes_of table id) (bytes_of table sought) (bytes_of table other)) work.old work.new result }
{
    let words = String::from_str(alloc, work.text_of(id))?;
    let piece = String::from_str(alloc, work.text_of(sought))?;
    let place = String::from_str(alloc, work.text_of(other))?;
    if piece.as_str().is_empty() {
        return Err(work.fault(alloc, Exception::NotImplementedError, "not in this profile"));
    }
    searched(work, id)?;
    let mut out = String::new(alloc);
    put_replaced(
        work,
        &mut out,
        words.as_str(),
        piece.as_str(),
        place.as_str(),
    )?;
    let made = work.text(alloc, out.as_str())?;
    Ok(Answer::Value(made))
}

/// `replace` (96): the text with another for each piece that is found, from the left. An empty one is not in this profile.
pub fn replace(work: &mut Work, alloc: Global, operands: &[Value]) -> Result<Answer, Stop>
    requires named { AreNamed work.old.values operands.now }
    requires fresh { work.old.made ≡ None }
    ensures { Ends (λ table. replace_plan (map (contents table) operands.now)) work.old work.new result }
{
    if operands.len() != 3 {
        return Err(work.fault(alloc, Exception::TypeError, "wrong number of arguments"));
    }
    let id = text(work, alloc, operands[0])?;
    let sought = text(work, alloc, operands[1])?;
    let other = text(work, alloc, operands[2])?;
    replaced(work, alloc, id, sought, other)
}
