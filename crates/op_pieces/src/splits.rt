// Texts that are cut into pieces.
ghost use Rattle.std.specs.Prelude.{◌≡◌, ◌<◌, ◌≤◌, ◌∷◌, [], map, length, None};
ghost use Rattle.op_pieces.specs.Puts.{Puts, word_end as end_of_word};
ghost use Rattle.op_work.specs.Work.{Ends};
ghost use Rattle.py_model.specs.TextMethods.{split_plan, split_by, searched as searched_plan, gives_texts};
ghost use Rattle.py_model.specs.Texts.{is_white as byte_is_white, pieces, words_of, without_white_front};
ghost use Rattle.py_value.specs.Contents.{contents};
ghost use Rattle.py_value.specs.Seen.{bytes_of};
ghost use Rattle.py_value.specs.Values.{AreNamed};

use op_lists::new_list;
use op_texts::{searched, size, text, two_texts};
use op_work::{Exception, Stop, Work};
use py_model::Answer;
use py_value::Value;
use std::alloc::Global;

// A text behind values; its characters count.
fn put_text(work: &mut Work, alloc: Global, made: &mut Vec<Value>, words: &str) -> Result<(), Stop>
    ensures { Puts (words.now ∷ []) made.old.items made.new.items work.old work.new result }
{
    work.count(size(words))?;
    let number = work.number(alloc, words)?;
    made.push(Value::Text(number))?;
    Ok(())
}

// The pieces between a separator, behind values.
fn put_between(
    work: &mut Work,
    alloc: Global,
    made: &mut Vec<Value>,
    bytes: &str,
    separator: &str,
) -> Result<(), Stop>
    requires { 0 < length separator.now }
    ensures { Puts (pieces separator.now bytes.now) made.old.items made.new.items work.old work.new result }
{
    let mut rest = bytes;
    while let Some((front, back)) = rest.split_once(separator) {
        put_text(work, alloc, made, front)?;
        rest = back;
    }
    put_text(work, alloc, made, rest)
}

// Whether a byte is white space.
fn is_white(byte: u8) -> bool
    ensures { result ≡ byte_is_white byte }
{
    byte == 32 || (9 <= byte && byte <= 13)
}

// The text without the white space at its start.
fn without_front(text: &str) -> &str
    ensures { result.now ≡ without_white_front text.now }
{
    let mut rest = text;
    while !rest.is_empty() && is_white(rest.as_bytes()[0]) {
        rest = &rest[1..];
    }
    rest
}

// How many bytes stand before the first white space.
fn word_end(bytes: &[u8]) -> usize
    ensures end { result ≡ end_of_word bytes.now }
    ensures within { result ≤ length bytes.now }
{
    for i in 0..bytes.len() {
        if is_white(bytes[i]) {
            return i;
        }
    }
    bytes.len()
}

// The words between white space, behind values.
fn put_words_of(
    work: &mut Work,
    alloc: Global,
    made: &mut Vec<Value>,
    bytes: &str,
) -> Result<(), Stop>
    ensures { Puts (words_of bytes.now) made.old.items made.new.items work.old work.new result }
{
    let mut rest = without_front(bytes);
    while !rest.is_empty() {
        let end = word_end(rest.as_bytes());
        put_text(work, alloc, made, &rest[..end])?;
        rest = without_front(&rest[end..]);
    }
    Ok(())
}

// The pieces of a text between another, by their numbers.
fn split_between(work: &mut Work, alloc: Global, id: u32, separator: u32) -> Result<Answer, Stop>
    requires text { id < length work.old.values.texts }
    requires separator { separator < length work.old.values.texts }
    requires fresh { work.old.made ≡ None }
    ensures { Ends (λ table. split_by (bytes_of table id) (bytes_of table separator)) work.old work.new result }
{
    let words = String::from_str(alloc, work.text_of(id))?;
    let piece = String::from_str(alloc, work.text_of(separator))?;
    if piece.as_str().is_empty() {
        return Err(work.fault(alloc, Exception::ValueError, "empty or zero"));
    }
    searched(work, id)?;
    let mut made = Vec::new(alloc);
    put_between(work, alloc, &mut made, words.as_str(), piece.as_str())?;
    new_list(work, made.as_slice())
}

// The words of a text, by its number.
fn split_words(work: &mut Work, alloc: Global, id: u32) -> Result<Answer, Stop>
    requires text { id < length work.old.values.texts }
    requires fresh { work.old.made ≡ None }
    ensures { Ends (λ table. searched_plan (bytes_of table id) (gives_texts (words_of (bytes_of table id)))) work.old work.new result }
{
    let words = String::from_str(alloc, work.text_of(id))?;
    searched(work, id)?;
    let mut made = Vec::new(alloc);
    put_words_of(work, alloc, &mut made, words.as_str())?;
    new_list(work, made.as_slice())
}

/// `split` (94): a list of the words of a text, or of its pieces between another text, which is not empty.
pub fn split(work: &mut Work, alloc: Global, operands: &[Value]) -> Result<Answer, Stop>
    requires named { AreNamed work.old.values operands.now }
    requires fresh { work.old.made ≡ None }
    ensures { Ends (λ table. split_plan (map (contents table) operands.now)) work.old work.new result }
{
    if operands.len() == 1 {
        let id = text(work, alloc, operands[0])?;
        return split_words(work, alloc, id);
    }
    let (id, separator) = two_texts(work, alloc, operands)?;
    split_between(work, alloc, id, separator)
}
