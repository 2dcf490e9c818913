// A character of a text, and the answer that counts it.
ghost use Rattle.std.specs.Prelude.{◌≡◌, None, [], chars, slice_get, encode_utf8, unwrap_or};
ghost use Rattle.std.specs.Option.{option_map};
ghost use Rattle.op_work.specs.Work.{Ends};
ghost use Rattle.py_model.specs.Operands.{gives};
ghost use Rattle.py_model.specs.Plan.{counts};
ghost use Rattle.py_value.specs.Contents.{text as text_contents};

use op_numbers::value_answer;
use op_work::{Stop, Work};
use py_model::Answer;
use std::alloc::Global;

/// The character at a place, where there is one.
pub(crate) fn letter_at(text: &str, p: u64) -> Option<char>
    ensures { result ≡ slice_get (chars text.now) p }
{
    let mut left = p;
    for c in text.chars() {
        if left == 0 {
            return Some(c);
        }
        left -= 1;
    }
    None
}

// One character is counted, and a text is the answer.
fn counted_text(work: &mut Work, alloc: Global, words: &str) -> Result<Answer, Stop>
    requires { work.old.made ≡ None }
    ensures { Ends (λ table. counts 1 (gives (text_contents words.now))) work.old work.new result }
{
    work.count(1)?;
    let made = work.text(alloc, words)?;
    value_answer(work, made)
}

/// One character is counted, and its text is the answer.
pub(crate) fn letter_answer(
    work: &mut Work,
    alloc: Global,
    letter: Option<char>,
) -> Result<Answer, Stop>
    requires { work.old.made ≡ None }
    ensures { Ends (λ table. counts 1 (gives (text_contents (unwrap_or (option_map encode_utf8 letter) [])))) work.old work.new result }
{
    let mut buffer = [0; 4];
    match letter {
        Some(c) => counted_text(work, alloc, c.encode_utf8(&mut buffer)),
        None => counted_text(work, alloc, ""),
    }
}
