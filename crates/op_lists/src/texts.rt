// The walk of a text: its characters, each as a text.
ghost use Rattle.std.specs.Prelude.{◌<◌, length, map, encode_utf8, List};
ghost use Rattle.op_lists.specs.ValuesSeen.{values_seen};
ghost use Rattle.op_work.specs.Work.{Comes};
ghost use Rattle.py_model.specs.Plan.{Plan};
ghost use Rattle.py_model.specs.Walks.{walk};
ghost use Rattle.py_value.specs.Contents.{Contents, contents, text as text_contents};
ghost use Rattle.py_value.specs.Values.{IsNamed, AreNamed};
ghost use Rattle.py_value.specs.declared.value.Value.TheVariants.{Text};

use crate::letters::{letter_count, letters};
use op_work::{Stop, Work};
use py_value::Value;
use std::alloc::Global;

// The text of one character.
fn letter_text(work: &mut Work, alloc: Global, letter: char) -> Result<Value, Stop>
    ensures { Comes IsNamed contents (λ table (go : Contents → Plan). go (text_contents (encode_utf8 letter))) work.old work.new result }
{
    let mut buffer = [0; 4];
    work.text(alloc, letter.encode_utf8(&mut buffer))
}

// The texts of characters.
fn letter_texts(work: &mut Work, alloc: Global, letters: &[char]) -> Result<Vec<Value>, Stop>
    ensures { Comes (λ values vs. AreNamed values vs.items) (λ table vs. values_seen table vs.items) (λ table (go : List Contents → Plan). go (map text_contents (map encode_utf8 letters.now))) work.old work.new result }
{
    let mut items = Vec::new(alloc);
    for letter in letters {
        let item = letter_text(work, alloc, *letter)?;
        items.push(item)?;
    }
    Ok(items)
}

/// The characters of a text, each as a text. They are counted before any is built.
pub fn walk_text(work: &mut Work, alloc: Global, id: u32) -> Result<Vec<Value>, Stop>
    requires { id < length work.old.values.texts }
    ensures { Comes (λ values vs. AreNamed values vs.items) (λ table vs. values_seen table vs.items) (λ table. walk (contents table (Text id))) work.old work.new result }
{
    work.count(letter_count(work.text_of(id)))?;
    let all = letters(alloc, work.text_of(id))?;
    letter_texts(work, alloc, &all)
}
