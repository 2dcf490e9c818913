// A text is sought in a text.
ghost use Rattle.std.specs.Prelude.{◌≡◌, ◌<◌, length, is_some};
ghost use Rattle.op_work.specs.Work.{Comes, is_any, as_is};
ghost use Rattle.py_model.specs.Arithmetic.{contained as contained_plan};
ghost use Rattle.py_model.specs.Texts.{begins_with as text_begins, place_of as text_place};
ghost use Rattle.py_value.specs.Contents.{contents};
ghost use Rattle.py_value.specs.Values.{IsNamed};
ghost use Rattle.py_value.specs.declared.value.Value.TheVariants.{Text};

use op_numbers::text_number;
use op_texts::size;
use op_work::{Stop, Work};
use py_value::Value;
use std::alloc::Global;

// Whether bytes begin with others.
fn begins_with(bytes: &[u8], first: &[u8]) -> bool
    ensures { result ≡ text_begins bytes.now first.now }
{
    bytes.starts_with(first)
}

// How many bytes stand before others, where these stand first.
fn place_of(bytes: &[u8], sought: &[u8]) -> Option<usize>
    ensures { result ≡ text_place bytes.now sought.now }
{
    for at in 0..bytes.len() {
        if begins_with(&bytes[at..], sought) {
            return Some(at);
        }
    }
    if sought.is_empty() {
        Some(bytes.len())
    } else {
        None
    }
}

// Whether a text stands somewhere in another.
fn stands_in(text: &str, sought: &str) -> bool
    ensures { result ≡ is_some (text_place text.now sought.now) }
{
    place_of(text.as_bytes(), sought.as_bytes()).is_some()
}

// Whether a value, which is a text, is in a text: the characters of that one count.
pub(crate) fn in_text(work: &mut Work, alloc: Global, v: Value, id: u32) -> Result<bool, Stop>
    requires within { id < length work.old.values.texts }
    requires named { IsNamed work.old.values v }
    ensures { Comes is_any as_is (λ table. contained_plan (contents table v) (contents table (Text id))) work.old work.new result }
{
    let sought = text_number(work, alloc, v)?;
    work.count(size(work.text_of(id)))?;
    Ok(stands_in(work.text_of(id), work.text_of(sought)))
}
