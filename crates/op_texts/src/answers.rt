// What operations on texts answer.
ghost use Rattle.std.specs.Prelude.{◌≡◌, ◌<◌, length, None};
ghost use Rattle.op_work.specs.Work.{Comes, Ends, is_any, as_is};
ghost use Rattle.py_model.specs.Operands.{gives_text as text_plan};
ghost use Rattle.py_model.specs.Plan.{Plan, counts};
ghost use Rattle.py_model.specs.TextMethods.{searched as searched_plan};
ghost use Rattle.py_model.specs.Texts.{size as text_size};
ghost use Rattle.py_value.specs.Seen.{bytes_of};

use crate::size;
use op_work::{Stop, Work};
use py_model::Answer;
use std::alloc::Global;

/// A text that is made: its characters count.
pub fn gives_text(work: &mut Work, alloc: Global, words: &str) -> Result<Answer, Stop>
    requires { work.old.made ≡ None }
    ensures { Ends (λ table. text_plan words.now) work.old work.new result }
{
    work.count(size(words))?;
    let made = work.text(alloc, words)?;
    Ok(Answer::Value(made))
}

/// The characters of a text that is searched or stripped count.
pub fn searched(work: &mut Work, text: u32) -> Result<(), Stop>
    requires { text < length work.old.values.texts }
    ensures { Comes is_any as_is (λ table (go : Unit {0} → Plan). searched_plan (bytes_of table text) (go tt)) work.old work.new result }
{
    let count = size(work.text_of(text));
    work.count(count)
}
