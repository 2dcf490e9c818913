// Texts and tuples that are repeated. What they cost is paid before they are built.
ghost use Rattle.std.specs.Prelude.{◌≡◌, ◌<◌, None, IfOk, length, string_bytes};
ghost use Rattle.op_work.specs.Work.{Ends};
ghost use Rattle.py_model.specs.Arithmetic.{repeated, repeats};
ghost use Rattle.py_model.specs.Operands.{gives_text};
ghost use Rattle.py_value.specs.Contents.{contents};
ghost use Rattle.py_value.specs.Seen.{bytes_of};
ghost use Rattle.py_value.specs.declared.value.Value.TheVariants.{Tuple};

use op_numbers::value_answer;
use op_texts::size;
use op_work::{Stop, Work};
use prov_base::Memory;
use py_model::Answer;
use py_value::{Value, tuples_are_their_parts};
use std::alloc::{AllocError, Global};

// A text so many times. Nothing is repeated where it is empty.
fn text_times(alloc: Global, text: &str, n: u64) -> Result<String, AllocError>
    ensures { IfOk result (λ made. string_bytes made ≡ repeated n text.now) }
{
    let mut made = String::new(alloc);
    if text.is_empty() {
        return Ok(made);
    }
    for _ in 0..n {
        made.push_str(text)?;
    }
    Ok(made)
}

/// A text so many times: its characters count.
pub fn repeat_text(work: &mut Work, alloc: Global, id: u32, n: u64) -> Result<Answer, Stop>
    requires named { id < length work.old.values.texts }
    requires fresh { work.old.made ≡ None }
    ensures { Ends (λ table. gives_text (repeated n (bytes_of table id))) work.old work.new result }
{
    let Some(count) = size(work.text_of(id)).checked_mul(n) else {
        return Err(Stop::Memory);
    };
    work.count(count)?;
    let words = text_times(alloc, work.text_of(id), n)?;
    let made = work.text(alloc, words.as_str())?;
    value_answer(work, made)
}

// Values so many times. Nothing is repeated where there are none.
fn items_times(alloc: Global, items: &[Value], n: u64) -> Result<Vec<Value>, Memory>
    ensures { IfOk result (λ vs. vs.items ≡ repeated n items.now) }
{
    let mut made = Vec::new(alloc);
    if items.is_empty() {
        return Ok(made);
    }
    for _ in 0..n {
        made.extend_from_slice(items)?;
    }
    Ok(made)
}

/// A tuple so many times: each item of the new tuple is looked at.
pub fn repeat_tuple(work: &mut Work, alloc: Global, id: u32, n: u64) -> Result<Answer, Stop>
    requires named { id < length work.old.values.tuples }
    requires fresh { work.old.made ≡ None }
    ensures { Ends (λ table. repeats (contents table (Tuple id)) n) work.old work.new result }
{
    tuples_are_their_parts();
    let Some(count) = (work.tuple_of(id).len() as u64).checked_mul(n) else {
        return Err(Stop::Memory);
    };
    work.look(count)?;
    let items = items_times(alloc, work.tuple_of(id), n)?;
    let made = work.tuple(alloc, items.as_slice())?;
    value_answer(work, made)
}
