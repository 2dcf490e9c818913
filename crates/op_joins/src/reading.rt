// `int` of a number or a text.
ghost use Rattle.std.specs.Prelude.{◌≡◌, ◌<◌, None, map, length};
ghost use Rattle.op_joins.specs.Written.{as_written};
ghost use Rattle.op_texts.specs.Operands.{text_of_value};
ghost use Rattle.op_work.specs.Work.{Ends};
ghost use Rattle.py_model.specs.Arithmetic.{int_plan};
ghost use Rattle.py_model.specs.Operands.{with_number, gives_int};
ghost use Rattle.py_model.specs.Texts.{int_written};
ghost use Rattle.py_value.specs.Contents.{contents};
ghost use Rattle.py_value.specs.Seen.{bytes_of};
ghost use Rattle.py_value.specs.Values.{AreNamed};

use crate::integers::{behind_sign, is_negative, signed_value, trimmed};
use op_numbers::{int_answer, number, one};
use op_texts::all_digits;
use op_work::{Exception, Stop, Work};
use py_model::Answer;
use py_value::Value;
use std::alloc::Global;

// The number of a text, where the value is one.
fn text_in(v: Value) -> Option<u32>
    ensures { result ≡ text_of_value v }
{
    match v {
        Value::Text(id) => Some(id),
        _ => None,
    }
}

// The integer that a text writes. A text that writes none raises ValueError.
fn int_of_text(work: &mut Work, alloc: Global, id: u32) -> Result<Answer, Stop>
    requires named { id < length work.old.values.texts }
    requires fresh { work.old.made ≡ None }
    ensures { Ends (λ table. as_written (int_written (bytes_of table id))) work.old work.new result }
{
    let word = trimmed(work.text_of(id).as_bytes());
    let digits = behind_sign(word);
    let found = signed_value(is_negative(word), digits);
    if !all_digits(digits) {
        return Err(work.fault(alloc, Exception::ValueError, "not an integer"));
    }
    int_answer(work, alloc, found)
}

// The integer that a number is.
fn int_of_number(work: &mut Work, alloc: Global, v: Value) -> Result<Answer, Stop>
    requires fresh { work.old.made ≡ None }
    ensures { Ends (λ table. with_number (contents table v) gives_int) work.old work.new result }
{
    let i = number(work, alloc, v)?;
    int_answer(work, alloc, Some(i))
}

/// `int(v)` (56): the integer that a number is or a text writes.
pub fn int(work: &mut Work, alloc: Global, operands: &[Value]) -> Result<Answer, Stop>
    requires named { AreNamed work.old.values operands.now }
    requires fresh { work.old.made ≡ None }
    ensures { Ends (λ table. int_plan (map (contents table) operands.now)) work.old work.new result }
{
    let v = one(work, alloc, operands)?;
    match text_in(v) {
        Some(id) => int_of_text(work, alloc, id),
        None => int_of_number(work, alloc, v),
    }
}
