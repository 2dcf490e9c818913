// What operands are taken as.
ghost use Rattle.std.specs.Prelude.{◌≡◌, map};
ghost use Rattle.op_texts.specs.Operands.{IsText, one_value, two_values, text_of_value, with_one_text, with_two_texts, IsTwoTexts, bytes_of_two};
ghost use Rattle.op_work.specs.Work.{Comes};
ghost use Rattle.py_model.specs.Operands.{with_text};
ghost use Rattle.py_value.specs.Contents.{contents};
ghost use Rattle.py_value.specs.Seen.{bytes_of};
ghost use Rattle.py_value.specs.Values.{IsNamed, AreNamed};

use op_work::{Exception, Stop, Work};
use py_value::Value;
use std::alloc::Global;

// The operand, where there is one.
fn one(operands: &[Value]) -> Option<Value>
    ensures { result ≡ one_value operands.now }
{
    match operands {
        [v] => Some(*v),
        _ => None,
    }
}

// The operands, where there are two.
pub(crate) fn two(operands: &[Value]) -> Option<(Value, Value)>
    ensures { result ≡ two_values operands.now }
{
    match operands {
        [v, w] => Some((*v, *w)),
        _ => None,
    }
}

// The number of the text that a value is.
fn text_number(v: Value) -> Option<u32>
    ensures { result ≡ text_of_value v }
{
    match v {
        Value::Text(id) => Some(id),
        _ => None,
    }
}

/// The number of the text that a value is.
pub fn text(work: &mut Work, alloc: Global, v: Value) -> Result<u32, Stop>
    requires { IsNamed work.old.values v }
    ensures { Comes IsText bytes_of (λ table. with_text (contents table v)) work.old work.new result }
{
    match text_number(v) {
        Some(id) => Ok(id),
        None => Err(work.fault(alloc, Exception::TypeError, "wrong kind of value")),
    }
}

/// The number of the text that the operand is, which is the only one.
pub fn one_text(work: &mut Work, alloc: Global, operands: &[Value]) -> Result<u32, Stop>
    requires { AreNamed work.old.values operands.now }
    ensures { Comes IsText bytes_of (λ table. with_one_text (map (contents table) operands.now)) work.old work.new result }
{
    let Some(v) = one(operands) else {
        return Err(work.fault(alloc, Exception::TypeError, "wrong number of arguments"));
    };
    text(work, alloc, v)
}

/// The numbers of the texts that the operands are, which are two.
pub fn two_texts(work: &mut Work, alloc: Global, operands: &[Value]) -> Result<(u32, u32), Stop>
    requires { AreNamed work.old.values operands.now }
    ensures { Comes IsTwoTexts bytes_of_two (λ table. with_two_texts (map (contents table) operands.now)) work.old work.new result }
{
    let Some((v, w)) = two(operands) else {
        return Err(work.fault(alloc, Exception::TypeError, "wrong number of arguments"));
    };
    let first = text(work, alloc, v)?;
    let second = text(work, alloc, w)?;
    Ok((first, second))
}
