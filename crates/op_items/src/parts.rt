// A part of a tuple, and the answer that looks at it.
ghost use Rattle.std.specs.Prelude.{◌≡◌, None, slice_get};
ghost use Rattle.op_work.specs.Work.{Ends};
ghost use Rattle.py_model.specs.Operands.{gives};
ghost use Rattle.py_model.specs.Plan.{looks};
ghost use Rattle.py_value.specs.Contents.{contents};
ghost use Rattle.py_value.specs.Values.{IsNamed};

use op_numbers::value_answer;
use op_work::{Stop, Work};
use py_model::Answer;
use py_value::Value;

/// The part at a place, where there is one.
pub(crate) fn part_at(parts: &[Value], p: u64) -> Option<Value>
    ensures { result ≡ slice_get parts.now p }
{
    match parts.get(p as usize) {
        Some(part) => Some(*part),
        None => None,
    }
}

/// One item is looked at, and is the answer.
pub(crate) fn look_answer(work: &mut Work, v: Value) -> Result<Answer, Stop>
    requires named { IsNamed work.old.values v }
    requires fresh { work.old.made ≡ None }
    ensures { Ends (λ table. looks 1 (gives (contents table v))) work.old work.new result }
{
    work.look(1)?;
    value_answer(work, v)
}
