// The number at a place of a range.
ghost use Rattle.std.specs.Prelude.{◌≡◌, None, ℤ, pos, ◌+ℤ◌, ◌*ℤ◌, Some};
ghost use Rattle.op_work.specs.Work.{Ends};
ghost use Rattle.py_model.specs.Lists.{number_at as number_plan};
ghost use Rattle.py_model.specs.Operands.{gives};
ghost use Rattle.py_model.specs.Plan.{looks};

use crate::parts::look_answer;
use op_work::{Stop, Work};
use py_model::Answer;
use py_value::Value;

// The number so many steps from a start on, where it has 64 bits.
fn number_at(start: i64, step: i64, p: u64) -> Option<i64>
    ensures { (n : ℤ) → result ≡ Some n → n ≡ start +ℤ (pos p *ℤ step) }
{
    let far = i128::from(p).checked_mul(i128::from(step))?;
    let number = i128::from(start).checked_add(far)?;
    match i64::try_from(number) {
        Ok(number) => Some(number),
        Err(_) => None,
    }
}

/// The number at a place of a range is looked at, and is the answer. Each number of a range has 64 bits.
pub(crate) fn number_answer(work: &mut Work, start: i64, step: i64, p: u64) -> Result<Answer, Stop>
    requires fresh { work.old.made ≡ None }
    ensures { Ends (λ table. looks 1 (gives (number_plan start step p))) work.old work.new result }
{
    let Some(number) = number_at(start, step, p) else {
        return Err(Stop::Memory);
    };
    look_answer(work, Value::Int(number))
}
