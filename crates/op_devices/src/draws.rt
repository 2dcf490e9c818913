// Random numbers.
ghost use Rattle.std.specs.Prelude.{◌≡◌, ◌<◌, ◌^◌, ◌+ℤ◌, ◌≤ℤ◌, pos, None, Some, map, option_copied};
ghost use Rattle.answer_source.specs.Sources.{given_seen};
ghost use Rattle.capture.specs.declared.answer.Ask.TheVariants.{Word};
ghost use Rattle.op_devices.specs.Asking.{Known, answered_by};
ghost use Rattle.op_devices.specs.Draws.{word_given};
ghost use Rattle.op_devices.specs.Given.{asks, IsGiven};
ghost use Rattle.op_work.specs.Work.{Ends};
ghost use Rattle.py_model.specs.Files.{drawn as drawn_plan, randint_plan, randrange_plan};
ghost use Rattle.py_value.specs.Contents.{contents};
ghost use Rattle.py_value.specs.Values.{AreNamed};

use crate::numbers::{below, between, number_drawn};
use capture::Given;
use op_work::{Exception, Stop, Work};
use py_model::Answer;
use py_value::{Value, number_of};
use std::alloc::Global;

// The number that the given word draws.
fn word_answer(
    work: &mut Work,
    alloc: Global,
    start: i64,
    many: u128,
    given: &Given,
) -> Result<Answer, Stop>
    requires some { 0 < many }
    requires within { (start +ℤ pos many) ≤ℤ pos (2 ^ 63) }
    requires fresh { work.old.made ≡ None }
    ensures { Ends (λ table. word_given start many (given_seen given.now)) work.old work.new result }
{
    match given {
        Given::Word(word) => Ok(Answer::Value(Value::Int(number_drawn(start, many, *word)))),
        Given::Number(_) => Err(work.fault(alloc, Exception::OSError, "device failed")),
        Given::Line(_) => Err(work.fault(alloc, Exception::OSError, "device failed")),
        Given::End => Err(work.fault(alloc, Exception::OSError, "device failed")),
        Given::Failed => Err(work.fault(alloc, Exception::OSError, "device failed")),
    }
}

// A number is drawn, from a start on, one of so many.
fn drawn(
    work: &mut Work,
    alloc: Global,
    start: i64,
    many: u128,
    given: Option<&Given>,
) -> Result<Answer, Stop>
    requires some { 0 < many }
    requires within { (start +ℤ pos many) ≤ℤ pos (2 ^ 63) }
    requires fresh { work.old.made ≡ None }
    ensures { (k : Known) → IsGiven k (Some Word) (option_copied given.entry) → Ends (λ table. answered_by k (drawn_plan start many)) work.old work.new result }
{
    let Some(given) = given else {
        return Err(Stop::Memory);
    };
    word_answer(work, alloc, start, many, given)
}

/// `random.randint(a, b)` (110): a number from a to b, both included, by the word that was given.
pub fn randint(
    work: &mut Work,
    alloc: Global,
    operands: &[Value],
    given: Option<&Given>,
) -> Result<Answer, Stop>
    requires named { AreNamed work.old.values operands.now }
    requires fresh { work.old.made ≡ None }
    ensures { (k : Known) → IsGiven k (asks 110 operands.now) (option_copied given.entry) → Ends (λ table. answered_by k (randint_plan (map (contents table) operands.now))) work.old work.new result }
{
    if operands.len() != 3 {
        return Err(work.fault(alloc, Exception::TypeError, "wrong number of arguments"));
    }
    let Some(low) = number_of(operands[1]) else {
        return Err(work.fault(alloc, Exception::TypeError, "wrong kind of value"));
    };
    let Some(high) = number_of(operands[2]) else {
        return Err(work.fault(alloc, Exception::TypeError, "wrong kind of value"));
    };
    let Some(many) = between(low, high) else {
        return Err(work.fault(alloc, Exception::ValueError, "empty or zero"));
    };
    drawn(work, alloc, low, many, given)
}

/// `random.randrange(n)` (111): a number from 0 to n - 1, by the word that was given.
pub fn randrange(
    work: &mut Work,
    alloc: Global,
    operands: &[Value],
    given: Option<&Given>,
) -> Result<Answer, Stop>
    requires named { AreNamed work.old.values operands.now }
    requires fresh { work.old.made ≡ None }
    ensures { (k : Known) → IsGiven k (asks 111 operands.now) (option_copied given.entry) → Ends (λ table. answered_by k (randrange_plan (map (contents table) operands.now))) work.old work.new result }
{
    if operands.len() != 2 {
        return Err(work.fault(alloc, Exception::TypeError, "wrong number of arguments"));
    }
    let Some(bound) = number_of(operands[1]) else {
        return Err(work.fault(alloc, Exception::TypeError, "wrong kind of value"));
    };
    let Some(many) = below(bound) else {
        return Err(work.fault(alloc, Exception::ValueError, "empty or zero"));
    };
    drawn(work, alloc, 0, many, given)
}
