// The time.
ghost use Rattle.std.specs.Prelude.{◌≡◌, None, map, option_copied};
ghost use Rattle.answer_source.specs.Sources.{given_seen};
ghost use Rattle.op_devices.specs.Asking.{Known, answered_by};
ghost use Rattle.op_devices.specs.Given.{asks, time_given, IsGiven};
ghost use Rattle.op_work.specs.Work.{Ends};
ghost use Rattle.py_model.specs.Files.{time_ns_plan};
ghost use Rattle.py_value.specs.Contents.{contents};
ghost use Rattle.py_value.specs.Values.{AreNamed};

use capture::Given;
use op_work::{Exception, Stop, Work};
use py_model::Answer;
use py_value::Value;
use std::alloc::Global;

// The time that was given.
fn time_answer(work: &mut Work, alloc: Global, given: &Given) -> Result<Answer, Stop>
    requires fresh { work.old.made ≡ None }
    ensures { Ends (λ table. time_given (given_seen given.now)) work.old work.new result }
{
    match given {
        Given::Number(i) => Ok(Answer::Value(Value::Int(*i))),
        Given::Word(_) => Err(work.fault(alloc, Exception::OSError, "device failed")),
        Given::Line(_) => Err(work.fault(alloc, Exception::OSError, "device failed")),
        Given::End => Err(work.fault(alloc, Exception::OSError, "device failed")),
        Given::Failed => Err(work.fault(alloc, Exception::OSError, "device failed")),
    }
}

/// `time.time_ns()` (109): the time in nanoseconds that was given.
pub fn time_ns(
    work: &mut Work,
    alloc: Global,
    operands: &[Value],
    given: Option<&Given>,
) -> Result<Answer, Stop>
    requires named { AreNamed work.old.values operands.now }
    requires fresh { work.old.made ≡ None }
    ensures { (k : Known) → IsGiven k (asks 109 operands.now) (option_copied given.entry) → Ends (λ table. answered_by k (time_ns_plan (map (contents table) operands.now))) work.old work.new result }
{
    if operands.len() != 1 {
        return Err(work.fault(alloc, Exception::TypeError, "wrong number of arguments"));
    }
    let Some(given) = given else {
        return Err(Stop::Memory);
    };
    time_answer(work, alloc, given)
}
