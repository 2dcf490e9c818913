// What operations answer that write nothing.
ghost use Rattle.std.specs.Prelude.{◌≡◌, None, ℤ, SomeIff, FitsSigned};
ghost use Rattle.std.specs.Int.{w64};
ghost use Rattle.op_work.specs.Work.{Ends};
ghost use Rattle.py_model.specs.Operands.{gives, gives_truth, gives_int};
ghost use Rattle.py_value.specs.Contents.{contents};
ghost use Rattle.py_value.specs.Values.{IsNamed};

use op_work::{Exception, Stop, Work};
use py_model::Answer;
use py_value::Value;
use std::alloc::Global;

/// A value.
pub fn value_answer(work: &mut Work, v: Value) -> Result<Answer, Stop>
    requires fresh { work.old.made ≡ None }
    requires named { IsNamed work.old.values v }
    ensures { Ends (λ table. gives (contents table v)) work.old work.new result }
{
    Ok(Answer::Value(v))
}

/// A truth value.
pub fn truth_answer(work: &mut Work, b: bool) -> Result<Answer, Stop>
    requires fresh { work.old.made ≡ None }
    ensures { Ends (λ table. gives_truth b) work.old work.new result }
{
    Ok(Answer::Value(Value::Bool(b)))
}

/// An integer, where it has 64 bits; else OverflowError is raised.
pub fn int_answer(work: &mut Work, alloc: Global, found: Option<i64>) -> Result<Answer, Stop>
    requires fresh { work.old.made ≡ None }
    ensures { (i : ℤ) → SomeIff found (FitsSigned w64 i) i → Ends (λ table. gives_int i) work.old work.new result }
{
    match found {
        Some(i) => Ok(Answer::Value(Value::Int(i))),
        None => Err(work.fault(alloc, Exception::OverflowError, "integer out of range")),
    }
}
