// Constants and values that are passed on.
ghost use Rattle.std.specs.Prelude.{◌≡◌, None, map};
ghost use Rattle.op_work.specs.Work.{Ends};
ghost use Rattle.py_model.specs.Names.{const as const_plan, give as give_plan};
ghost use Rattle.py_model.specs.Operands.{of_one};
ghost use Rattle.py_model.specs.Operations.{of_none};
ghost use Rattle.py_value.specs.Contents.{contents};
ghost use Rattle.py_value.specs.Values.{IsNamed, AreNamed};

use crate::{one, value_answer};
use op_work::{Exception, Stop, Work};
use py_model::Answer;
use py_value::Value;
use std::alloc::Global;

/// A constant, of an operation with no operands.
pub fn constant(
    work: &mut Work,
    alloc: Global,
    v: Value,
    operands: &[Value],
) -> Result<Answer, Stop>
    requires named { IsNamed work.old.values v }
    requires fresh { work.old.made ≡ None }
    ensures { Ends (λ table. of_none (const_plan (contents table v)) (map (contents table) operands.now)) work.old work.new result }
{
    if operands.len() != 0 {
        return Err(work.fault(alloc, Exception::TypeError, "wrong number of arguments"));
    }
    Ok(Answer::Value(v))
}

/// The operand is passed on.
pub fn give(work: &mut Work, alloc: Global, operands: &[Value]) -> Result<Answer, Stop>
    requires named { AreNamed work.old.values operands.now }
    requires fresh { work.old.made ≡ None }
    ensures { Ends (λ table. of_one give_plan (map (contents table) operands.now)) work.old work.new result }
{
    let v = one(work, alloc, operands)?;
    value_answer(work, v)
}
