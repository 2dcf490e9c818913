// Arithmetic of numbers.
ghost use Rattle.std.specs.Prelude.{◌≡◌, None, map, ◌+ℤ◌};
ghost use Rattle.op_work.specs.Work.{Ends};
ghost use Rattle.py_model.specs.Arithmetic.{neg_plan, pos_plan, sub_plan, abs_plan};
ghost use Rattle.py_model.specs.Operands.{with_numbers, gives_int};
ghost use Rattle.py_value.specs.Contents.{contents};
ghost use Rattle.py_value.specs.Values.{AreNamed};

use crate::{int_answer, number, one_number, two_numbers};
use op_work::{Stop, Work};
use py_model::Answer;
use py_value::Value;
use std::alloc::Global;

/// `-a` of a number.
pub fn neg(work: &mut Work, alloc: Global, operands: &[Value]) -> Result<Answer, Stop>
    requires named { AreNamed work.old.values operands.now }
    requires fresh { work.old.made ≡ None }
    ensures { Ends (λ table. neg_plan (map (contents table) operands.now)) work.old work.new result }
{
    let i = one_number(work, alloc, operands)?;
    int_answer(work, alloc, i.checked_neg())
}

/// `+a` of a number.
pub fn pos(work: &mut Work, alloc: Global, operands: &[Value]) -> Result<Answer, Stop>
    requires named { AreNamed work.old.values operands.now }
    requires fresh { work.old.made ≡ None }
    ensures { Ends (λ table. pos_plan (map (contents table) operands.now)) work.old work.new result }
{
    let i = one_number(work, alloc, operands)?;
    int_answer(work, alloc, Some(i))
}

/// `abs` of a number: without its sign.
pub fn abs(work: &mut Work, alloc: Global, operands: &[Value]) -> Result<Answer, Stop>
    requires named { AreNamed work.old.values operands.now }
    requires fresh { work.old.made ≡ None }
    ensures { Ends (λ table. abs_plan (map (contents table) operands.now)) work.old work.new result }
{
    let i = one_number(work, alloc, operands)?;
    int_answer(work, alloc, i.checked_abs())
}

/// `a - b` of numbers.
pub fn sub(work: &mut Work, alloc: Global, operands: &[Value]) -> Result<Answer, Stop>
    requires named { AreNamed work.old.values operands.now }
    requires fresh { work.old.made ≡ None }
    ensures { Ends (λ table. sub_plan (map (contents table) operands.now)) work.old work.new result }
{
    let (i, j) = two_numbers(work, alloc, operands)?;
    int_answer(work, alloc, i.checked_sub(j))
}

/// `a + b` of numbers.
pub fn add_numbers(work: &mut Work, alloc: Global, v: Value, w: Value) -> Result<Answer, Stop>
    requires fresh { work.old.made ≡ None }
    ensures { Ends (λ table. with_numbers (contents table v) (contents table w) (λ i j. gives_int (i +ℤ j))) work.old work.new result }
{
    let i = number(work, alloc, v)?;
    let j = number(work, alloc, w)?;
    int_answer(work, alloc, i.checked_add(j))
}
