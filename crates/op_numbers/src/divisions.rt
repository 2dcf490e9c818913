// Divisions of numbers, rounded to minus infinity.
ghost use Rattle.std.specs.Prelude.{◌≡◌, ◌≢◌, None, map, ℤ, pos, SomeIff, FitsSigned};
ghost use Rattle.std.specs.Int.{w64};
ghost use Rattle.op_work.specs.Work.{Ends};
ghost use Rattle.py_model.specs.Arithmetic.{floor_div_plan, mod_plan};
ghost use Rattle.py_model.specs.Numbers.{floor_div as quotient, floor_mod};
ghost use Rattle.py_value.specs.Contents.{contents};
ghost use Rattle.py_value.specs.Values.{AreNamed};

use crate::{int_answer, two_numbers};
use op_work::{Exception, Stop, Work};
use py_model::Answer;
use py_value::Value;
use std::alloc::Global;

// The quotient, where it has 64 bits.
fn floor_quotient(i: i64, j: i64) -> Option<i64>
    requires { j ≢ pos 0 }
    ensures { SomeIff result (FitsSigned w64 (quotient i j)) (quotient i j) }
{
    if j > 0 {
        i.checked_div_euclid(j)
    } else if i > 0 {
        Some((i - 1) / j - 1)
    } else {
        i.checked_div(j)
    }
}

// The remainder.
fn floor_remainder(i: i64, j: i64) -> i64
    requires { j ≢ pos 0 }
    ensures { result ≡ floor_mod i j }
{
    if j == -1 {
        0
    } else if j > 0 {
        i.rem_euclid(j)
    } else if i > 0 {
        let r = (i - 1) % j;
        r + 1 + j
    } else {
        i % j
    }
}

/// `a // b` of numbers. The divisor 0 raises ZeroDivisionError.
pub fn floor_div(work: &mut Work, alloc: Global, operands: &[Value]) -> Result<Answer, Stop>
    requires named { AreNamed work.old.values operands.now }
    requires fresh { work.old.made ≡ None }
    ensures { Ends (λ table. floor_div_plan (map (contents table) operands.now)) work.old work.new result }
{
    let (i, j) = two_numbers(work, alloc, operands)?;
    if j == 0 {
        return Err(work.fault(alloc, Exception::ZeroDivisionError, "division by zero"));
    }
    int_answer(work, alloc, floor_quotient(i, j))
}

/// `a % b` of numbers, with the sign of the divisor. The divisor 0 raises ZeroDivisionError.
pub fn remainder(work: &mut Work, alloc: Global, operands: &[Value]) -> Result<Answer, Stop>
    requires named { AreNamed work.old.values operands.now }
    requires fresh { work.old.made ≡ None }
    ensures { Ends (λ table. mod_plan (map (contents table) operands.now)) work.old work.new result }
{
    let (i, j) = two_numbers(work, alloc, operands)?;
    if j == 0 {
        return Err(work.fault(alloc, Exception::ZeroDivisionError, "division by zero"));
    }
    int_answer(work, alloc, Some(floor_remainder(i, j)))
}
