// The sum of the items of a sequence.
ghost use Rattle.std.specs.Prelude.{◌≡◌, None, map, pos};
ghost use Rattle.op_joins.specs.Summed.{number_value, number_or_zero as zero_or_number, all_numbers, sum_found};
ghost use Rattle.op_work.specs.Work.{Ends};
ghost use Rattle.py_model.specs.Arithmetic.{sum_plan};
ghost use Rattle.py_value.specs.Contents.{contents};
ghost use Rattle.py_value.specs.Values.{AreNamed};

use op_lists::walk_value;
use op_numbers::{one, value_answer};
use op_work::{Exception, Stop, Work};
use py_model::Answer;
use py_value::Value;
use std::alloc::Global;

// Whether a value is a number.
fn is_number(v: Value) -> bool
    ensures { result ≡ number_value v }
{
    match v {
        Value::Int(_) => true,
        Value::Bool(_) => true,
        _ => false,
    }
}

// Whether all values are numbers.
fn are_numbers(items: &[Value]) -> bool
    ensures { result ≡ all_numbers items.now }
{
    for item in items {
        if !is_number(*item) {
            return false;
        }
    }
    true
}

// The number that a value is, or 0.
fn number_or_zero(v: Value) -> i64
    ensures { result ≡ zero_or_number v }
{
    match v {
        Value::Int(i) => i,
        Value::Bool(true) => 1,
        _ => 0,
    }
}

// The sum of the numbers among values, where each partial sum has 64 bits.
fn sum_of(items: &[Value]) -> Option<i64>
    ensures { result ≡ sum_found (pos 0) items.now }
{
    let mut so_far: i64 = 0;
    for item in items {
        let Some(next) = so_far.checked_add(number_or_zero(*item)) else {
            return None;
        };
        so_far = next;
    }
    Some(so_far)
}

/// `sum(v)` (69): the sum of the items of a sequence, which is walked.
pub fn sum(work: &mut Work, alloc: Global, operands: &[Value]) -> Result<Answer, Stop>
    requires named { AreNamed work.old.values operands.now }
    requires fresh { work.old.made ≡ None }
    ensures { Ends (λ table. sum_plan (map (contents table) operands.now)) work.old work.new result }
{
    let sequence = one(work, alloc, operands)?;
    let items = walk_value(work, alloc, sequence)?;
    if !are_numbers(items.as_slice()) {
        return Err(work.fault(alloc, Exception::TypeError, "wrong kind of value"));
    }
    match sum_of(items.as_slice()) {
        Some(i) => value_answer(work, Value::Int(i)),
        None => Err(work.fault(alloc, Exception::OverflowError, "integer out of range")),
    }
}
