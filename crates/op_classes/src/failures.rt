// Calls that fail.
ghost use Rattle.std.specs.Prelude.{Err};
ghost use Rattle.op_work.specs.Work.{Ends};
ghost use Rattle.py_model.specs.Raising.{call_failed as plan_failed};
ghost use Rattle.py_value.specs.Contents.{contents};

use crate::kinds::reason_of;
use op_work::{Exception, Stop, Work};
use py_value::Value;
use std::alloc::Global;

/// What a failing call raises (operation 38), by its reason: 0, what was called is not callable; 1, the number of arguments is wrong; else
/// there is one activation too many.
pub fn call_failed(work: &mut Work, alloc: Global, reason: Value) -> Stop
    ensures { Ends (λ table. plan_failed (contents table reason)) work.old work.new (Err result) }
{
    let number = reason_of(reason);
    if number == 0 {
        return work.fault(alloc, Exception::TypeError, "not callable");
    }
    if number == 1 {
        return work.fault(alloc, Exception::TypeError, "wrong number of arguments");
    }
    work.fault(alloc, Exception::RecursionError, "nested too deep")
}
