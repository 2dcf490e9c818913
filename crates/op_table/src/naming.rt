// Names, definitions and statements by their numbers.
ghost use Rattle.std.specs.Prelude.{◌≡◌, None};
ghost use Rattle.op_table.specs.Table.{planned, IsFrom};
ghost use Rattle.op_work.specs.Work.{Ends};
ghost use Rattle.py_model.specs.Told.{IsNamedOp};
ghost use Rattle.py_value.specs.Values.{AreNamed};

use crate::wrapped::{
    do_begin_with, do_bind, do_call_failed, do_class, do_constant, do_def, do_end_with, do_find,
    do_getattr, do_import, do_load, do_matches, do_raise, do_setattr, do_unbind, do_unpack,
    missing,
};
use op_classes::{assertion_failed, make};
use op_items::{iter, next};
use op_numbers::give;
use op_work::{Stop, Work};
use py_model::{Answer, Op};
use py_value::Value;
use std::alloc::Global;

// Attributes and names: 30 to 37.
pub(crate) fn names(
    work: &mut Work,
    alloc: Global,
    op: Op,
    operands: &[Value],
) -> Result<Answer, Stop>
    requires number { IsFrom 30 37 op.no }
    requires op { IsNamedOp work.old.values op }
    requires named { AreNamed work.old.values operands.now }
    requires fresh { work.old.made ≡ None }
    requires unsaid { work.old.note ≡ None }
    ensures { Ends (planned op operands.now) work.old work.new result }
{
    match op.no {
        30 => do_getattr(work, alloc, op, operands),
        31 => do_setattr(work, alloc, op, operands),
        32 => do_find(work, alloc, op, operands),
        33 => do_bind(work, alloc, op, operands),
        34 => do_unbind(work, alloc, op, operands),
        35 => do_unpack(work, alloc, op, operands),
        36 => iter(work, alloc, operands),
        37 => next(work, alloc, operands),
        _ => missing(),
    }
}

// Calls that fail, objects, exceptions and definitions: 38 to 43.
pub(crate) fn definitions(
    work: &mut Work,
    alloc: Global,
    op: Op,
    operands: &[Value],
) -> Result<Answer, Stop>
    requires number { IsFrom 38 43 op.no }
    requires op { IsNamedOp work.old.values op }
    requires named { AreNamed work.old.values operands.now }
    requires fresh { work.old.made ≡ None }
    requires unsaid { work.old.note ≡ None }
    ensures { Ends (planned op operands.now) work.old work.new result }
{
    match op.no {
        38 => do_call_failed(work, alloc, op, operands),
        39 => make(work, alloc, operands),
        40 => do_raise(work, alloc, op, operands),
        41 => do_matches(work, alloc, op, operands),
        42 => do_def(work, alloc, op, operands),
        43 => do_class(work, alloc, op, operands),
        _ => missing(),
    }
}

// Imports, `with`, and assertions: 44 to 47.
pub(crate) fn statements(
    work: &mut Work,
    alloc: Global,
    op: Op,
    operands: &[Value],
) -> Result<Answer, Stop>
    requires number { IsFrom 44 47 op.no }
    requires op { IsNamedOp work.old.values op }
    requires named { AreNamed work.old.values operands.now }
    requires fresh { work.old.made ≡ None }
    requires unsaid { work.old.note ≡ None }
    ensures { Ends (planned op operands.now) work.old work.new result }
{
    match op.no {
        44 => do_import(work, alloc, op, operands),
        45 => do_end_with(work, alloc, op, operands),
        46 => do_begin_with(work, alloc, op, operands),
        47 => assertion_failed(work, alloc, operands),
        _ => missing(),
    }
}

// Constants, loads, and values that are passed on: 0 to 2.
pub(crate) fn constants(
    work: &mut Work,
    alloc: Global,
    op: Op,
    operands: &[Value],
) -> Result<Answer, Stop>
    requires number { IsFrom 0 2 op.no }
    requires op { IsNamedOp work.old.values op }
    requires named { AreNamed work.old.values operands.now }
    requires fresh { work.old.made ≡ None }
    requires unsaid { work.old.note ≡ None }
    ensures { Ends (planned op operands.now) work.old work.new result }
{
    match op.no {
        0 => do_constant(work, alloc, op, operands),
        1 => do_load(work, alloc, op, operands),
        2 => give(work, alloc, operands),
        _ => missing(),
    }
}
