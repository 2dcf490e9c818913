// Operations whose operands are one value, two or none, and those that name something.
ghost use Rattle.std.specs.Prelude.{◌≡◌, None, map, Err};
ghost use Rattle.op_table.specs.Operands.{silent_value, targets_value};
ghost use Rattle.op_table.specs.Table.{planned};
ghost use Rattle.op_work.specs.Work.{Comes, Ends, is_any, as_is};
ghost use Rattle.op_work.specs.declared.stop.Stop.TheVariants.{Memory as NoMemory};
ghost use Rattle.py_model.specs.Operations.{of_none};
ghost use Rattle.py_model.specs.Plan.{Plan};
ghost use Rattle.py_model.specs.Told.{IsNamedOp};
ghost use Rattle.py_value.specs.Contents.{contents};
ghost use Rattle.py_value.specs.Values.{AreNamed};

use op_attributes::{find, getattr, setattr};
use op_classes::{
    begin_with, bind, call_failed, class, def, end_with, import_module, isinstance, load, matches,
    raise, unbind,
};
use op_items::unpack;
use op_numbers::{constant, one, two};
use op_work::{Exception, Stop, Work};
use py_model::{Answer, Op};
use py_value::Value;
use std::alloc::Global;

// No operand is there.
fn none(work: &mut Work, alloc: Global, operands: &[Value]) -> Result<(), Stop>
    ensures { Comes is_any as_is (λ table (go : Unit {0} → Plan). of_none (go tt) (map (contents table) operands.now)) work.old work.new result }
{
    if operands.len() != 0 {
        return Err(work.fault(alloc, Exception::TypeError, "wrong number of arguments"));
    }
    Ok(())
}

// Whether a name is unset at the end of an `except`.
fn silent(v: Value) -> bool
    ensures { result ≡ silent_value v }
{
    match v {
        Value::Bool(b) => b,
        _ => false,
    }
}

// How many targets there are.
fn targets(v: Value) -> u64
    ensures { result ≡ targets_value v }
{
    match v {
        Value::Int(i) => u64::try_from(i).unwrap_or(0),
        _ => 0,
    }
}

// A number that is another function's.
pub(crate) fn missing() -> Result<Answer, Stop>
    ensures { result ≡ Err NoMemory }
{
    Err(Stop::Memory)
}

// Gets an attribute (30).
pub(crate) fn do_getattr(
    work: &mut Work,
    alloc: Global,
    op: Op,
    operands: &[Value],
) -> Result<Answer, Stop>
    requires number { op.no ≡ 30 }
    requires op { IsNamedOp work.old.values op }
    requires named { AreNamed work.old.values operands.now }
    requires fresh { work.old.made ≡ None }
    requires unsaid { work.old.note ≡ None }
    ensures { Ends (planned op operands.now) work.old work.new result }
{
    let v = one(work, alloc, operands)?;
    getattr(work, alloc, op.name, v)
}

// Sets an attribute (31).
pub(crate) fn do_setattr(
    work: &mut Work,
    alloc: Global,
    op: Op,
    operands: &[Value],
) -> Result<Answer, Stop>
    requires number { op.no ≡ 31 }
    requires op { IsNamedOp work.old.values op }
    requires named { AreNamed work.old.values operands.now }
    requires fresh { work.old.made ≡ None }
    requires unsaid { work.old.note ≡ None }
    ensures { Ends (planned op operands.now) work.old work.new result }
{
    let (v, w) = two(work, alloc, operands)?;
    setattr(work, alloc, op.name, v, w)
}

// Finds what is called (32).
pub(crate) fn do_find(
    work: &mut Work,
    alloc: Global,
    op: Op,
    operands: &[Value],
) -> Result<Answer, Stop>
    requires number { op.no ≡ 32 }
    requires op { IsNamedOp work.old.values op }
    requires named { AreNamed work.old.values operands.now }
    requires fresh { work.old.made ≡ None }
    requires unsaid { work.old.note ≡ None }
    ensures { Ends (planned op operands.now) work.old work.new result }
{
    let v = one(work, alloc, operands)?;
    find(work, alloc, op.name, v)
}

// Binds a name (33).
pub(crate) fn do_bind(
    work: &mut Work,
    alloc: Global,
    op: Op,
    operands: &[Value],
) -> Result<Answer, Stop>
    requires number { op.no ≡ 33 }
    requires op { IsNamedOp work.old.values op }
    requires named { AreNamed work.old.values operands.now }
    requires fresh { work.old.made ≡ None }
    requires unsaid { work.old.note ≡ None }
    ensures { Ends (planned op operands.now) work.old work.new result }
{
    let v = one(work, alloc, operands)?;
    bind(work, op.scope, op.name, v)
}

// Raises a value (40).
pub(crate) fn do_raise(
    work: &mut Work,
    alloc: Global,
    op: Op,
    operands: &[Value],
) -> Result<Answer, Stop>
    requires number { op.no ≡ 40 }
    requires op { IsNamedOp work.old.values op }
    requires named { AreNamed work.old.values operands.now }
    requires fresh { work.old.made ≡ None }
    requires unsaid { work.old.note ≡ None }
    ensures { Ends (planned op operands.now) work.old work.new result }
{
    let v = one(work, alloc, operands)?;
    raise(work, alloc, v)
}

// Matches an exception (41).
pub(crate) fn do_matches(
    work: &mut Work,
    alloc: Global,
    op: Op,
    operands: &[Value],
) -> Result<Answer, Stop>
    requires number { op.no ≡ 41 }
    requires op { IsNamedOp work.old.values op }
    requires named { AreNamed work.old.values operands.now }
    requires fresh { work.old.made ≡ None }
    requires unsaid { work.old.note ≡ None }
    ensures { Ends (planned op operands.now) work.old work.new result }
{
    let (v, w) = two(work, alloc, operands)?;
    matches(work, alloc, v, w)
}

// Ends a `with` (45).
pub(crate) fn do_end_with(
    work: &mut Work,
    alloc: Global,
    op: Op,
    operands: &[Value],
) -> Result<Answer, Stop>
    requires number { op.no ≡ 45 }
    requires op { IsNamedOp work.old.values op }
    requires named { AreNamed work.old.values operands.now }
    requires fresh { work.old.made ≡ None }
    requires unsaid { work.old.note ≡ None }
    ensures { Ends (planned op operands.now) work.old work.new result }
{
    let v = one(work, alloc, operands)?;
    end_with(work, alloc, v)
}

// Begins a `with` (46).
pub(crate) fn do_begin_with(
    work: &mut Work,
    alloc: Global,
    op: Op,
    operands: &[Value],
) -> Result<Answer, Stop>
    requires number { op.no ≡ 46 }
    requires op { IsNamedOp work.old.values op }
    requires named { AreNamed work.old.values operands.now }
    requires fresh { work.old.made ≡ None }
    requires unsaid { work.old.note ≡ None }
    ensures { Ends (planned op operands.now) work.old work.new result }
{
    let v = one(work, alloc, operands)?;
    begin_with(work, alloc, v)
}

// Whether a value is of a kind (57).
pub(crate) fn do_isinstance(
    work: &mut Work,
    alloc: Global,
    op: Op,
    operands: &[Value],
) -> Result<Answer, Stop>
    requires number { op.no ≡ 57 }
    requires op { IsNamedOp work.old.values op }
    requires named { AreNamed work.old.values operands.now }
    requires fresh { work.old.made ≡ None }
    requires unsaid { work.old.note ≡ None }
    ensures { Ends (planned op operands.now) work.old work.new result }
{
    let (v, w) = two(work, alloc, operands)?;
    isinstance(work, alloc, v, w)
}

// Loads a name (1).
pub(crate) fn do_load(
    work: &mut Work,
    alloc: Global,
    op: Op,
    operands: &[Value],
) -> Result<Answer, Stop>
    requires number { op.no ≡ 1 }
    requires op { IsNamedOp work.old.values op }
    requires named { AreNamed work.old.values operands.now }
    requires fresh { work.old.made ≡ None }
    requires unsaid { work.old.note ≡ None }
    ensures { Ends (planned op operands.now) work.old work.new result }
{
    none(work, alloc, operands)?;
    load(work, alloc, op.scope, op.name)
}

// Unbinds a name (34).
pub(crate) fn do_unbind(
    work: &mut Work,
    alloc: Global,
    op: Op,
    operands: &[Value],
) -> Result<Answer, Stop>
    requires number { op.no ≡ 34 }
    requires op { IsNamedOp work.old.values op }
    requires named { AreNamed work.old.values operands.now }
    requires fresh { work.old.made ≡ None }
    requires unsaid { work.old.note ≡ None }
    ensures { Ends (planned op operands.now) work.old work.new result }
{
    none(work, alloc, operands)?;
    unbind(work, alloc, silent(op.value), op.scope, op.name)
}

// Imports a module (44).
pub(crate) fn do_import(
    work: &mut Work,
    alloc: Global,
    op: Op,
    operands: &[Value],
) -> Result<Answer, Stop>
    requires number { op.no ≡ 44 }
    requires op { IsNamedOp work.old.values op }
    requires named { AreNamed work.old.values operands.now }
    requires fresh { work.old.made ≡ None }
    requires unsaid { work.old.note ≡ None }
    ensures { Ends (planned op operands.now) work.old work.new result }
{
    none(work, alloc, operands)?;
    import_module(work, op.scope, op.name, op.value)
}

// Gives a constant (0).
pub(crate) fn do_constant(
    work: &mut Work,
    alloc: Global,
    op: Op,
    operands: &[Value],
) -> Result<Answer, Stop>
    requires number { op.no ≡ 0 }
    requires op { IsNamedOp work.old.values op }
    requires named { AreNamed work.old.values operands.now }
    requires fresh { work.old.made ≡ None }
    requires unsaid { work.old.note ≡ None }
    ensures { Ends (planned op operands.now) work.old work.new result }
{
    constant(work, alloc, op.value, operands)
}

// Fails to call (38).
pub(crate) fn do_call_failed(
    work: &mut Work,
    alloc: Global,
    op: Op,
    operands: &[Value],
) -> Result<Answer, Stop>
    requires number { op.no ≡ 38 }
    requires op { IsNamedOp work.old.values op }
    requires named { AreNamed work.old.values operands.now }
    requires fresh { work.old.made ≡ None }
    requires unsaid { work.old.note ≡ None }
    ensures { Ends (planned op operands.now) work.old work.new result }
{
    Err(call_failed(work, alloc, op.value))
}

// Defines a function (42).
pub(crate) fn do_def(
    work: &mut Work,
    alloc: Global,
    op: Op,
    operands: &[Value],
) -> Result<Answer, Stop>
    requires number { op.no ≡ 42 }
    requires op { IsNamedOp work.old.values op }
    requires named { AreNamed work.old.values operands.now }
    requires fresh { work.old.made ≡ None }
    requires unsaid { work.old.note ≡ None }
    ensures { Ends (planned op operands.now) work.old work.new result }
{
    def(work, alloc, op.name, op.value, operands)
}

// Defines a class (43).
pub(crate) fn do_class(
    work: &mut Work,
    alloc: Global,
    op: Op,
    operands: &[Value],
) -> Result<Answer, Stop>
    requires number { op.no ≡ 43 }
    requires op { IsNamedOp work.old.values op }
    requires named { AreNamed work.old.values operands.now }
    requires fresh { work.old.made ≡ None }
    requires unsaid { work.old.note ≡ None }
    ensures { Ends (planned op operands.now) work.old work.new result }
{
    class(work, alloc, op.name, op.value, operands)
}

// Takes a value apart (35).
pub(crate) fn do_unpack(
    work: &mut Work,
    alloc: Global,
    op: Op,
    operands: &[Value],
) -> Result<Answer, Stop>
    requires number { op.no ≡ 35 }
    requires op { IsNamedOp work.old.values op }
    requires named { AreNamed work.old.values operands.now }
    requires fresh { work.old.made ≡ None }
    requires unsaid { work.old.note ≡ None }
    ensures { Ends (planned op operands.now) work.old work.new result }
{
    unpack(work, alloc, targets(op.value), operands)
}
