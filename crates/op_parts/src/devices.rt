// An operation that asks a device, with what it is given.
ghost use Rattle.std.specs.Prelude.{◌≡◌, ◌<◌, None, option_copied};
ghost use Rattle.op_devices.specs.Asking.{Known, answered_by};
ghost use Rattle.op_devices.specs.Given.{asks, IsGiven};
ghost use Rattle.op_parts.specs.Given.{EndsGiven, is_answered as is_known_to_be};
ghost use Rattle.op_state.specs.Held.{Finishes, begun};
ghost use Rattle.op_table.specs.Table.{planned};
ghost use Rattle.op_work.specs.Work.{Extends};
ghost use Rattle.py_value.specs.Values.{AreNamed};

use capture::{Ask, Given};
use op_devices::{asking, input, randint, randrange, time_ns};
use op_state::{Held, begin};
use op_work::{Stop, Work};
use prov_base::Memory;
use py_model::{Answer, Deed, Op};
use py_value::Value;
use std::alloc::Global;

/// Performs an operation that asks a device, with what it is given, where it asks, and so many steps left. It is none where it costs more.
/// Another number, and an asking that is not answered, are answered as out of memory.
pub fn perform_given(
    held: &mut Held,
    alloc: Global,
    op: Op,
    operands: &[Value],
    given: Option<&Given>,
    left: u32,
) -> Result<Option<Deed>, Memory>
    requires named { AreNamed held.old.work.values operands.now }
    requires some { 0 < left }
    ensures finishes { (k : Known) → IsGiven k (asks op.no operands.now) (option_copied given.entry)
        → Finishes (λ table. answered_by k (planned op operands.now table)) (record held.old { work = begun left held.old.work }) held.new result }
    ensures extends { Extends held.old.work.values held.new.work.values }
{
    if !is_answered(asking(op.no, operands), given) {
        return Err(Memory);
    }
    begin(&mut held.work, left);
    let answer = with_given(&mut held.work, alloc, op, operands, given);
    held.end(alloc, answer)
}

// Whether there is an answer, where something is asked.
fn is_answered(asked: Option<Ask>, given: Option<&Given>) -> bool
    ensures { result ≡ is_known_to_be asked (option_copied given.entry) }
{
    match asked {
        Some(_) => given.is_some(),
        None => true,
    }
}

// An operation that asks a device, by its number.
fn with_given(
    work: &mut Work,
    alloc: Global,
    op: Op,
    operands: &[Value],
    given: Option<&Given>,
) -> Result<Answer, Stop>
    requires named { AreNamed work.old.values operands.now }
    requires fresh { work.old.made ≡ None }
    ensures { EndsGiven op.no (planned op operands.now) operands.now (option_copied given.entry) work.old work.new result }
{
    match op.no {
        55 => input(work, alloc, operands, given),
        109 => time_ns(work, alloc, operands, given),
        110 => randint(work, alloc, operands, given),
        111 => randrange(work, alloc, operands, given),
        _ => Err(Stop::Memory),
    }
}
