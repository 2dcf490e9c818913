// Operations that ask a device.
ghost use Rattle.std.specs.Prelude.{◌≡◌, ◌<◌, ℕ, true, Some};
ghost use Rattle.op_devices.specs.Asking.{Known, answered_by};
ghost use Rattle.op_devices.specs.Given.{asks, IsGiven};
ghost use Rattle.op_state.specs.Held.{Finishes, begun};
ghost use Rattle.op_parts.specs.Fitting.{IsFitting, IsStanding};
ghost use Rattle.op_parts.specs.Told.{done_of as what_is_told};
ghost use Rattle.op_table.specs.Table.{planned};
ghost use Rattle.op_work.specs.Work.{Extends};
ghost use Rattle.py_model.specs.Doing.{Knew, Performs};
ghost use Rattle.py_model.specs.Quiet.{may_ask};
ghost use Rattle.py_value.specs.Values.{AreNamed};

use crate::devices::perform_given;
use answer_source::Source;
use capture::Given;
use model_laws::operations_suit;
use op_devices::asking;
use op_state::{Held, holding_is_seen};
use prov_base::{Memory, Pos};
use py_model::{Deed, Done, Op, costs_grow, few_operations_ask};
use py_value::Value;
use std::alloc::Global;

/// Performs an operation that may ask a device. The device is asked before the plan is followed, and a lacking answer ends it.
pub fn perform_asking<S: Source>(
    held: &mut Held,
    source: &mut S,
    alloc: Global,
    at: Pos,
    op: Op,
    values: &[Value],
    left: u32,
) -> Result<Done, Memory>
    requires asks { may_ask op.no ≡ true }
    requires apart { op.no ≡ 62 → ⊥ }
    requires named { AreNamed held.old.work.values values.now }
    requires some { 0 < left }
    ensures knew { Knew (λ table capture. IsFitting (S.fits source.old) held.old.work.values table capture) (λ table capture. IsFitting (S.fits source.new) held.new.work.values table capture) }
    ensures performed { (entered : ℕ) → Performs at op values.now left (λ table capture. IsFitting (S.fits source.new) held.new.work.values table capture)
        (λ table capture s. IsStanding (S.stands source.old) held.old entered table capture s)
        (λ table capture s. IsStanding (S.stands source.new) held.new entered table capture s) result }
{
    few_operations_ask();
    costs_grow();
    holding_is_seen();
    operations_suit();
    let Some(what) = asking(op.no, values) else {
        let deed = perform_given(held, alloc, op, values, None, left)?;
        return Ok(done_of(deed));
    };
    let Some(given) = source.ask(alloc, what, at)? else {
        return Ok(Done::Unanswered);
    };
    let deed = perform_with(held, alloc, op, values, given, left)?;
    Ok(done_of(deed))
}

// An operation that asks, with what it is given.
fn perform_with(
    held: &mut Held,
    alloc: Global,
    op: Op,
    operands: &[Value],
    given: Given,
    left: u32,
) -> Result<Option<Deed>, Memory>
    requires named { AreNamed held.old.work.values operands.now }
    requires some { 0 < left }
    ensures finishes { (k : Known) → IsGiven k (asks op.no operands.now) (Some given)
        → Finishes (λ table. answered_by k (planned op operands.now table)) (record held.old { work = begun left held.old.work }) held.new result }
    ensures extends { Extends held.old.work.values held.new.work.values }
{
    perform_given(held, alloc, op, operands, Some(&given), left)
}

/// What is told of an operation that happened, or that costs more than is left.
pub(crate) fn done_of(deed: Option<Deed>) -> Done
    ensures { result ≡ what_is_told deed }
{
    match deed {
        Some(deed) => Done::Did(deed),
        None => Done::TooDear,
    }
}
