// An operation whose walks say more than its answer: the method that was found, and whether what was made is an exception.
ghost use Rattle.std.specs.Prelude.{◌≡◌, ◌+◌, ◌-◌, ◌≤◌, true, length};
ghost use Rattle.std.specs.List.{list_any};
ghost use Rattle.py_value.specs.Values.{ValuesView};
ghost use Rattle.py_model.specs.Capture.{Capture};
ghost use Rattle.py_model.specs.Doing.{Knew};
ghost use Rattle.py_model.specs.Told.{is_operation};
ghost use Rattle.interp_eval.specs.Performing.{HasState, AreNamedBy};
ghost use Rattle.flow_calls.specs.Walking.{HasWalked, is_attribute, sets_attribute};

use interp_eval::{some_word, tell};
use prov_base::{Memory, Pos};
use py_model::{Answer, Args, Deed, Doer, Done, Moment, Op, Watch};
use py_value::{Access, Location, Value};
use std::alloc::Global;

/// What an operation came to.
#[derive(Clone, Copy)]
pub enum Walk {
    /// It happened, and answers this; a method walk of it found this method, and it set an attribute or none.
    Did(Answer, Option<Pos>, bool),
    /// It costs more than is left.
    TooDear,
    /// It asks for what is not there.
    Unanswered,
}

/// Whether a place is that of an attribute or an entry.
fn is_attribute(place: &Location) -> bool
    ensures { result ≡ is_attribute place.now }
{
    match place {
        Location::Entry(_, _) => true,
        Location::Var(_, _) => false,
        Location::Len(_) => false,
        Location::Item(_, _) => false,
        Location::Order(_) => false,
        Location::File(_) => false,
        Location::Offset(_) => false,
        Location::Closed(_) => false,
        Location::Method(_, _) => false,
        Location::Base(_) => false,
    }
}

/// Whether an access sets an attribute or an entry.
fn sets_attribute(access: &Access) -> bool
    ensures { result ≡ sets_attribute access.now }
{
    match access {
        Access::Set(place, _) => is_attribute(place),
        Access::Read(_) => false,
        Access::Update(_, _) => false,
    }
}

/// Whether one of these accesses does.
fn some_set(accesses: &[Access]) -> bool
    ensures { result ≡ list_any sets_attribute accesses.now }
{
    accesses.iter().any(|access| sets_attribute(access))
}

/// What is left when an operation that happened is paid for: 1 step, 1 for each access, and its weight.
fn pay<D: Doer>(doer: &D, deed: &Deed, left: u32) -> u32
    requires { (table : ValuesView) (capture : Capture) → D.fits doer.now table capture → 1 + length deed.now.accesses + deed.now.weight ≤ left }
    ensures { result ≡ left - (1 + length deed.now.accesses + deed.now.weight) }
{
    let _ = doer.values();
    left - 1 - deed.accesses.as_slice().len() as u32 - deed.weight
}

/// An operation is performed and paid for, and the watch is told; what its walks came to is answered too.
pub fn perform_walk<D: Doer, W: Watch>(
    alloc: Global,
    doer: &mut D,
    watch: &mut W,
    left: &mut u32,
    at: Pos,
    op: Op,
    values: Vec<Value>,
) -> Result<Walk, Memory>
    requires state { HasState (D.fits doer.old) (D.stands doer.old) }
    requires operation { is_operation op.no ≡ true }
    requires named { AreNamedBy (D.fits doer.old) values.items }
    ensures knew { Knew (D.fits doer.old) (D.fits doer.new) }
    ensures walked { HasWalked at op values.items left.old left.new (D.fits doer.new) (D.stands doer.old) (D.stands doer.new) (W.history watch.old) (W.history watch.new) result }
{
    let number = some_word(alloc, doer)?;
    let deed = match doer.perform(alloc, at, op, values.as_slice(), *left)? {
        Done::Did(deed) => deed,
        Done::TooDear => return Ok(Walk::TooDear),
        Done::Unanswered => return Ok(Walk::Unanswered),
    };
    let answer = deed.answer;
    let method = deed.method;
    let has_set = some_set(deed.accesses.as_slice());
    *left = pay(doer, &deed, *left);
    let moment = Moment::Do(
        at,
        op.no,
        Args::of(values),
        answer,
        deed.made,
        deed.accesses,
        deed.weight,
    );
    match tell(alloc, doer, watch, number, &moment) {
        Ok(()) => Ok(Walk::Did(answer, method, has_set)),
        Err(refused) => Err(refused),
    }
}
