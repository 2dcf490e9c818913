// An operation that comes to an exception raises it.
ghost use Rattle.std.specs.Prelude.{◌≡◌, Err};
ghost use Rattle.op_state.specs.Settling.{Settled, IsRefusal};
ghost use Rattle.op_work.specs.Work.{WorkView, Ends, Extends, IsNamedResult, IsNamedStop};
ghost use Rattle.py_model.specs.Plan.{Plan};
ghost use Rattle.py_model.specs.Told.{IsNamedAnswer};
ghost use Rattle.py_value.specs.Values.{ValuesView};

use op_work::{Stop, Work};
use prov_base::Memory;
use py_model::Answer;
use std::alloc::Global;

/// What an operation comes to, once the exception that it may have come to is made and raised. It is none where that costs more than is left.
pub(crate) fn settle(
    work: &mut Work,
    alloc: Global,
    answer: Result<Answer, Stop>,
) -> Result<Option<Answer>, Memory>
    requires { IsNamedResult IsNamedAnswer work.old.values answer }
    ensures settled { (plan : ValuesView → Plan) (began : WorkView) → Ends plan began work.old answer → Settled plan began work.new result }
    ensures store { work.new.store ≡ work.old.store }
    ensures extends { Extends work.old.values work.new.values }
{
    match answer {
        Ok(answer) => Ok(Some(answer)),
        Err(stop) => match raised(work, alloc, stop) {
            Ok(answer) => Ok(Some(answer)),
            Err(stop) => refused(stop),
        },
    }
}

// The exception that an operation came to is made and raised.
fn raised(work: &mut Work, alloc: Global, stop: Stop) -> Result<Answer, Stop>
    requires { IsNamedStop work.old.values stop }
    ensures ends { (plan : ValuesView → Plan) (began : WorkView) → Ends plan began work.old (Err stop) → Ends plan began work.new result }
    ensures store { work.new.store ≡ work.old.store }
    ensures extends { Extends work.old.values work.new.values }
{
    match stop {
        Stop::Raises(class, argument) => work.raise(alloc, class, argument),
        Stop::TooDear => Err(Stop::TooDear),
        Stop::Memory => Err(Stop::Memory),
    }
}

// What an operation that did not come to its end answers.
fn refused(stop: Stop) -> Result<Option<Answer>, Memory>
    ensures { IsRefusal stop result }
{
    match stop {
        Stop::TooDear => Ok(None),
        _ => Err(Memory),
    }
}
