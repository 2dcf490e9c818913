// What is told of a run while it goes on.
ghost use Rattle.std.specs.Prelude.{Option, List, None};
ghost use Rattle.py_model.specs.Moment.{Moment as SeenMoment};
ghost use Rattle.py_model.specs.Told.{moment_seen, IsTellable, IsToldNow, TellsOn};

use crate::Moment;
use prov_base::Memory;
use py_value::Values;
use std::alloc::Global;

/// Something that is told each moment of a run before the next one happens. It changes nothing of the run.
pub trait Watch {
    /// The moments that it was told, the latest first, with their texts and tuples as contents, where it tells them.
    ghost history: { Self → Option (List SeenMoment) };

    /// Takes note of a moment, whose texts and tuples have their numbers in `values`. After a refusal the history is as before.
    fn told(&mut self, alloc: Global, moment: &Moment, values: &Values) -> Result<(), Memory>
        requires { IsTellable values.now moment.now }
        ensures { TellsOn (history self.old) (history self.new) (IsToldNow result (moment_seen values.now moment.now)) };
}

/// A watch that keeps nothing and tells nothing.
#[derive(Clone, Copy)]
pub struct NoWatch;

impl Watch for NoWatch {
    ghost history = { λ watch. None };

    fn told(&mut self, _alloc: Global, _moment: &Moment, _values: &Values) -> Result<(), Memory> {
        Ok(())
    }
}
