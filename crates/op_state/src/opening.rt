// What is held as a run begins.
ghost use Rattle.std.specs.Prelude.{ℕ, List, IfOk};
ghost use Rattle.op_state.specs.Held.{StandsHeld};
ghost use Rattle.op_state.specs.Opening.{first_of};
ghost use Rattle.op_work.specs.Work.{Extends};
ghost use Rattle.py_model.specs.Store.{opening};
ghost use Rattle.py_value.specs.Values.{ValuesView, AreInterned};

use crate::held::Held;
use object_store::{Store, keys_have_entries, named_stays, store_over_contents};
use op_work::Work;
use prov_base::{Memory, Name};
use py_value::{Values, same_place_same_location};
use std::alloc::Global;

impl Held {
    /// What is held as a run begins: the script's path and its arguments, and no file. It stands for the store with which a run begins,
    /// whatever files a device has.
    pub fn new(alloc: Global, path: &str, arguments: &[Name]) -> Result<Held, Memory>
        ensures { IfOk result (λ held. (files : List (List ℕ × List ℕ)) (table : ValuesView) → AreInterned table → Extends held.work.values table
            → StandsHeld (first_of files) table held (opening path.now arguments.now files)) }
    {
        keys_have_entries();
        named_stays();
        same_place_same_location();
        store_over_contents();
        let mut values = Values::new(alloc)?;
        let store = Store::new(alloc, &mut values, path, arguments)?;
        Ok(Held {
            work: Work::new(alloc, store, values),
            opened: Vec::new(alloc),
            output: Vec::new(alloc),
        })
    }
}
