//! The doer: every operation performed over a store, with a source of answers.
//!
//! - [`Parts`] implements `Doer` of `py_model`. What fits it and what it stands for is `specs/Parts.antt`. [`Parts::new`] stands for the state in
//!   which a run begins. It is out of memory where what it is given names a text or a tuple that has no number.
//! - `perform` (`src/performing.rt`) performs an operation that asks nothing by its number; `perform_given` one that asks a device, with what it is
//!   given. Each begins the work of the state, has the crates of operations follow the plan, and comes to its end by `Held::end` of `op_state`.
//! - `perform_asking`: an operation that asks a device. The source is asked first, and a lacking answer ends the run, also where the operation is
//!   out of budget.
//! - `perform_open`: a path that the run did not open for writing is fetched, and what has bytes there is put into the state.
//! - `specs/Asking.antt` has a plan with its questions answered, and effects that differ in questions alone (`IsLikewise`).
//!
//! `operations_suit` of `model_laws` says that what any operation writes suits a map whose orders have their entries (`IsKeyed`). So the doer needs no
//! proof for each operation that its writes suit the store, which `Store::perform` of `object_store` requires (`SuitInTurn`). Nothing is required of the
//! object that an operation makes: what its number held before is written over.
#![tactic(auto)]

mod asking;
mod devices;
mod naming;
mod opening;
mod opening_found;
mod parts;
mod performing;

pub use parts::Parts;
pub use performing::perform;
