//! The work of one operation of a script over the store and the values of a run: what it reads, looks at and counts, each as the operation's
//! plan says (`specs/Plan.antt` of `py_model`), then what it writes, and its end. Operations are functions over [`Work`] in the crates above.
//!
//! - Each step says what a plan comes to (`Comes` in `specs/Work.antt`): a plan that reads a length and goes on with it has become the plan for the
//!   length that was answered, by one access more. What the numbers of texts and tuples mean is said by any table that has them later.
//! - [`Work::begin`] takes the steps that are left. A step that they do not pay for answers `TooDear`, before anything is built; that what the
//!   operation costs never passes them is an invariant.
//! - [`Work::look`], [`Work::count`], [`Work::text`], [`Work::tuple`], [`Work::fault`]: items and characters, new texts and tuples, and the
//!   exceptions of the language ([`Exception`]) with a text.
//! - [`Work::key_of`], [`Work::read_entry`]: the key that a value is, its normal form, and the entry of a dictionary that stands there.
//! - [`Work::make`], [`Work::set`], [`Work::update`]: the writes (`Wrote`). They are noted, and nothing is done to the store yet.
//! - [`Work::print`], [`Work::note`], [`Work::open`]: what it prints, the name of a function or class, a path that was opened for writing. They are kept
//!   until the end. [`Work::read_file`], [`Work::move_item`]: a file that is read, an item of a list that moves.
//! - [`Work::raise`] makes an exception with one argument and raises it, [`Work::throw`] one of any class with any arguments.
//! - [`Work::finish`] takes memory for all writes, does them, and answers what is told of the operation; after a refusal the store is as before.
//!   What the map over contents is afterwards is said where the writes suit it (`SuitInTurn` of `object_store`).
//!
//! `proofs/Going.antt`, `Ending.antt` and `Turning.antt` are lemmas over these definitions, which the crates above cite: how steps join, how a whole
//! operation ends, and what a loop keeps. A body that always answers `Memory` meets `Comes`: that calls succeed with memory at hand is for
//! the cases of the operations.
//!
//! What the counters are after [`Work::finish`] is not said, since [`Work::begin`] sets them.
//!
//! What is asked of devices and fetched is no step here: the plan is followed up to there, and from there on with what was answered.
#![tactic(auto)]

mod entries;
mod exceptions;
mod files;
mod finish;
mod raise;
mod readers;
mod reads;
mod sayings;
mod steps;
mod stop;
mod work;
mod writes;

pub use exceptions::Exception;
pub use sayings::sayings_stay;
pub use stop::Stop;
pub use work::Work;
