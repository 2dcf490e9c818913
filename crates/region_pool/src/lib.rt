//! A region of its own: items that are put one after another, are named by numbers from 0, and are given up together.
//!
//! Room is made first and used later: `Pool::reserve` takes the memory, and each `Pool::put` that it made room for
//! cannot fail. A region never copies an item to make room: its items lie in chunks, each twice as large as the one
//! before it, and a chunk is never moved once it is made. So a million items take twenty chunks, and the chunk and the
//! place of an item follow from its name by counting leading zeros.
//!
//! A `Pool::new` that always answers `NoRoom` meets its clause, since no clause can say that memory is left: that it
//! succeeds is tested.
#![tactic(auto)]

mod chunks;
mod mark;
mod no_room;
mod places;
mod pool;

pub use mark::Mark;
pub use no_room::NoRoom;
pub use pool::Pool;
