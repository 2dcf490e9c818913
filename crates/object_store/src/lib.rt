//! The store of a run: one finite map from locations to what stands there, with the kinds of its objects and the names
//! of its functions and classes. Memory is taken first, for a whole plan of writes, and no write then takes any.
//!
//! - `read`, `order_len`, `order_key`, `file`, `kind`, `name_at` give exactly what the map has, each content of its location's own kind;
//!   `next` is the number that `make` answers (`specs/Store.antt`).
//! - `set` and `update` write one location and leave every other, the kinds and the names. A length leaves all items; a key that is
//!   there stays in its place, and one that is put after it was deleted goes last; an append to an absent file begins it.
//! - `make` adds one object of its kind, of which nothing is set.
//! - After `reserve_for`, and the `make` of the object that the plan makes, each write of the plan in its order has its room,
//!   whatever the earlier ones used, and none is refused. Taken or refused, every location, kind and name is as before, and no room
//!   is lost. Where all the room is there already, it takes nothing and is not refused; of objects, cells, keys and bytes it takes no
//!   more than about twice the need, and places for items as many as are needed (`specs/Frugal.antt`).
//! - `perform` does all writes of a reserved plan. Over contents the map is then what the plan's accesses make of it, where each suits
//!   the map in its turn (`specs/Performing.antt`).
//! - `place_file` and `name_place` are done or leave all as it was, and a reserved plan stays so.
//! - `Store::new` begins with the path and the arguments as object 0, and `__name__` as `__main__`. Their texts and no others come.
//! - `store_over_contents`, `plan_over_contents`: without numbers of texts and tuples a store is one map from locations to contents
//!   (`SeenStore` of `py_value`), a write there changes that place alone, and a plan does what its accesses say.
//! - `keys_have_entries`, `plans_suit`: the keys of orders keep their entries under the plans that operations make, and what suits a plan
//!   follows. `named_stays`, `objects_stay_below`: a store that names only what has a number stays so.
//!
//! That `reserve_for` and `place_file` find memory where it is ample is shown by the cases of `store_cases`.
#![tactic(auto)]

mod cell;
mod file;
mod laws;
mod need;
mod object;
mod store;

pub use laws::{
    keys_have_entries, named_stays, objects_stay_below, plan_over_contents, plans_suit,
    store_over_contents,
};
pub use store::Store;
