//! Walks of sequences, operations on lists, and operations that make lists and tuples, each as its plan (`specs/Walks.antt`, `Lists.antt`,
//! `Places.antt` and `Making.antt` of `py_model`).
//!
//! - [`walk_value`], [`walk_object`] and their kin: the items of a list, the keys of a dictionary, the items of a tuple and the numbers of a range, each
//!   read or looked at. A list whose items were never set reads them as None. A range is looked at as a whole before its numbers are built. The
//!   characters of a text are counted before any of them is a text. [`if_walked`] asks only whether a value can be walked, and reads nothing of it.
//! - [`index`], [`place`], [`get_item`]: the number of an index, its place among so many items, and the item there.
//! - [`list`]: an object is a list, or TypeError is raised.
//! - [`append_to`]: `l.append(v)` on an object. A length that passes 64 bits is answered as out of memory.
//! - [`set_items`]: the items of a list are set from a place on, as writes; [`new_list`]: a list of given items is made.
//! - [`list_display`] (23), [`tuple_display`] (25), [`list_builtin`] (59), [`tuple_builtin`] (70).
//! - [`enumerate`] (54), [`zip`] (71): lists of pairs. The pairs are built behind the walks, which are paid for by then.
//!
//! The walk of two values that are compared is that of `op_compare`.
#![tactic(auto)]

mod append;
mod displays;
mod entries;
mod items;
mod letters;
mod making;
mod operands;
mod pairs;
mod parts;
mod places;
mod ranges;
mod texts;
mod walk;
mod walked;

pub use append::{append_to, list};
pub use displays::{list_builtin, list_display, tuple_builtin, tuple_display};
pub use entries::{entry_at, order_key};
pub use items::{items_from, value_at};
pub use making::{new_list, set_items};
pub use operands::first_object;
pub use pairs::{enumerate, pair_up, zip};
pub use parts::part_at;
pub use places::{clipped, get_item, index, place};
pub use ranges::{range_count, walk_range};
pub use texts::walk_text;
pub use walk::{walk_keys, walk_object, walk_tuple, walk_value};
pub use walked::if_walked;
