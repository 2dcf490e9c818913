//! The table of operations in terms of values: a list is its items, a dictionary its pairs in order, a file its bytes and its offset, a text its
//! characters. Each operation is one short equation on these (`specs/Table*.antt`), and a law says that its plan in `py_model` does that.
//!
//! `specs/Reading.antt` says what an object of a store is as a value, and `specs/Results.antt` what it means that an effect does what the table
//! says: the answer, what the object is afterwards as a value, and that nothing else changes. What is touched, in which order, the plans say.
//!
//! - [`lists_do_as_the_table`], [`lists_are_read_as_the_table`], [`members_are_found`], [`plain_lists_have_items`]: lists.
//! - [`comparisons_do_as_the_table`], [`maps_texts_and_ranges_compare`], [`members_are_sought`]: comparisons, and values among items.
//! - [`items_are_sorted`], [`best_items_are_found`]: sorts, `max` and `min`.
//! - [`dicts_do_as_the_table`], [`dicts_are_made`], [`attributes_do_as_the_table`]: dictionaries, and attributes of instances.
//!   [`operations_keep_pairs`]: that each dictionary is one, which comparisons ask, holds at the start of a run. Operations keep it, where the
//!   next object has no entries.
//! - [`texts_do_as_the_table`], [`text_methods_do_as_the_table`]: texts; [`numbers_do_as_the_table`]: numbers.
//! - [`sequences_do_as_the_table`], [`walks_do_as_the_table`]: tuples, ranges, displays, and what walks a sequence.
//! - [`files_do_as_the_table`], [`files_are_opened`]: files; [`values_are_printed_as_the_table`]: `repr`, `str` and `print`.
//!
//! Operands of a wrong kind raise as the plans say. An operation has no equation where that would only repeat its plan:
//! - constants, names, binding, `give`, `is`, calls, classes and methods, exceptions, imports, `with` and `assert`;
//! - the truth of values that are no list and no dictionary, and `+=` of values that are no list, which is `+`;
//! - `range`, `isinstance`, `int` of texts that `str` does not write, the printed form of instances, `input`, and the modules;
//! - of what `sort` and `sorted` refuse, and in which order, `refused_to` of `py_model` is the definition.
//!
//! Where the functions and classes come from that operations of a run answer and write: a data flow law of plans.
//!
//! `specs/Flow.antt` says when values, contents and kinds know only functions and classes at places of a set, and when a plan keeps them so.
//! [`operations_pass_functions_on`] says it of every operation, [`effects_keep_stores_known`] what it means for stores,
//! and [`runs_know_definitions_alone`] for whole runs: a function or class in a run is one that the script defines (`specs/Defined.antt`).
//!
//! [`operations_suit`]: in a map whose orders have their entries (`IsKeyed` of `object_store`), the accesses of every operation suit it one after the
//! other, and the map afterwards is again such a map. [`plans_suit_stores`] says so of any plan that is orderly (`specs/Orderly.antt` of `py_model`),
//! and [`runs_keep_keys_with_entries`] of whole runs.
#![tactic(auto)]

mod key_laws;
mod laws;
mod orders;
mod origin_laws;

pub use key_laws::{operations_suit, plans_suit_stores, runs_keep_keys_with_entries};
pub use laws::{
    attributes_do_as_the_table, dicts_are_made, dicts_do_as_the_table, files_do_as_the_table,
    lists_are_read_as_the_table, lists_do_as_the_table, members_are_found, numbers_do_as_the_table,
    operations_keep_pairs, plain_lists_have_items, sequences_do_as_the_table,
    text_methods_do_as_the_table, texts_do_as_the_table, values_are_printed_as_the_table,
    walks_do_as_the_table,
};
pub use orders::{
    best_items_are_found, comparisons_do_as_the_table, items_are_sorted,
    maps_texts_and_ranges_compare, members_are_sought,
};
pub use origin_laws::{
    effects_keep_stores_known, operations_pass_functions_on, runs_know_definitions_alone,
};
