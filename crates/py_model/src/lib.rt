//! What each operation of a script does and touches, and what a script means, as definitions that compute. No code here performs
//! one. `docs/MEANING.md` tells how to read all of it.
//!
//! Read them in this order: `specs/Store.antt` (the store of a run), `specs/Plan.antt` (an operation as a plan: what it reads and
//! asks, then what it writes), `specs/Effect.antt` (what a plan comes to in a store: answer, accesses, weight, cost, the store
//! afterwards), `specs/Walks.antt` (walks that several operations make), and then the operations, a file for each family.
//!
//! The meaning of a run is `specs/Act.antt`, `Running.antt`, `Expressions.antt`, `Statements.antt` and `Meaning.antt`; what its moments
//! come to is `History.antt` and `Occurrences.antt`. [`Doer`] is what performs operations and [`Watch`] what is told the moments.
//! The crates of operations, from `op_work` up, build such a doer over a store.
//!
//! `specs/Graph.antt` is the graph text of a value. [`graph_texts_tell_graphs`] says that two are equal exactly where the graphs are, in
//! stores that are plain (`specs/PlainGraph.antt`). A run begins with such a store; that it goes on so is not shown.
//!
//! [`operations_agree`] is the law that all an operation depends on is among what it reads and asks: `specs/Agreement.antt` says what
//! has to correspond in two stores, `specs/Renaming.antt` under which renaming. [`operations_are_orderly`] says in which ways alone operations
//! write entries and orders of keys (`specs/Orderly.antt`), [`operations_open_tidily`] in which they open files (`specs/Tidy.antt`).
#![tactic(auto)]

mod doer;
mod laws;
mod moment;
mod watch;

pub use doer::{Deed, Doer, Done, Entered};
pub use laws::{
    alike_plans_agree, asked_is_captured, corresponding_operands_have_alike_plans, costs_grow,
    few_operations_ask, few_operations_note, frames_follow_brackets, graph_texts_tell_graphs,
    larger_budget_extends, map_changes_by_accesses, meaning_unfolds, moments_nest,
    operations_agree, operations_are_orderly, operations_are_paid, operations_open_tidily,
    raised_writes_its_exception_alone, renamed_effects_weigh_the_same, spans_change_nothing,
    states_agree_with_moments, touches_join, unpaid_ends_the_run,
};
pub use moment::{Answer, Args, How, Moment, Op};
pub use watch::{NoWatch, Watch};
