//! The grammar of scripts: a relation between logical lines and the syntax tree (`specs/Grammar.antt`), over the expressions of
//! `py_expressions`. A script as it is written is a tree of its own, with a constructor for each production
//! (`specs/Written.antt`); its tokens and lines are read off it, and so is its syntax tree, each node at its place.
#![tactic(auto)]

mod around;
mod context;
mod head;
mod laws;
mod name_set;
mod names;
mod openings;
mod simple;
mod targets;

pub use around::Around;
pub use context::{Context, Last, Limit};
pub use head::{Behind, LineHead, What, read_head, read_line_head};
pub use laws::{
    closed_sets_stay, depth_of_lines, one_script, one_simple_statement, scripts_are_well_formed,
    targets_are_flat, trees_are_placed,
};
pub use name_set::Given;
