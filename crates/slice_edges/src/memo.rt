// What need not be sought or asked for again.
use crate::binder::Local;
use crate::counts::Counts;
use indexmap::IndexMap;
use py_value::Location;

/// The binders of names that were found, and how many of the statements at a location a statement asked for.
#[derive(Drop)]
pub(crate) struct Memo {
    pub binders: IndexMap<Local, Option<u32>>,
    pub counts: IndexMap<Location, Counts>,
}
