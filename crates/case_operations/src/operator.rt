// What performs operations on values without objects.
use prov_base::Memory;
use py_value::{Value, Values};
use std::alloc::Global;

/// What came of an operation.
#[derive(Clone, Copy, Debug)]
pub enum Came {
    /// It gives this value.
    Gives(Value),
    /// It raises the exception of this class of the language, by its number, with this text, by its number.
    Raises(u64, u32),
    /// It was not performed.
    NotAtomic,
}

/// What performs operations on values without objects, and has the texts and tuples that these name.
pub(crate) trait Operator {
    /// The number of a text.
    fn word(&mut self, alloc: Global, words: &str) -> Result<u32, Memory>;

    /// The tuple of values.
    fn tuple(&mut self, alloc: Global, items: &[Value]) -> Result<Value, Memory>;

    /// Performs the operation with this number.
    fn perform(&mut self, alloc: Global, no: u8, operands: &[Value]) -> Result<Came, Memory>;

    /// The texts and tuples that have numbers.
    fn values(&self) -> &Values;
}
