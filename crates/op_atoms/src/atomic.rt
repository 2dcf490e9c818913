// What an operation on atoms answers.
use py_value::Value;

/// What an operation on atoms answers.
#[derive(Clone, Copy, Debug)]
pub enum Atomic {
    /// This value.
    Gives(Value),
    /// It raises the exception of this class of the language, by its number, with this text, by its number.
    Raises(u64, u32),
    /// It is no operation on atoms, or an operand is none.
    NotAtomic,
}
