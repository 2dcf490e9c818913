// What is still to be drawn.
use py_value::Value;

/// A task of a drawing.
#[derive(Clone, Copy)]
pub(crate) enum Pending {
    /// `: `, behind a key.
    Colon,
    /// `=`, behind the name of an attribute.
    Equals,
    /// `,)`, behind the only part of a tuple.
    OnlyEnd,
    /// A value.
    Value(Value),
    /// A key, as `repr` writes it.
    Key(Value),
    /// The name of an attribute.
    Name(Value),
    /// The parts of the tuple with a number, from a place on.
    Parts(u32, u64),
    /// The same of a tuple in a key.
    KeyParts(u32, u64),
    /// Items of a list: how many are left, and the place of the next.
    Items(u32, u64, u64),
    /// Entries of a dictionary: whether none was drawn yet, and the place of the next key in its order.
    Entries(u32, bool, u64),
    /// The same of the attributes of an instance.
    Attributes(u32, bool, u64),
}

/// What a task leaves to be done, the next one last.
#[derive(Clone, Copy)]
pub(crate) enum Next {
    /// Nothing.
    Nothing,
    /// One task.
    One(Pending),
    /// What follows a part, and the part.
    Two(Pending, Value),
    /// What follows a part of a key, and the part.
    TwoKeys(Pending, Value),
    /// What follows an entry; its value; what stands between; and its key.
    Entry(Pending, Value, Pending, Pending),
}
