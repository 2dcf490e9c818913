// What the names of a script stand for.
ghost use Rattle.std.specs.Prelude.{◌≡◌};

use prov_base::Pos;
use std::marker::Model;

/// A value. Texts and tuples are their numbers in the `Values` of the run, and objects their numbers in its store.
#[derive(Clone, Copy, Debug, PartialEq, Eq, Hash)]
pub enum Value {
    /// `None`.
    None,
    /// `False` or `True`.
    Bool(bool),
    /// An integer, of 64 bits with a sign.
    Int(i64),
    /// A text.
    Text(u32),
    /// A tuple.
    Tuple(u32),
    /// A range: its start, its end and its step.
    Range(i64, i64, i64),
    /// A function, by the place of its `def`.
    Fn(Pos),
    /// A class, by the place of its `class`.
    Class(Pos),
    /// An exception class of the language, by its number.
    Exc(u64),
    /// A function or module of the language, by its number.
    Builtin(u64),
    /// A list, dictionary, instance or file.
    Object(u32),
}

/// A list of values, as the keys of a dictionary in their order.
#[derive(Drop, Debug)]
pub struct Keys {
    values: Vec<Value>,
}

impl Model for Keys {
    ghost use Rattle.std.specs.Prelude.{List};
    ghost use Rattle.py_value.specs.declared.value.Value.{Value as OneValue};

    ghost Value = { List OneValue };

    ghost view = { λ k. k.values.items };
}

impl Keys {
    /// The values of a vector, which is not copied.
    pub fn of(v: Vec<Value>) -> Keys
        ensures { result ≡ v.items }
    {
        Keys { values: v }
    }

    /// The values, in order.
    pub fn as_slice(&self) -> &[Value]
        ensures { result.now ≡ self.now }
    {
        self.values.as_slice()
    }
}

impl PartialEq for Keys {
    ghost use Rattle.std.specs.Cmp.Lexicographic.{pointwise, lists_per};
    ghost use Rattle.py_value.specs.contracts.value.ValuePartialEq.TheImpl.{ghosts};
    ghost use Rattle.py_value.specs.contracts.value.ValuePartialEq.TheImpl.Laws.{laws-law};

    ghost eq = { pointwise ghosts.eq };

    ghost laws = { lists_per laws-law };

    fn eq(&self, other: &Self) -> bool {
        self.values == other.values
    }
}
