// Operations, their answers, and the moments of a run, as the interpreter tells them. What they are without numbers of texts and tuples
// is `specs/Told.antt`.
use prov_base::Pos;
use py_value::{Accesses, Kind, Value};
use std::marker::Model;

/// An operation of a script: what is done, apart from its operand values.
#[derive(Clone, Copy)]
pub struct Op {
    /// Its number, 0 to 47, 50 to 71 or 80 to 111 (`specs/Operations.antt`).
    pub no: u8,
    /// The activation of a local name, 0 for every other operation.
    pub scope: u32,
    /// The text that a load, bind, unbind, getattr, setattr, find, def, class or import names; 0 for every other operation.
    pub name: u32,
    /// The constant, the function or class that is defined, the module that is imported, why a call fails, how many targets there are,
    /// or that a name is unset at the end of an `except`; `None` for every other operation.
    pub value: Value,
}

/// What an operation answers.
#[derive(Clone, Copy)]
pub enum Answer {
    /// A value.
    Value(Value),
    /// The exception that it raised, by its object.
    Raised(u32),
    /// The sequence is at its end.
    End,
}

/// How a statement ended.
#[derive(Clone, Copy)]
pub enum How {
    /// With its last part.
    Normal,
    /// By a `break`.
    Break,
    /// By a `continue`.
    Continue,
    /// By a `return`.
    Return,
    /// By an exception.
    Raise,
}

/// A list of values, such as the operands of an operation.
#[derive(Drop)]
pub struct Args {
    values: Vec<Value>,
}

impl Model for Args {
    ghost use Rattle.std.specs.Prelude.{List};
    ghost use Rattle.py_value.specs.declared.value.Value.{Value as OneValue};

    ghost Value = { List OneValue };

    ghost view = { λ a. a.values.items };
}

impl Args {
    ghost use Rattle.std.specs.Prelude.{◌≡◌};

    /// The values of a vector, which is not copied.
    pub fn of(v: Vec<Value>) -> Args
        ensures { result ≡ v.items }
    {
        Args { values: v }
    }

    /// The values, in order.
    pub fn as_slice(&self) -> &[Value]
        ensures { result.now ≡ self.now }
    {
        self.values.as_slice()
    }
}

/// One moment of a run.
#[derive(Drop)]
pub enum Moment {
    /// A statement begins, by its number.
    Begin(u32),
    /// An operation is done: its place, its number, its operand values, its answer, the kind of the object that it made, its accesses
    /// and its weight.
    Do(Pos, u8, Args, Answer, Option<Kind>, Accesses, u32),
    /// An activation is entered: the place of the call, the place of the `def`, the values of the parameters, and a Set of each.
    Enter(Pos, Pos, Args, Accesses),
    /// An activation is left, with its value.
    Leave(Value),
    /// A statement ends, by its number.
    End(u32, How),
}
