// The rows of a trace, lists of them, and lists of pages.
use prov_base::{Bytes, Name, Pos};
use py_model::{Answer, Args, How};
use py_value::{Accesses, Kind, Value};
use std::marker::Model;

/// One row of a trace: a text or a tuple that gets its number, or a moment of the run, with texts and tuples by number.
#[derive(Drop)]
pub enum Row {
    /// The next text. Texts are numbered from 0 in the order of their rows.
    Text(Name),
    /// The next tuple. Tuples are numbered from 0 in the order of their rows.
    Tuple(Args),
    /// A statement begins, by its number.
    Begin(u32),
    /// An operation is done: its place, its number, its operand values, its answer, the kind of the object that it made, its accesses
    /// and its weight.
    Do(Pos, u8, Args, Answer, Option<Kind>, Accesses, u32),
    /// An activation is entered: the place of the call, the place of the `def`, the values of the parameters, and a Set of each.
    Enter(Pos, Pos, Args, Accesses),
    /// An activation is left, with its value.
    Leave(Value),
    /// A statement ends.
    End(How),
}

/// A list of rows.
#[derive(Drop)]
pub struct Rows {
    rows: Vec<Row>,
}

impl Model for Rows {
    ghost use Rattle.std.specs.Prelude.{List};
    ghost use Rattle.trace_rows.specs.declared.row.Row.{Row};

    ghost Value = { List Row };

    ghost view = { λ r. r.rows.items };
}

impl Rows {
    ghost use Rattle.std.specs.Prelude.{◌≡◌};

    /// The rows of a vector, which is not copied.
    pub fn of(v: Vec<Row>) -> Rows
        ensures { result ≡ v.items }
    {
        Rows { rows: v }
    }

    /// The rows, in order.
    pub fn as_slice(&self) -> &[Row]
        ensures { result.now ≡ self.now }
    {
        self.rows.as_slice()
    }
}

/// The pages of a trace, in order.
#[derive(Drop)]
pub struct Pages {
    pages: Vec<Bytes>,
}

impl Model for Pages {
    ghost use Rattle.std.specs.Prelude.{List, ℕ};

    ghost Value = { List (List ℕ) };

    ghost view = { λ p. p.pages.items };
}

impl Pages {
    ghost use Rattle.std.specs.Prelude.{◌≡◌};

    /// The pages of a vector, which is not copied.
    pub fn of(v: Vec<Bytes>) -> Pages
        ensures { result ≡ v.items }
    {
        Pages { pages: v }
    }

    /// The pages, in order.
    pub fn as_slice(&self) -> &[Bytes]
        ensures { result.now ≡ self.now }
    {
        self.pages.as_slice()
    }
}
