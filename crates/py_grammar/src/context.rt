// Where a line stands, as far as it is asked of it, and the limit that a statement on it would pass.
ghost use Rattle.std.specs.Prelude.{◌≡◌};
ghost use Rattle.py_grammar.specs.ParsedHead.{limit_fault};

use crate::around::Around;
use prov_base::Pos;
use py_expressions::Fault;

/// The statement before a line at its indentation, as far as a part of it may follow.
#[derive(Clone, Copy, PartialEq, Eq)]
pub enum Last {
    /// None, or one that has no parts.
    Nothing,
    /// A loop: an `else` here is of a refused form.
    Loop,
    /// An `if` or `elif`: `elif` and `else` may follow.
    If,
    /// A `try`: a handler has to follow.
    Try,
    /// A handler that names what it is for: another one may follow.
    Handler,
    /// A handler for every exception.
    Every,
}

/// Where a line stands.
#[derive(Clone, Copy)]
pub struct Context {
    pub around: Around,
    pub last: Last,
    /// A `global` line may stand here.
    pub may_declare: bool,
}

/// The limit that a statement behind the `:` would pass.
#[derive(Clone, Copy)]
pub enum Limit {
    /// It would be one too many.
    Number,
    /// It would lie in too many suites.
    Depth,
}

impl Limit {
    /// The fault that is named at this place.
    pub fn fault(self, at: Pos) -> Fault
        ensures { result ≡ limit_fault self at }
    {
        match self {
            Limit::Number => Fault::TooMany(at),
            Limit::Depth => Fault::TooDeep(at),
        }
    }
}
