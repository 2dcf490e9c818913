// Why lines are no script, and where the parser stops in them.
ghost use Rattle.std.specs.Prelude.{◌≡◌};
ghost use Rattle.py_parser.specs.declared.fault.Halt.TheVariants.{Memory};

use prov_base::Pos;
use std::alloc::{AllocError, AllocFailed};

/// Why lines were not read as a script. A place is that of a token, from line 1 and column 1.
#[derive(Clone, Copy, Debug)]
pub enum ParseFault {
    /// The token where the grammar has none, or the last one of a line that ends too early.
    Unexpected(Pos),
    /// The token of a form that this profile refuses.
    Unsupported(Pos),
    /// The first token of a line that is indented otherwise than a statement may stand there, or the last one of the line
    /// before a suite that lacks its statement.
    BadIndent(Pos),
    /// The first token of an expression or statement that lies too deep.
    TooDeep(Pos),
    /// The first token of the statement that is one too many.
    TooMany(Pos),
    /// Out of memory.
    Memory,
}

/// Where lines stop being those of a script.
#[derive(Clone, Copy)]
pub(crate) enum Halt {
    /// At a token: how many lines stand behind its line, and how many tokens behind it there.
    AtToken(usize, usize),
    /// At the end of a line, behind which so many lines stand: the last token up to there.
    AtEnd(usize, Pos),
    /// At the end of the lines, where a handler is missing: the last token.
    NoLine(Pos),
    BadIndent(Pos),
    TooDeep(Pos),
    TooMany(Pos),
    Memory,
}

impl From<AllocError> for Halt {
    ghost from_gives = { λ _ halt. halt ≡ Memory };

    fn from(_: AllocError) -> Self {
        Halt::Memory
    }
}

impl<T: Drop> From<AllocFailed<T>> for Halt {
    ghost from_gives = { λ _ halt. halt ≡ Memory };

    fn from(_: AllocFailed<T>) -> Self {
        Halt::Memory
    }
}
