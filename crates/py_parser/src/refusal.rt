// Why a text is no script.
ghost use Rattle.std.specs.Prelude.{◌≡◌};
ghost use Rattle.py_parser.specs.Reading.{line_place, place_of, refusal_at};

use crate::fault::ParseFault;
use prov_base::Pos;
use py_lines::LineFault;

/// Why a text was not read as a script.
#[derive(Clone, Copy, Debug)]
pub enum Refusal {
    /// The place of the first fault, from line 1 and column 1.
    At(Pos),
    /// Out of memory.
    Memory,
}

impl Refusal {
    /// The refusal of a text that has no logical lines.
    pub(crate) fn of_text(fault: LineFault) -> Refusal
        ensures { result ≡ refusal_at (line_place fault) }
    {
        match fault {
            LineFault::NotUtf8(at) => Refusal::At(at),
            LineFault::BadToken(at) => Refusal::At(at),
            LineFault::OpenBracket(at) => Refusal::At(at),
            LineFault::TooLarge => Refusal::At(Pos { line: 1, col: 1 }),
            LineFault::Memory => Refusal::Memory,
        }
    }

    /// The refusal of lines that are no script.
    pub(crate) fn of_lines(fault: ParseFault) -> Refusal
        ensures { result ≡ refusal_at (place_of fault) }
    {
        match fault {
            ParseFault::Unexpected(at) => Refusal::At(at),
            ParseFault::Unsupported(at) => Refusal::At(at),
            ParseFault::BadIndent(at) => Refusal::At(at),
            ParseFault::TooDeep(at) => Refusal::At(at),
            ParseFault::TooMany(at) => Refusal::At(at),
            ParseFault::Memory => Refusal::Memory,
        }
    }
}
