// Which fault is answered where the lines stop being those of a script.
ghost use Rattle.py_parser.specs.declared.fault.Halt.TheVariants.{AtToken, AtEnd};
ghost use Rattle.py_parser.specs.Faults.{IsFault};
ghost use Rattle.py_parser.specs.ParsedBlocks.{IsHalt, FirstHalt};

use crate::fault::{Halt, ParseFault};
use prov_base::Pos;
use py_lines::Line;
use refused_forms::refused_form;
use std::alloc::Global;

/// The fault of lines that stop there.
#[tactic(auto, using(crate::proofs::FirstFaults::last_fault, crate::proofs::FirstFaults::indent_fault, crate::proofs::FirstFaults::deep_fault, crate::proofs::FirstFaults::many_fault))]
pub(crate) fn told(alloc: Global, lines: &[Line], halt: Halt) -> ParseFault
    requires { IsHalt lines.now halt }
    ensures { IsFault lines.now result }
{
    match halt {
        Halt::AtToken(lines_left, left) => at_token(alloc, lines, lines_left, left),
        Halt::AtEnd(lines_left, last) => at_end(alloc, lines, lines_left, last),
        Halt::NoLine(last) => ParseFault::Unexpected(last),
        Halt::BadIndent(at) => ParseFault::BadIndent(at),
        Halt::TooDeep(at) => ParseFault::TooDeep(at),
        Halt::TooMany(at) => ParseFault::TooMany(at),
        Halt::Memory => ParseFault::Memory,
    }
}

/// The fault at a token, behind whose line so many lines stand, and behind which so many tokens stand there.
fn at_token(alloc: Global, lines: &[Line], lines_left: usize, left: usize) -> ParseFault
    requires { FirstHalt lines.now (AtToken lines_left left) }
    ensures { IsFault lines.now result }
{
    let number = lines.len() - lines_left - 1;
    let (before, line) = (&lines[..number], &lines[number]);
    let tokens = line.tokens.as_slice();
    let count = tokens.len() - left - 1;
    let (front, shown, rest) = (&tokens[..count], tokens[count].at, &tokens[count..]);
    match refused_form(alloc, before, line.indent, front, rest) {
        Ok(Some(at)) => ParseFault::Unsupported(at),
        Ok(None) => ParseFault::Unexpected(shown),
        Err(_) => ParseFault::Memory,
    }
}

/// The fault at the end of a line, behind which so many lines stand. This is the last token up to there.
fn at_end(alloc: Global, lines: &[Line], lines_left: usize, last: Pos) -> ParseFault
    requires { FirstHalt lines.now (AtEnd lines_left last) }
    ensures { IsFault lines.now result }
{
    let number = lines.len() - lines_left - 1;
    let (before, line) = (&lines[..number], &lines[number]);
    match refused_form(alloc, before, line.indent, line.tokens.as_slice(), &[]) {
        Ok(Some(at)) => ParseFault::Unsupported(at),
        Ok(None) => ParseFault::Unexpected(last),
        Err(_) => ParseFault::Memory,
    }
}
