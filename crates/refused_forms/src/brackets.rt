// Brackets among the tokens of a line, and what stands inside or behind them.
ghost use Rattle.std.specs.Prelude.{◌≡◌, None, option_map};
ghost use Rattle.refused_forms.specs.LineForms as spec;

use crate::kinds::{closes, compares, divides, ends_operand, is_name, is_sign, is_word, opens};
use crate::words::{CLASS, DEF, IN, NOT, OPEN_ROUND};
use py_lines::{Token, TokenKind};

/// What may not stand outside all brackets.
#[derive(Clone, Copy)]
pub(crate) enum Stop {
    /// No token.
    Nothing,
    /// What divides the operands of one comparison from those of another.
    Divider,
    /// The `in` of a `for`.
    LoopWord,
}

/// What is sought among tokens.
#[derive(Clone, Copy)]
pub(crate) enum Sought {
    /// A bracket that is not closed.
    Bracket,
    /// A bracket of a call or of parameters that is not closed.
    Call,
    /// A comparison operator whose second operand may end with the last token.
    Comparison,
}

impl Stop {
    /// Whether a token of this kind may not stand there.
    fn stops(self, kind: &TokenKind) -> bool
        ensures { result ≡ spec.stops self kind.now }
    {
        match self {
            Stop::Nothing => false,
            Stop::Divider => divides(kind),
            Stop::LoopWord => is_word(IN, kind),
        }
    }
}

/// Whether the first token is this keyword.
pub(crate) fn begins_with_word(number: u8, tokens: &[Token]) -> bool
    ensures { result ≡ spec.is_first (spec.is_word number) tokens.now }
{
    match tokens.split_first() {
        None => false,
        Some((token, _)) => is_word(number, &token.kind),
    }
}

/// Whether the last token ends an operand.
pub(crate) fn ends_with_operand(tokens: &[Token]) -> bool
    ensures { result ≡ spec.is_last spec.ends_operand tokens.now }
{
    match tokens.last() {
        None => false,
        Some(token) => ends_operand(&token.kind),
    }
}

/// Whether the last token is a name.
fn ends_with_name(tokens: &[Token]) -> bool
    ensures { result ≡ spec.is_last spec.is_name tokens.now }
{
    match tokens.last() {
        None => false,
        Some(token) => is_name(&token.kind),
    }
}

/// Whether these tokens close the brackets that they open, and what may not stand outside all brackets does not.
pub(crate) fn closed(stop: Stop, tokens: &[Token]) -> bool
    ensures { result ≡ spec.closed (spec.stops stop) 0 tokens.now }
{
    let mut open: usize = 0;
    for token in tokens {
        if opens(&token.kind) {
            open += 1;
            continue;
        }
        if closes(&token.kind) {
            if open == 0 {
                return false;
            }
            open -= 1;
            continue;
        }
        if open == 0 && stop.stops(&token.kind) {
            return false;
        }
    }
    open == 0
}

/// Whether a token before a bracket, if there is one, makes it that of a call or of parameters.
fn may_be_called(before: Option<&TokenKind>) -> bool
    ensures { result ≡ spec.may_be_called (option_map (λ kind. kind.now) before.entry) }
{
    match before {
        None => false,
        Some(kind) => ends_operand(kind),
    }
}

impl Sought {
    /// Whether it is this, where that stood before it and these tokens stand behind it.
    fn is_here(self, before: Option<&TokenKind>, kind: &TokenKind, behind: &[Token]) -> bool
        ensures { result ≡ spec.is_sought self (option_map (λ kind. kind.now) before.entry) kind.now behind.now }
    {
        match self {
            Sought::Bracket => opens(kind) && closed(Stop::Nothing, behind),
            Sought::Call => {
                is_sign(OPEN_ROUND, kind) && may_be_called(before) && closed(Stop::Nothing, behind)
            }
            Sought::Comparison => {
                compares(kind) && closed(Stop::Divider, behind) && ends_with_operand(behind)
            }
        }
    }
}

/// Whether it is somewhere among these tokens.
fn somewhere(sought: Sought, front: &[Token]) -> bool
    ensures { result ≡ spec.somewhere (spec.is_sought sought) None front.now }
{
    let mut before = None;
    let mut rest = front;
    while let Some((token, behind)) = rest.split_first() {
        if sought.is_here(before, &token.kind, behind) {
            return true;
        }
        before = Some(&token.kind);
        rest = behind;
    }
    false
}

/// Whether a bracket is open behind these tokens.
pub(crate) fn in_bracket(front: &[Token]) -> bool
    ensures { result ≡ spec.in_bracket front.now }
{
    somewhere(Sought::Bracket, front)
}

/// Whether the innermost open bracket is that of a call or of parameters.
pub(crate) fn in_call(front: &[Token]) -> bool
    ensures { result ≡ spec.in_call front.now }
{
    !begins_with_word(CLASS, front) && somewhere(Sought::Call, front)
}

/// Whether a comparison was written.
pub(crate) fn is_behind_comparison(front: &[Token]) -> bool
    ensures { result ≡ spec.is_behind_comparison front.now }
{
    somewhere(Sought::Comparison, front)
}

/// Whether a parameter was written, behind `def NAME (`.
pub(crate) fn is_behind_parameter(front: &[Token]) -> bool
    ensures { result ≡ spec.is_behind_parameter front.now }
{
    match front {
        [word, _, bracket, inside @ ..] => {
            is_word(DEF, &word.kind)
                && is_sign(OPEN_ROUND, &bracket.kind)
                && closed(Stop::Nothing, inside)
                && ends_with_name(inside)
        }
        _ => false,
    }
}

/// A comparison operator: one of a single word or sign, or `not` with an `in` behind it.
pub(crate) fn is_operator(kind: &TokenKind, behind: &[Token]) -> bool
    ensures { result ≡ spec.is_operator kind.now behind.now }
{
    compares(kind) || (is_word(NOT, kind) && begins_with_word(IN, behind))
}
