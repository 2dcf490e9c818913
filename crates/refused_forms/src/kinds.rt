// What a kind of token is.
ghost use Rattle.std.specs.Prelude.{◌≡◌};
ghost use Rattle.py_lines.specs.declared.parts.TokenKind.TheVariants.{Keyword, Sign};
ghost use Rattle.refused_forms.specs.LineForms as spec;

use crate::words::{
    AND, AS, ASSERT, ASSIGN, ASYNC, AWAIT, BREAK, CLASS, CLOSE_CURLY, CLOSE_ROUND, CLOSE_SQUARE,
    COLON, COMMA, CONTINUE, DEF, DEL, ELSE, EQUAL, FALSE, FINALLY, FOR, FROM, GLOBAL,
    GREATER_EQUAL, IF, IMPORT, IN, IS, LAMBDA, MINUS, NONE, NONLOCAL, NOT, OPEN_CURLY, OPEN_ROUND,
    OPEN_SQUARE, OR, PASS, PERCENT_ASSIGN, PLUS, PLUS_ASSIGN, RAISE, RETURN, SEMICOLON, TRUE, TRY,
    WHILE, WITH, YIELD,
};
use py_lines::TokenKind;

/// The keyword with this number.
pub(crate) fn is_word(number: u8, kind: &TokenKind) -> bool
    ensures { result ≡ spec.is_word number kind.now }
{
    match kind {
        TokenKind::Keyword(found) => *found == number,
        _ => false,
    }
}

/// The sign with this number.
pub(crate) fn is_sign(number: u8, kind: &TokenKind) -> bool
    ensures { result ≡ spec.is_sign number kind.now }
{
    match kind {
        TokenKind::Sign(found) => *found == number,
        _ => false,
    }
}

/// An opening bracket.
pub(crate) fn opens(kind: &TokenKind) -> bool
    ensures { result ≡ spec.opens kind.now }
{
    is_sign(OPEN_ROUND, kind) || is_sign(OPEN_SQUARE, kind) || is_sign(OPEN_CURLY, kind)
}

/// A closing bracket.
pub(crate) fn closes(kind: &TokenKind) -> bool
    ensures { result ≡ spec.closes kind.now }
{
    is_sign(CLOSE_ROUND, kind) || is_sign(CLOSE_SQUARE, kind) || is_sign(CLOSE_CURLY, kind)
}

/// `+=`, `-=`, `*=`, `//=`, `%=`.
pub(crate) fn is_augmenting(kind: &TokenKind) -> bool
    ensures { result ≡ spec.is_augmenting kind.now }
{
    match kind {
        TokenKind::Sign(number) => PLUS_ASSIGN <= *number && *number <= PERCENT_ASSIGN,
        _ => false,
    }
}

/// A name.
pub(crate) fn is_name(kind: &TokenKind) -> bool
    ensures { result ≡ spec.is_name kind.now }
{
    match kind {
        TokenKind::Word(_) => true,
        _ => false,
    }
}

/// A text literal.
pub(crate) fn is_text(kind: &TokenKind) -> bool
    ensures { result ≡ spec.is_text kind.now }
{
    match kind {
        TokenKind::Text(_) => true,
        _ => false,
    }
}

/// A word or sign that stands nowhere.
pub(crate) fn is_never(kind: &TokenKind) -> bool
    ensures { result ≡ spec.is_never kind.now }
{
    match kind {
        TokenKind::Keyword(number) => is_never_word(*number),
        TokenKind::Sign(number) => SEMICOLON <= *number,
        _ => false,
    }
}

/// `async`, `await`, `finally`, `from`, `lambda`, `nonlocal` and `yield`.
fn is_never_word(number: u8) -> bool
    ensures { result ≡ spec.is_never (Keyword number) }
{
    matches!(
        number,
        ASYNC | AWAIT | FINALLY | FROM | LAMBDA | NONLOCAL | YIELD
    )
}

/// An operand may end with this: a name, a literal, a closing bracket.
pub(crate) fn ends_operand(kind: &TokenKind) -> bool
    ensures { result ≡ spec.ends_operand kind.now }
{
    match kind {
        TokenKind::Word(_) | TokenKind::Number(_) | TokenKind::Text(_) => true,
        TokenKind::Keyword(number) => matches!(*number, FALSE | NONE | TRUE),
        TokenKind::Sign(number) => matches!(*number, CLOSE_ROUND | CLOSE_SQUARE | CLOSE_CURLY),
    }
}

/// A comparison operator, or the first word of `is not`.
pub(crate) fn compares(kind: &TokenKind) -> bool
    ensures { result ≡ spec.compares kind.now }
{
    match kind {
        TokenKind::Sign(number) => EQUAL <= *number && *number <= GREATER_EQUAL,
        TokenKind::Keyword(number) => matches!(*number, IN | IS),
        _ => false,
    }
}

/// What divides the operands of one comparison from those of another.
pub(crate) fn divides(kind: &TokenKind) -> bool
    ensures { result ≡ spec.divides kind.now }
{
    match kind {
        TokenKind::Sign(number) => matches!(*number, COMMA | COLON | ASSIGN) || is_augmenting(kind),
        TokenKind::Keyword(number) => matches!(*number, AND | AS | ELSE | IF | OR),
        _ => false,
    }
}

/// A statement may begin with this, but for a `def`.
pub(crate) fn begins_statement(kind: &TokenKind) -> bool
    ensures { result ≡ spec.begins_statement kind.now }
{
    match kind {
        TokenKind::Word(_) | TokenKind::Number(_) | TokenKind::Text(_) => true,
        TokenKind::Keyword(number) => begins_statement_word(*number),
        TokenKind::Sign(number) => matches!(
            *number,
            OPEN_ROUND | OPEN_SQUARE | OPEN_CURLY | PLUS | MINUS
        ),
    }
}

/// A keyword that a statement may begin with, but for a `def`.
fn begins_statement_word(number: u8) -> bool
    ensures { result ≡ spec.begins_statement (Keyword number) }
{
    matches!(
        number,
        FALSE | NONE | TRUE | ASSERT | BREAK | CLASS | CONTINUE | DEL | FOR | GLOBAL | IF | IMPORT
    ) || matches!(number, NOT | PASS | RAISE | RETURN | TRY | WHILE | WITH)
}

/// `class`, `def`, `for`, `global`, `if`, `try`, `while`, `with`.
pub(crate) fn begins_compound(kind: &TokenKind) -> bool
    ensures { result ≡ spec.begins_compound kind.now }
{
    match kind {
        TokenKind::Keyword(number) => matches!(
            *number,
            CLASS | DEF | FOR | GLOBAL | IF | TRY | WHILE | WITH
        ),
        _ => false,
    }
}
