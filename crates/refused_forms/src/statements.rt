// The statement so far, and its parts.
ghost use Rattle.std.specs.Prelude.{◌≡◌, option_map};
ghost use Rattle.refused_forms.specs.LineForms as spec;

use crate::kinds::{closes, is_name, is_sign, is_word, opens};
use crate::words::{AS, ASSIGN, COLON, COMMA, DEF, DEL, FOR, IMPORT};
use py_lines::{Token, TokenKind};

/// What stands behind the first `:` outside brackets.
pub(crate) fn behind_colon(tokens: &[Token]) -> Option<&[Token]>
    ensures { option_map (λ behind. behind.now) result ≡ spec.behind_colon 0 tokens.now }
{
    let mut open: usize = 0;
    let mut rest = tokens;
    while let Some((token, behind)) = rest.split_first() {
        rest = behind;
        if opens(&token.kind) {
            open += 1;
            continue;
        }
        if closes(&token.kind) {
            open = open.saturating_sub(1);
            continue;
        }
        if open == 0 && is_sign(COLON, &token.kind) {
            return Some(behind);
        }
    }
    None
}

/// The simple statement so far: what stands behind the `:` of a compound one, or the line.
pub(crate) fn statement(front: &[Token]) -> &[Token]
    ensures { result.now ≡ spec.statement front.now }
{
    match behind_colon(front) {
        None => front,
        Some(behind) => behind,
    }
}

/// What stands behind the first `=`.
pub(crate) fn behind_equals(tokens: &[Token]) -> Option<&[Token]>
    ensures { option_map (λ behind. behind.now) result ≡ spec.behind_equals tokens.now }
{
    let mut rest = tokens;
    while let Some((token, behind)) = rest.split_first() {
        if is_sign(ASSIGN, &token.kind) {
            return Some(behind);
        }
        rest = behind;
    }
    None
}

/// What stands behind the last comma outside brackets.
pub(crate) fn last_part(tokens: &[Token]) -> &[Token]
    ensures { result.now ≡ spec.last_part 0 tokens.now tokens.now }
{
    let mut open: usize = 0;
    let mut part = tokens;
    let mut rest = tokens;
    while let Some((token, behind)) = rest.split_first() {
        rest = behind;
        if opens(&token.kind) {
            open += 1;
            continue;
        }
        if closes(&token.kind) {
            open = open.saturating_sub(1);
            continue;
        }
        if open == 0 && is_sign(COMMA, &token.kind) {
            part = behind;
        }
    }
    part
}

/// What may be annotated: the statement so far, without the `del` or `for` before a target.
pub(crate) fn annotated(tokens: &[Token]) -> &[Token]
    ensures { result.now ≡ spec.annotated tokens.now }
{
    match tokens.split_first() {
        None => tokens,
        Some((token, behind)) => {
            if is_word(DEL, &token.kind) || is_word(FOR, &token.kind) {
                behind
            } else {
                tokens
            }
        }
    }
}

/// Whether a token goes on with an `import` that is refused: of another module, of more than one, or under another name.
pub(crate) fn import_refused(tokens: &[Token], kind: &TokenKind) -> bool
    ensures { result ≡ spec.import_refused tokens.now kind.now }
{
    match tokens {
        [word] => is_word(IMPORT, &word.kind) && is_name(kind),
        [word, name] => {
            is_word(IMPORT, &word.kind)
                && is_name(&name.kind)
                && (is_word(AS, kind) || is_sign(COMMA, kind))
        }
        _ => false,
    }
}

/// Whether it is a method's name that is none.
pub(crate) fn method_refused(tokens: &[Token], kind: &TokenKind) -> bool
    ensures { result ≡ spec.method_refused tokens.now kind.now }
{
    match tokens {
        [word] => is_word(DEF, &word.kind) && is_name(kind),
        _ => false,
    }
}
