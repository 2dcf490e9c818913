// The rows of the table that look at tokens alone.
ghost use Rattle.std.specs.Prelude.{◌≡◌};
ghost use Rattle.refused_forms.specs.LineForms as spec;

use crate::brackets::{
    begins_with_word, ends_with_operand, in_bracket, in_call, is_behind_comparison,
    is_behind_parameter, is_operator,
};
use crate::kinds::{begins_compound, begins_statement, is_never, is_sign, is_word};
use crate::standing::Standing;
use crate::statements::{behind_colon, import_refused, method_refused, statement};
use crate::words::{ASSIGN, CLASS, COLON, DEF, ELSE, FOR, GLOBAL, STAR};
use py_lines::{Token, TokenKind};

/// Whether the first token of a line is refused.
fn first_refused(place: Standing, kind: &TokenKind) -> bool
    ensures { result ≡ spec.first_refused place kind.now }
{
    (is_word(ELSE, kind) && place.after_loop)
        || (!place.lacks && begins_compound(kind))
        || (!place.lacks && place.in_class && begins_statement(kind))
}

/// Whether the first token behind the `:` of a compound statement is refused.
fn behind_colon_refused(front: &[Token], kind: &TokenKind) -> bool
    ensures { result ≡ spec.behind_colon_refused front.now kind.now }
{
    if begins_with_word(CLASS, front) {
        begins_statement(kind)
    } else {
        is_word(CLASS, kind) || is_word(DEF, kind) || is_word(GLOBAL, kind)
    }
}

/// Whether these tokens end with the `:` of a compound statement.
fn ends_with_colon(front: &[Token]) -> bool
    ensures { result ≡ spec.ends_with_colon front.now }
{
    match behind_colon(front) {
        None => false,
        Some(behind) => behind.is_empty(),
    }
}

/// Whether a first token of a line, or of what stands behind its `:`, is refused.
fn start_refused(place: Standing, front: &[Token], kind: &TokenKind) -> bool
    ensures { result ≡ spec.start_refused place front.now kind.now }
{
    match front.split_first() {
        None => first_refused(place, kind),
        Some(_) => ends_with_colon(front) && behind_colon_refused(front, kind),
    }
}

/// Whether a second comparison begins.
fn compares_again(front: &[Token], kind: &TokenKind, behind: &[Token]) -> bool
    ensures { result ≡ spec.compares_again front.now kind.now behind.now }
{
    is_operator(kind, behind) && ends_with_operand(front) && is_behind_comparison(front)
}

/// Whether a token is refused in the brackets where it stands.
fn refused_inside(front: &[Token], kind: &TokenKind) -> bool
    ensures { result ≡ spec.refused_inside front.now kind.now }
{
    ((is_sign(ASSIGN, kind) || is_sign(STAR, kind)) && in_call(front))
        || (is_sign(COLON, kind) && is_behind_parameter(front))
        || (is_word(FOR, kind) && in_bracket(front))
}

/// Whether a token is refused behind these tokens of its line, and before those behind it.
pub(crate) fn token_refused(
    place: Standing,
    front: &[Token],
    kind: &TokenKind,
    behind: &[Token],
) -> bool
    ensures { result ≡ spec.token_refused place front.now kind.now behind.now }
{
    is_never(kind)
        || start_refused(place, front, kind)
        || import_refused(statement(front), kind)
        || method_refused(front, kind)
        || compares_again(front, kind, behind)
        || refused_inside(front, kind)
}
