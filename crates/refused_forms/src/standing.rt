// Where a line stands among the lines before it.
ghost use Rattle.std.specs.Prelude.{◌≡◌, None, option_map};
ghost use Rattle.refused_forms.specs.LineForms as spec;

use crate::kinds::is_word;
use crate::words::{CLASS, EXCEPT, FOR, TRY, WHILE};
use py_lines::{Line, TokenKind};

/// Where a line stands, as far as the table asks.
#[derive(Clone, Copy)]
pub struct Standing {
    /// In the suite of a `class`.
    pub in_class: bool,
    /// Behind a loop, a `try` or a handler of its own indentation.
    pub after_loop: bool,
    /// Behind a `try` that lacks its handler.
    pub lacks: bool,
}

/// The kind of the first token of a line.
fn first_kind(line: &Line) -> Option<&TokenKind>
    ensures { option_map (λ kind. kind.now) result ≡ spec.first_kind line.now }
{
    match line.tokens.as_slice().split_first() {
        None => None,
        Some((token, _)) => Some(&token.kind),
    }
}

/// Whether there is such a token, which is this keyword.
fn begins_with(number: u8, kind: Option<&TokenKind>) -> bool
    ensures { result ≡ spec.begins_with (spec.is_word number) (option_map (λ kind. kind.now) kind.entry) }
{
    match kind {
        None => false,
        Some(kind) => is_word(number, kind),
    }
}

/// How the last of these lines begins that is indented less.
fn owner_of(indent: u32, before: &[Line]) -> Option<&TokenKind>
    ensures { option_map (λ kind. kind.now) result ≡ spec.owner_of indent None before.now }
{
    let mut owner = None;
    for line in before {
        if indent <= line.indent {
            continue;
        }
        owner = first_kind(line);
    }
    owner
}

/// How the last of these lines begins that has this indentation, if none behind it is indented less.
fn previous_of(indent: u32, before: &[Line]) -> Option<&TokenKind>
    ensures { option_map (λ kind. kind.now) result ≡ spec.previous_of indent None before.now }
{
    let mut previous = None;
    for line in before {
        if line.indent == indent {
            previous = first_kind(line);
            continue;
        }
        if indent <= line.indent {
            continue;
        }
        previous = None;
    }
    previous
}

/// Whether all these lines are indented more.
fn are_deeper(indent: u32, lines: &[Line]) -> bool
    ensures { result ≡ spec.all_deeper indent lines.now }
{
    for line in lines {
        if line.indent <= indent {
            return false;
        }
    }
    true
}

/// Whether one of these lines is a `try` that is indented more, and nothing but its suite follows.
fn lacks_handler(indent: u32, before: &[Line]) -> bool
    ensures { result ≡ spec.lacks_handler indent before.now }
{
    let mut rest = before;
    while let Some((line, behind)) = rest.split_first() {
        if indent < line.indent
            && begins_with(TRY, first_kind(line))
            && are_deeper(line.indent, behind)
        {
            return true;
        }
        rest = behind;
    }
    false
}

/// Where a line of this indentation stands, behind these lines.
pub(crate) fn standing_of(indent: u32, before: &[Line]) -> Standing
    ensures { result ≡ spec.standing indent before.now }
{
    let owner = owner_of(indent, before);
    let previous = previous_of(indent, before);
    let inside = lacks_handler(indent, before);
    Standing {
        in_class: begins_with(CLASS, owner),
        after_loop: follows_loop(inside, previous),
        lacks: inside || begins_with(TRY, previous),
    }
}

/// Whether the line before at this indentation belongs to a loop or a `try`, and no `try` further in lacks its handler.
fn follows_loop(inside: bool, previous: Option<&TokenKind>) -> bool
    ensures { result ≡ spec.follows_loop inside (option_map (λ kind. kind.now) previous.entry) }
{
    !inside
        && (begins_with(WHILE, previous)
            || begins_with(FOR, previous)
            || begins_with(TRY, previous)
            || begins_with(EXCEPT, previous))
}
