// Refused forms that show behind their tokens: what is named is an earlier one.
ghost use Rattle.std.specs.Prelude.{◌≡◌, IfOk, IfErr, option_map};
ghost use Rattle.py_expressions.specs.declared.fault.Fault.TheVariants.{Memory};
ghost use Rattle.refused_forms.specs.LineForms.{in_class, is_first};
ghost use Rattle.refused_forms.specs.RefusedForms as spec;

use crate::brackets::{Stop, begins_with_word, closed};
use crate::kinds::{compares, is_augmenting, is_sign, is_text, is_word};
use crate::spellings::{named_place, single_wrong, wrong_part};
use crate::standing::Standing;
use crate::statements::{behind_colon, last_part, statement};
use crate::words::{ASSIGN, CLASS, DEL, FOR, NOT, RAISE};
use prov_base::Pos;
use py_expressions::{Fault, one_expression, spelled_expr, spelled_row, spelled_sum};
use py_lines::Token;
use std::alloc::Global;

/// Whether what stands behind these tokens on its line stands in a class.
fn is_in_class(place: Standing, front: &[Token]) -> bool
    ensures { result ≡ in_class place front.now }
{
    match behind_colon(front) {
        None => place.in_class,
        Some(_) => begins_with_word(CLASS, front),
    }
}

/// Where these tokens are a text and nothing behind it.
fn text_place(tokens: &[Token]) -> Option<Pos>
    ensures { result ≡ spec.text_place tokens.now }
{
    match tokens {
        [token] => {
            if is_text(&token.kind) {
                Some(token.at)
            } else {
                None
            }
        }
        _ => None,
    }
}

/// Where a text stands in a class behind which something else stands.
fn text_in_class(place: Standing, front: &[Token]) -> Option<Pos>
    ensures { result ≡ spec.text_in_class place front.now }
{
    if is_in_class(place, front) {
        text_place(statement(front))
    } else {
        None
    }
}

/// Before an `=`, the targets.
fn assigned<'a>(front: &'a [Token], rest: &[Token]) -> Option<&'a [Token]>
    ensures { option_map (λ tokens. tokens.now) result ≡ spec.assigned front.now rest.now }
{
    match rest.split_first() {
        None => None,
        Some((token, _)) => {
            if is_sign(ASSIGN, &token.kind) {
                Some(statement(front))
            } else {
                None
            }
        }
    }
}

/// Before the operator of an augmented assignment, the target.
fn augmented<'a>(front: &'a [Token], rest: &[Token]) -> Option<&'a [Token]>
    ensures { option_map (λ tokens. tokens.now) result ≡ spec.augmented front.now rest.now }
{
    match rest.split_first() {
        None => None,
        Some((token, _)) => {
            if is_augmenting(&token.kind) {
                Some(statement(front))
            } else {
                None
            }
        }
    }
}

/// What stands behind the first of these tokens, if it is this keyword.
fn behind_word(number: u8, tokens: &[Token]) -> Option<&[Token]>
    ensures { option_map (λ behind. behind.now) result ≡ spec.behind_word number tokens.now }
{
    match tokens.split_first() {
        None => None,
        Some((token, behind)) => {
            if is_word(number, &token.kind) {
                Some(behind)
            } else {
                None
            }
        }
    }
}

/// Whether a comparison goes on with the first of these tokens.
fn goes_on(rest: &[Token]) -> bool
    ensures { result ≡ is_first spec.goes_on rest.now }
{
    match rest.split_first() {
        None => false,
        Some((token, _)) => compares(&token.kind) || is_word(NOT, &token.kind),
    }
}

/// The target of a `del`, unless a comparison goes on.
fn deleted<'a>(front: &'a [Token], rest: &[Token]) -> Option<&'a [Token]>
    ensures { option_map (λ tokens. tokens.now) result ≡ spec.deleted front.now rest.now }
{
    if goes_on(rest) {
        None
    } else {
        behind_word(DEL, statement(front))
    }
}

/// Behind a `for` without its `in` so far, the last target.
fn last_target(tokens: Option<&[Token]>) -> Option<&[Token]>
    ensures { option_map (λ part. part.now) result ≡ spec.last_target (option_map (λ part. part.now) tokens.entry) }
{
    match tokens {
        None => None,
        Some(tokens) => {
            if closed(Stop::LoopWord, tokens) {
                Some(last_part(tokens))
            } else {
                None
            }
        }
    }
}

/// The last target of the `for` that a line begins with, where its `:` was not written.
fn loop_target(front: &[Token]) -> Option<&[Token]>
    ensures { option_map (λ tokens. tokens.now) result ≡ spec.loop_target front.now }
{
    match behind_colon(front) {
        None => last_target(behind_word(FOR, front)),
        Some(_) => None,
    }
}

/// Where these tokens are a `raise` of nothing.
fn raise_place(tokens: &[Token]) -> Option<Pos>
    ensures { result ≡ spec.raise_place tokens.now }
{
    match tokens {
        [word] => {
            if is_word(RAISE, &word.kind) {
                Some(word.at)
            } else {
                None
            }
        }
        _ => None,
    }
}

/// Where a `raise` of nothing stands before the end of a line.
fn bare_raise(front: &[Token], rest: &[Token]) -> Option<Pos>
    ensures { result ≡ spec.bare_raise front.now rest.now }
{
    match rest.split_first() {
        None => raise_place(statement(front)),
        Some(_) => None,
    }
}

/// The first of several targets that is of another form, before an `=`.
fn wrong_target(alloc: Global, front: &[Token], rest: &[Token]) -> Result<Option<Pos>, Fault>
    ensures found { IfOk result (spec.IsFound (spec.WrongTarget front.now rest.now)) }
    ensures memory { IfErr result (λ fault. fault ≡ Memory) }
{
    one_expression();
    let Some(tokens) = assigned(front, rest) else {
        return Ok(None);
    };
    let spelled = spelled_row(alloc, tokens)?;
    Ok(wrong_part(spelled))
}

/// What is no single target, before the operator of an augmented assignment.
fn wrong_augmented(alloc: Global, front: &[Token], rest: &[Token]) -> Result<Option<Pos>, Fault>
    ensures found { IfOk result (spec.IsFound (spec.WrongAugmented front.now rest.now)) }
    ensures memory { IfErr result (λ fault. fault ≡ Memory) }
{
    one_expression();
    let Some(tokens) = augmented(front, rest) else {
        return Ok(None);
    };
    let single = spelled_expr(alloc, tokens)?;
    let row = spelled_row(alloc, tokens)?;
    Ok(single_wrong(single, row, tokens))
}

/// Behind `del` what is no target, and at its `.` an attribute.
fn wrong_deleted(alloc: Global, front: &[Token], rest: &[Token]) -> Result<Option<Pos>, Fault>
    ensures found { IfOk result (spec.IsFound (spec.WrongDeleted front.now rest.now)) }
    ensures memory { IfErr result (λ fault. fault ≡ Memory) }
{
    one_expression();
    let Some(tokens) = deleted(front, rest) else {
        return Ok(None);
    };
    let spelled = spelled_expr(alloc, tokens)?;
    Ok(named_place(spelled))
}

/// The last target of a `for` so far, which is of another form.
fn wrong_loop(alloc: Global, front: &[Token]) -> Result<Option<Pos>, Fault>
    ensures found { IfOk result (spec.IsFound (spec.WrongLoop front.now)) }
    ensures memory { IfErr result (λ fault. fault ≡ Memory) }
{
    one_expression();
    let Some(tokens) = loop_target(front) else {
        return Ok(None);
    };
    let spelled = spelled_sum(alloc, tokens)?;
    Ok(wrong_part(spelled))
}

/// Where a refused form stands whose first token is an earlier one.
pub(crate) fn refused_before(
    alloc: Global,
    place: Standing,
    front: &[Token],
    rest: &[Token],
) -> Result<Option<Pos>, Fault>
    ensures found { IfOk result (spec.IsFound (spec.IsRefusedBefore place front.now rest.now)) }
    ensures memory { IfErr result (λ fault. fault ≡ Memory) }
{
    if let Some(at) = text_in_class(place, front) {
        return Ok(Some(at));
    }
    if let Some(at) = bare_raise(front, rest) {
        return Ok(Some(at));
    }
    if let Some(at) = wrong_target(alloc, front, rest)? {
        return Ok(Some(at));
    }
    if let Some(at) = wrong_augmented(alloc, front, rest)? {
        return Ok(Some(at));
    }
    if let Some(at) = wrong_deleted(alloc, front, rest)? {
        return Ok(Some(at));
    }
    let found = wrong_loop(alloc, front)?;
    Ok(found)
}
