// Whether a refused form stands where no script goes on.
ghost use Rattle.std.specs.Prelude.{◌≡◌, ℕ, IfOk, IfErr, IfSome, IfNone, option_map};
ghost use Rattle.prov_base.specs.declared.place.Pos.{Pos};
ghost use Rattle.py_expressions.specs.declared.fault.Fault.TheVariants.{Memory};
ghost use Rattle.refused_forms.specs.LineForms.{standing};
ghost use Rattle.refused_forms.specs.RefusedForms as spec;
ghost use Rattle.refused_forms.specs.RefusedForms.{IsRefusedForm};

use crate::earlier::refused_before;
use crate::kinds::is_sign;
use crate::spellings::{is_right, place_of_first, spells_some};
use crate::standing::{Standing, standing_of};
use crate::statements::{annotated, behind_equals, statement};
use crate::table::token_refused;
use crate::words::{ASSIGN, COLON};
use prov_base::Pos;
use py_expressions::{Fault, one_expression, spelled_row};
use py_lines::{Line, Token, TokenKind};
use std::alloc::Global;

/// Before an `=`, what stands on the right side of an assignment.
fn assigned_value<'a>(front: &'a [Token], kind: &TokenKind) -> Option<&'a [Token]>
    ensures { option_map (λ tokens. tokens.now) result ≡ spec.assigned_value front.now kind.now }
{
    if is_sign(ASSIGN, kind) {
        behind_equals(statement(front))
    } else {
        None
    }
}

/// Before a `:`, what may be annotated by it.
fn annotated_part<'a>(front: &'a [Token], kind: &TokenKind) -> Option<&'a [Token]>
    ensures { option_map (λ tokens. tokens.now) result ≡ spec.annotated_part front.now kind.now }
{
    if is_sign(COLON, kind) {
        Some(annotated(statement(front)))
    } else {
        None
    }
}

/// Whether a token is an `=` directly behind the right side of an assignment.
fn is_second_equals(alloc: Global, front: &[Token], kind: &TokenKind) -> Result<bool, Fault>
    ensures found { IfOk result (spec.Decides (spec.SecondEquals front.now kind.now)) }
    ensures memory { IfErr result (λ fault. fault ≡ Memory) }
{
    let Some(tokens) = assigned_value(front, kind) else {
        return Ok(false);
    };
    let spelled = spelled_row(alloc, tokens)?;
    Ok(spells_some(spelled))
}

/// Whether a token is a `:` behind a target.
fn is_annotation(alloc: Global, front: &[Token], kind: &TokenKind) -> Result<bool, Fault>
    ensures found { IfOk result (spec.Decides (spec.Annotation front.now kind.now)) }
    ensures memory { IfErr result (λ fault. fault ≡ Memory) }
{
    one_expression();
    let Some(tokens) = annotated_part(front, kind) else {
        return Ok(false);
    };
    let spelled = spelled_row(alloc, tokens)?;
    Ok(is_right(spelled))
}

/// Whether a refused form stands at the first of these tokens.
fn refused_here(
    alloc: Global,
    place: Standing,
    front: &[Token],
    rest: &[Token],
) -> Result<bool, Fault>
    ensures found { IfOk result (spec.Decides (spec.IsRefusedHere place front.now rest.now)) }
    ensures memory { IfErr result (λ fault. fault ≡ Memory) }
{
    let Some((token, behind)) = rest.split_first() else {
        return Ok(false);
    };
    if token_refused(place, front, &token.kind, behind) {
        return Ok(true);
    }
    if is_second_equals(alloc, front, &token.kind)? {
        return Ok(true);
    }
    let found = is_annotation(alloc, front, &token.kind)?;
    Ok(found)
}

/// Whether a form that this profile refuses stands where no script goes on with a line, and the place that is named: of the lines before it,
/// its indentation in columns, its tokens so far (`front`) and those from the one with which no script goes on (`rest`, empty at the end of
/// the line).
pub fn refused_form(
    alloc: Global,
    before: &[Line],
    indent: u32,
    front: &[Token],
    rest: &[Token],
) -> Result<Option<Pos>, Fault>
    ensures refused { IfOk result (λ found. IfSome found (IsRefusedForm (standing indent before.now) front.now rest.now)) }
    ensures none { IfOk result (λ found. IfNone found ((place : Pos) → IsRefusedForm (standing indent before.now) front.now rest.now place → ⊥)) }
    ensures memory { IfErr result (λ fault. fault ≡ Memory) }
{
    let place = standing_of(indent, before);
    if let Some(at) = refused_before(alloc, place, front, rest)? {
        return Ok(Some(at));
    }
    if refused_here(alloc, place, front, rest)? {
        return Ok(place_of_first(rest));
    }
    Ok(None)
}
