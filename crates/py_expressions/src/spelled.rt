// What tokens spell as a whole, seen as a target: they are read by the functions of the grammar, and must all be read.
ghost use Rattle.std.specs.Prelude.{◌≡◌, false, IfOk, IfErr};
ghost use Rattle.py_tree.specs.Erasure.{expr_of};
ghost use Rattle.py_expressions.specs.declared.fault.Fault.TheVariants.{Memory};
ghost use Rattle.py_expressions.specs.Spelled.{IsExpr, IsSum, IsRow, TellsRow, FormRead};
ghost use Rattle.py_expressions.specs.Parsed.{Refused, expr_part};
ghost use Rattle.py_expressions.specs.Spelled as spec;

use crate::cursor::Cursor;
use crate::fault::{Fault, Stop};
use crate::operators::ROOM;
use crate::part::Part;
use crate::words::COMMA;
use prov_base::Pos;
use py_lines::Token;
use py_tree::Expr;
use std::alloc::Global;

/// What tokens spell as a whole, seen as a target.
#[derive(Clone, Copy, Debug)]
pub enum Spelled {
    /// Nothing that is asked for within the limit of depth.
    Nothing,
    /// A target: a name, an item, or of `spelled_row` several targets.
    Target,
    /// An attribute, whose `.` stands there (not of `spelled_row`, where an attribute is a target as others).
    Field(Pos),
    /// Of another form than a target's: where the first part that is wrong begins.
    Wrong(Pos),
}

/// What the tokens spell as one expression. It fails only for lack of memory.
pub fn spelled_expr(alloc: Global, tokens: &[Token]) -> Result<Spelled, Fault>
    ensures spelled { IfOk result (IsExpr tokens.now) }
    ensures memory { IfErr result (λ fault. fault ≡ Memory) }
{
    let mut cursor = Cursor { rest: tokens };
    match cursor.expr(alloc, ROOM) {
        Ok(part) => {
            if cursor.rest.is_empty() {
                Ok(form_of(&part, tokens))
            } else {
                Ok(Spelled::Nothing)
            }
        }
        Err(stop) => {
            unless_memory(stop)?;
            Ok(Spelled::Nothing)
        }
    }
}

/// What the tokens spell as a sum, as which the target of a `for` is read. It fails only for lack of memory.
pub fn spelled_sum(alloc: Global, tokens: &[Token]) -> Result<Spelled, Fault>
    ensures spelled { IfOk result (IsSum tokens.now) }
    ensures memory { IfErr result (λ fault. fault ≡ Memory) }
{
    let mut cursor = Cursor { rest: tokens };
    match cursor.sum(alloc, ROOM) {
        Ok(part) => {
            if cursor.rest.is_empty() {
                Ok(form_of(&part, tokens))
            } else {
                Ok(Spelled::Nothing)
            }
        }
        Err(stop) => {
            unless_memory(stop)?;
            Ok(Spelled::Nothing)
        }
    }
}

/// What the tokens spell as expressions in a row. It fails only for lack of memory.
pub fn spelled_row(alloc: Global, tokens: &[Token]) -> Result<Spelled, Fault>
    ensures spelled { IfOk result (IsRow tokens.now) }
    ensures memory { IfErr result (λ fault. fault ≡ Memory) }
{
    let mut cursor = Cursor { rest: tokens };
    match cursor.exprs(alloc, ROOM) {
        Ok(part) => {
            if !cursor.rest.is_empty() {
                return Ok(Spelled::Nothing);
            }
            if part.is_target {
                return Ok(Spelled::Target);
            }
            let form = first_wrong(alloc, tokens)?;
            Ok(form)
        }
        Err(stop) => {
            unless_memory(stop)?;
            Ok(Spelled::Nothing)
        }
    }
}

/// Where the first of expressions in a row begins that has no target's form: they are read one by one. Nothing is said of
/// tokens that are no such row.
fn first_wrong(alloc: Global, tokens: &[Token]) -> Result<Spelled, Fault>
    ensures tells { IfOk result (TellsRow tokens.now) }
    ensures memory { IfErr result (λ fault. fault ≡ Memory) }
{
    let mut cursor = Cursor { rest: tokens };
    while let Some((token, _)) = cursor.rest.split_first() {
        let at = token.at;
        let is_target = match reads_target(&mut cursor, alloc) {
            Ok(is_target) => is_target,
            Err(stop) => {
                unless_memory(stop)?;
                return Ok(Spelled::Nothing);
            }
        };
        if !is_target {
            return Ok(Spelled::Wrong(at));
        }
        let Some(_) = cursor.take_sign(COMMA) else {
            return Ok(Spelled::Target);
        };
    }
    Ok(Spelled::Target)
}

/// `expr`, of which only whether it is of a target's form is kept.
fn reads_target(cursor: &mut Cursor<'_>, alloc: Global) -> Result<bool, Stop>
    ensures found { IfOk result (λ fine. FormRead cursor.old.rest.now fine cursor.new.rest.now) }
    ensures refused { IfErr result (Refused expr_part 100 cursor.old.rest.now) }
{
    let part = cursor.expr(alloc, ROOM)?;
    Ok(part.is_target)
}

/// The form of an expression that these tokens are.
fn form_of(part: &Part, tokens: &[Token]) -> Spelled
    ensures { result ≡ spec.form_of (part.now.is_target) (expr_of part.now.expr.value) tokens.now }
{
    if !part.is_target {
        return match tokens.first() {
            Some(token) => Spelled::Wrong(token.at),
            None => Spelled::Nothing,
        };
    }
    match &*part.expr {
        Expr::Attr(dot, _, _) => Spelled::Field(*dot),
        _ => Spelled::Target,
    }
}

/// Reading stopped because of the tokens, and not for lack of memory.
fn unless_memory(stop: Stop) -> Result<(), Fault>
    ensures tokens { IfOk result (λ _. spec.is_memory stop ≡ false) }
    ensures memory { IfErr result (λ fault. fault ≡ Memory) }
{
    if is_memory(stop) {
        Err(Fault::Memory)
    } else {
        Ok(())
    }
}

/// Reading stopped for lack of memory.
fn is_memory(stop: Stop) -> bool
    ensures { result ≡ spec.is_memory stop }
{
    matches!(stop, Stop::Here(Fault::Memory))
}
