// Simple statements: a function for each form, which reads what stands behind its keyword up to the end of the line.
ghost use Rattle.std.specs.Prelude.{◌≡◌, IfOk, IfErr, IfSome, IfNone, None, option_map, true, false, []};
ghost use Rattle.py_lines.specs.declared.parts.TokenKind.TheVariants.{Keyword, Sign};
ghost use Rattle.py_tree.specs.Erasure.{expr_of};
ghost use Rattle.py_grammar.specs.WellPlaced.{is_module as is_module_name};
ghost use Rattle.py_grammar.specs.StatementReader.{aug_sign_of};
ghost use Rattle.py_grammar.specs.StatementTrees.{aug_op};
ghost use Rattle.py_expressions.specs.Parsed.{Taken};
ghost use Rattle.py_grammar.specs.ParsedSimple.{around_of, SimpleFound, SimpleRefused, FoundAnywhere, RefusedAnywhere, FoundBehind, RefusedBehind, FoundBehindAny, RefusedBehindAny, IsMore, begins_word, is_word, IsRow, FoundAfter, RefusedAfter, FoundAfterOp, RefusedAfterOp, TakenAug, aug_sign_next, is_tuple_tree};

use crate::around::Around;
use crate::targets::{one_target, target_of};
use prov_base::{Name, Pos};
use py_expressions::words::{
    ASSERT, ASSIGN, BREAK, COMMA, CONTINUE, DEL, FLOOR_DIVIDE_ASSIGN, IMPORT, MINUS_ASSIGN, PASS,
    PERCENT_ASSIGN, PLUS_ASSIGN, RAISE, RETURN, STAR_ASSIGN,
};
use py_expressions::{Cursor, Fault, Part, ROOM, Stop};
use py_lines::TokenKind;
use py_tree::{BinOp, Expr, Form};
use std::alloc::Global;

/// `simple`: the statement that all the tokens are.
pub(crate) fn simple(cursor: &mut Cursor<'_>, alloc: Global, around: Around) -> Result<Form, Stop>
    ensures found { IfOk result (SimpleFound (around_of around) cursor.old.rest.now) }
    ensures refused { IfErr result (SimpleRefused (around_of around) cursor.old.rest.now) }
{
    let Some((word, _)) = take_word(cursor) else {
        return expression(cursor, alloc);
    };
    match word {
        DEL => del(cursor, alloc),
        PASS => pass(cursor),
        BREAK => break_loop(cursor, around),
        CONTINUE => continue_loop(cursor, around),
        RETURN => return_value(cursor, alloc, around),
        RAISE => raise(cursor, alloc, around),
        ASSERT => assert_test(cursor, alloc),
        _ => import(cursor, alloc),
    }
}

/// The keyword of a simple statement, which is taken where it is the next token.
#[tactic(auto, using(py_expressions::proofs::Taking::taken))]
fn take_word(cursor: &mut Cursor<'_>) -> Option<(u8, Pos)>
    ensures taken { IfSome result (λ found. Taken (Keyword found.0) cursor.old.rest.now found.1 cursor.new.rest.now) }
    ensures word { IfSome result (λ found. is_word found.0 ≡ true) }
    ensures absent { IfNone result (begins_word cursor.old.rest.now ≡ false) }
    ensures kept { IfNone result (cursor.new.rest.now ≡ cursor.old.rest.now) }
{
    let (token, rest) = cursor.rest.split_first()?;
    match &token.kind {
        TokenKind::Keyword(word) if begins_simple(*word) => {
            cursor.rest = rest;
            Some((*word, token.at))
        }
        _ => None,
    }
}

/// The line ends here.
pub(crate) fn end(cursor: &Cursor<'_>) -> Result<(), Stop>
    ensures ended { IfOk result (λ _. cursor.now.rest.now ≡ []) }
    ensures more { IfErr result (IsMore cursor.now.rest.now) }
{
    match cursor.rest.first() {
        None => Ok(()),
        Some(_) => Err(cursor.refuse()),
    }
}

/// `pass`, behind it.
fn pass(cursor: &mut Cursor<'_>) -> Result<Form, Stop>
    ensures found { IfOk result (FoundBehindAny 28 cursor.old.rest.now) }
    ensures refused { IfErr result (RefusedBehindAny 28 cursor.old.rest.now) }
{
    end(cursor)?;
    Ok(Form::Pass)
}

/// `break`, behind it.
fn break_loop(cursor: &mut Cursor<'_>, around: Around) -> Result<Form, Stop>
    ensures found { IfOk result (FoundBehind 8 (around_of around) cursor.old.rest.now) }
    ensures refused { IfErr result (RefusedBehind 8 (around_of around) cursor.old.rest.now) }
{
    if !around.in_loop {
        return Err(Stop::Here(Fault::Unexpected(cursor.rest.len())));
    }
    end(cursor)?;
    Ok(Form::Break)
}

/// `continue`, behind it.
fn continue_loop(cursor: &mut Cursor<'_>, around: Around) -> Result<Form, Stop>
    ensures found { IfOk result (FoundBehind 10 (around_of around) cursor.old.rest.now) }
    ensures refused { IfErr result (RefusedBehind 10 (around_of around) cursor.old.rest.now) }
{
    if !around.in_loop {
        return Err(Stop::Here(Fault::Unexpected(cursor.rest.len())));
    }
    end(cursor)?;
    Ok(Form::Continue)
}

/// `"return" [exprs]`, behind the `return`.
fn return_value(cursor: &mut Cursor<'_>, alloc: Global, around: Around) -> Result<Form, Stop>
    ensures found { IfOk result (FoundBehind 30 (around_of around) cursor.old.rest.now) }
    ensures refused { IfErr result (RefusedBehind 30 (around_of around) cursor.old.rest.now) }
{
    if !around.in_function {
        return Err(Stop::Here(Fault::Unexpected(cursor.rest.len())));
    }
    if cursor.rest.is_empty() {
        return Ok(Form::Return(None));
    }
    let value = cursor.exprs(alloc, ROOM)?;
    end(cursor)?;
    Ok(Form::Return(Some(Box::into_inner(value.expr))))
}

/// `"raise" [expr]`, behind the `raise`.
fn raise(cursor: &mut Cursor<'_>, alloc: Global, around: Around) -> Result<Form, Stop>
    ensures found { IfOk result (FoundBehind 29 (around_of around) cursor.old.rest.now) }
    ensures refused { IfErr result (RefusedBehind 29 (around_of around) cursor.old.rest.now) }
{
    if cursor.rest.is_empty() {
        if around.in_handler {
            return Ok(Form::Raise(None));
        }
        return Err(Stop::End);
    }
    let value = cursor.expr(alloc, ROOM)?;
    end(cursor)?;
    Ok(Form::Raise(Some(Box::into_inner(value.expr))))
}

/// `"assert" expr ["," expr]`, behind the `assert`.
fn assert_test(cursor: &mut Cursor<'_>, alloc: Global) -> Result<Form, Stop>
    ensures found { IfOk result (FoundBehindAny 5 cursor.old.rest.now) }
    ensures refused { IfErr result (RefusedBehindAny 5 cursor.old.rest.now) }
{
    let test = cursor.expr(alloc, ROOM)?;
    let Some(_) = cursor.take_sign(COMMA) else {
        end(cursor)?;
        return Ok(Form::Assert(Box::into_inner(test.expr), None));
    };
    let message = cursor.expr(alloc, ROOM)?;
    end(cursor)?;
    Ok(Form::Assert(
        Box::into_inner(test.expr),
        Some(Box::into_inner(message.expr)),
    ))
}

/// `"import" NAME`, behind the `import`: one of three modules.
fn import(cursor: &mut Cursor<'_>, alloc: Global) -> Result<Form, Stop>
    ensures found { IfOk result (FoundBehindAny 21 cursor.old.rest.now) }
    ensures refused { IfErr result (RefusedBehindAny 21 cursor.old.rest.now) }
{
    let (_, name) = cursor.name(alloc)?;
    if !is_module(&name) {
        return Err(Stop::Here(Fault::Unexpected(cursor.rest.len())));
    }
    end(cursor)?;
    Ok(Form::Import(name))
}

/// `"del" target1`, behind the `del`.
fn del(cursor: &mut Cursor<'_>, alloc: Global) -> Result<Form, Stop>
    ensures found { IfOk result (FoundBehindAny 12 cursor.old.rest.now) }
    ensures refused { IfErr result (RefusedBehindAny 12 cursor.old.rest.now) }
{
    let target = cursor.expr(alloc, ROOM)?;
    if !target.is_target {
        return Err(cursor.refuse());
    }
    if let Expr::Attr(_, _, _) = &*target.expr {
        return Err(cursor.refuse());
    }
    end(cursor)?;
    Ok(Form::Del(one_target(target.expr)))
}

/// `exprs`, `target "=" exprs`, or `target1` with an operator and `exprs`.
fn expression(cursor: &mut Cursor<'_>, alloc: Global) -> Result<Form, Stop>
    requires { begins_word cursor.old.rest.now ≡ false }
    ensures found { IfOk result (FoundAnywhere cursor.old.rest.now) }
    ensures refused { IfErr result (RefusedAnywhere cursor.old.rest.now) }
{
    let first = cursor.exprs(alloc, ROOM)?;
    if cursor.take_sign(ASSIGN).is_some() {
        return assign(cursor, alloc, first);
    }
    if let Some((at, op)) = take_assigning(cursor) {
        return augmented(cursor, alloc, first, at, op);
    }
    end(cursor)?;
    Ok(Form::Do(Box::into_inner(first.expr)))
}

/// `target "=" exprs`, behind the `=`.
fn assign(cursor: &mut Cursor<'_>, alloc: Global, first: Part) -> Result<Form, Stop>
    requires first_is_row { IsRow first }
    ensures found { IfOk result (FoundAfter first cursor.old.rest.now) }
    ensures refused { IfErr result (RefusedAfter first cursor.old.rest.now) }
{
    if !first.is_target {
        return Err(Stop::Here(Fault::Unexpected(cursor.rest.len())));
    }
    let value = cursor.exprs(alloc, ROOM)?;
    end(cursor)?;
    let target = target_of(alloc, first.expr)?;
    Ok(Form::Assign(target, Box::into_inner(value.expr)))
}

/// `target1 ("+=" | "-=" | "*=" | "//=" | "%=") exprs`, behind the operator.
fn augmented(
    cursor: &mut Cursor<'_>,
    alloc: Global,
    first: Part,
    at: Pos,
    op: BinOp,
) -> Result<Form, Stop>
    requires first_is_row { IsRow first }
    ensures found { IfOk result (FoundAfterOp first at op cursor.old.rest.now) }
    ensures refused { IfErr result (RefusedAfterOp first at op cursor.old.rest.now) }
{
    if is_tuple(&*first.expr) {
        return Err(Stop::Here(Fault::Unexpected(cursor.rest.len())));
    }
    if !first.is_target {
        return Err(Stop::Here(Fault::Unexpected(cursor.rest.len())));
    }
    let value = cursor.exprs(alloc, ROOM)?;
    end(cursor)?;
    let target = one_target(first.expr);
    Ok(Form::Aug(target, op, at, Box::into_inner(value.expr)))
}

/// The operator of an augmented assignment, which is taken where it is the next token.
#[tactic(auto, using(crate::proofs::AugForms::aug_taken))]
fn take_assigning(cursor: &mut Cursor<'_>) -> Option<(Pos, BinOp)>
    ensures taken { IfSome result (λ found. TakenAug cursor.old.rest.now found.0 found.1 cursor.new.rest.now) }
    ensures absent { IfNone result (aug_sign_next cursor.old.rest.now ≡ None) }
    ensures kept { IfNone result (cursor.new.rest.now ≡ cursor.old.rest.now) }
{
    let (token, rest) = cursor.rest.split_first()?;
    let TokenKind::Sign(number) = &token.kind else {
        return None;
    };
    let op = assigning(*number)?;
    cursor.rest = rest;
    Some((token.at, op))
}

/// The keyword begins a simple statement.
pub(crate) fn begins_simple(word: u8) -> bool
    ensures { result ≡ is_word word }
{
    matches!(
        word,
        ASSERT | BREAK | CONTINUE | DEL | IMPORT | PASS | RAISE | RETURN
    )
}

/// The operator with this sign in front of its `=`.
fn assigning(number: u8) -> Option<BinOp>
    ensures { result ≡ option_map aug_op (aug_sign_of (Sign number)) }
{
    match number {
        PLUS_ASSIGN => Some(BinOp::Add),
        MINUS_ASSIGN => Some(BinOp::Sub),
        STAR_ASSIGN => Some(BinOp::Mul),
        FLOOR_DIVIDE_ASSIGN => Some(BinOp::FloorDiv),
        PERCENT_ASSIGN => Some(BinOp::Mod),
        _ => None,
    }
}

/// `sys`, `time` and `random` can be imported.
fn is_module(name: &Name) -> bool
    ensures { result ≡ is_module_name name.now }
{
    let name = name.as_str();
    name == "sys" || name == "time" || name == "random"
}

/// The expression is a tuple.
fn is_tuple(expr: &Expr) -> bool
    ensures { result ≡ is_tuple_tree (expr_of expr.now) }
{
    matches!(expr, Expr::Tuple(_, _))
}
