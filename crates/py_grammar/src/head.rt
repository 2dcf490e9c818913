// The lines of a script: a simple statement, or what begins a compound one or a part of it, up to what stands behind its `:`.
ghost use Rattle.std.specs.Prelude.{◌≡◌, ◌==◌, ℕ, List, Bool, true, false, is_some, IfSome, IfNone, IfOk, IfErr};
ghost use Rattle.py_lines.specs.declared.parts.TokenKind.TheVariants.{Keyword};
ghost use Rattle.py_expressions.specs.Parsed.{Taken};
ghost use Rattle.py_grammar.specs.ParsedSimple.{around_of};
ghost use Rattle.py_grammar.specs.ParsedHead.{Context as Standing, context_of, inner_around, is_compound, begins_compound, may_begin, kind_may, may_be_alone, is_refused_kind, is_text_kind, IsRefusedInClass, IsFirstRefused, FirstMay, Misplaced, BehindFound, BehindRefused, HeadFound, HeadRefused, OpeningFound, OpeningRefused, PlacedFound, PlacedRefused};

use crate::around::Around;
use crate::context::{Context, Last, Limit};
use crate::name_set::Given;
use crate::names::global_names;
use crate::openings::{
    class_opening, def_opening, elif_opening, except_opening, for_opening, if_opening,
    while_opening, with_opening,
};
use crate::simple::simple;
use prov_base::{Name, Pos};
use py_expressions::words::{
    CLASS, COLON, DEF, ELIF, ELSE, EXCEPT, FOR, GLOBAL, IF, PASS, TRY, WHILE, WITH,
};
use py_expressions::{Cursor, Fault, Stop};
use py_lines::{Token, TokenKind};
use py_tree::{Bound, Expr, Form, Globals, Params, Target};
use std::alloc::Global;

/// What a line begins, without what stands behind its `:`.
#[derive(Drop)]
pub enum What {
    /// A statement that is one line.
    Simple(Form),
    /// `"if" expr`.
    If(Expr),
    /// `"elif" expr`.
    Elif(Expr),
    /// `else`
    Else,
    /// `"while" expr`.
    While(Expr),
    /// `"for" target "in" exprs`.
    For(Target, Expr),
    /// `try`
    Try,
    /// `"except" [expr ["as" NAME]]`.
    Except(Option<Expr>, Option<Bound>),
    /// `"with" expr ["as" NAME]`.
    With(Expr, Option<Bound>),
    /// `"def" NAME "(" [NAME { "," NAME } [","]] ")"`.
    Def(Name, Params),
    /// `"class" NAME ["(" [NAME] ")"]`.
    Class(Name, Option<Expr>),
    /// `"global" NAME { "," NAME }`.
    Global(Globals),
}

/// The statement behind a `:`, with the place and the first byte of its first token.
#[derive(Drop)]
pub struct Behind {
    pub at: Pos,
    pub from: u32,
    pub form: Form,
}

/// A line as it was read.
#[derive(Drop)]
pub struct LineHead {
    pub what: What,
    pub behind: Option<Behind>,
}

/// The line that these tokens are, where one of them may stand. `given` are the parameters of the function in whose suite a
/// `global` line may stand; a statement behind the `:` that would pass the limit is refused.
pub fn read_head(
    alloc: Global,
    tokens: &[Token],
    context: Context,
    given: &[Name],
    limit: Option<Limit>,
) -> Result<LineHead, Stop>
    ensures found { IfOk result (HeadFound (context_of context) given.now limit tokens.now) }
    ensures refused { IfErr result (HeadRefused (context_of context) given.now limit tokens.now) }
    // Either the first token may stand there, or it is the one that is refused.
    ensures first { IfErr result (FirstMay (context_of context) tokens.now) }
{
    let mut cursor = Cursor { rest: tokens };
    if let Some(stop) = misplaced(&cursor, context) {
        return Err(stop);
    }
    let given = Given::of(alloc, given)?;
    head(&mut cursor, alloc, context, &given, limit)
}

/// The same, where the parameters are looked up by their names: in the time of the line, however many they are.
pub fn read_line_head(
    alloc: Global,
    tokens: &[Token],
    context: Context,
    given: &Given<'_>,
    limit: Option<Limit>,
) -> Result<LineHead, Stop>
    ensures found { IfOk result (HeadFound (context_of context) given.now limit tokens.now) }
    ensures refused { IfErr result (HeadRefused (context_of context) given.now limit tokens.now) }
    ensures first { IfErr result (FirstMay (context_of context) tokens.now) }
{
    let mut cursor = Cursor { rest: tokens };
    if let Some(stop) = misplaced(&cursor, context) {
        return Err(stop);
    }
    head(&mut cursor, alloc, context, given, limit)
}

/// The line that all the tokens are, with the first of which a line may begin there.
fn head(
    cursor: &mut Cursor<'_>,
    alloc: Global,
    context: Context,
    given: &Given<'_>,
    limit: Option<Limit>,
) -> Result<LineHead, Stop>
    requires fine { may_begin (context_of context) cursor.old.rest.now ≡ true }
    ensures found { IfOk result (HeadFound (context_of context) given.now limit cursor.old.rest.now) }
    ensures refused { IfErr result (HeadRefused (context_of context) given.now limit cursor.old.rest.now) }
{
    let Some((word, _)) = take_compound(cursor) else {
        let form = placed(cursor, alloc, context.around, None)?;
        return Ok(LineHead {
            what: What::Simple(form),
            behind: None,
        });
    };
    if word == GLOBAL {
        let names = global_names(cursor, alloc, given)?;
        return Ok(LineHead {
            what: What::Global(names),
            behind: None,
        });
    }
    let what = opening(cursor, alloc, word, context.around)?;
    cursor.sign(COLON)?;
    let behind = read_behind(cursor, alloc, suite_around(word, context.around), limit)?;
    Ok(LineHead { what, behind })
}

/// That no statement or part of one may begin with the next token here.
fn misplaced(cursor: &Cursor<'_>, context: Context) -> Option<Stop>
    ensures refused { IfSome result (Misplaced (context_of context) cursor.now.rest.now) }
    ensures first { IfSome result (IsFirstRefused (context_of context) cursor.now.rest.now) }
    ensures fine { IfNone result (may_begin (context_of context) cursor.now.rest.now ≡ true) }
{
    let (token, behind) = cursor.rest.split_first()?;
    if may_stand(context, &token.kind) {
        return None;
    }
    Some(Stop::Here(Fault::Unexpected(behind.len())))
}

/// The keyword of a compound statement, of a part of one or of a `global` line, which is taken where it is next.
#[tactic(auto, using(py_expressions::proofs::Taking::taken))]
fn take_compound(cursor: &mut Cursor<'_>) -> Option<(u8, Pos)>
    ensures taken { IfSome result (λ found. Taken (Keyword found.0) cursor.old.rest.now found.1 cursor.new.rest.now) }
    ensures word { IfSome result (λ found. is_compound found.0 ≡ true) }
    ensures absent { IfNone result (begins_compound cursor.old.rest.now ≡ false) }
    ensures kept { IfNone result (cursor.new.rest.now ≡ cursor.old.rest.now) }
{
    let (token, rest) = cursor.rest.split_first()?;
    match &token.kind {
        TokenKind::Keyword(word) if begins_clause(*word) => {
            cursor.rest = rest;
            Some((*word, token.at))
        }
        _ => None,
    }
}

/// What stands between the keyword of a compound statement or of a part of one and its `:`.
fn opening(cursor: &mut Cursor<'_>, alloc: Global, word: u8, around: Around) -> Result<What, Stop>
    requires word { is_compound word ≡ true }
    requires other { (word == 19) ≡ false }
    ensures found { (c : Standing) → c.around ≡ around_of around → IfOk result (λ what. OpeningFound c word cursor.old.rest.now what cursor.new.rest.now) }
    ensures refused { (c : Standing) → c.around ≡ around_of around → IfErr result (OpeningRefused c word cursor.old.rest.now) }
{
    match word {
        IF => if_opening(cursor, alloc),
        ELIF => elif_opening(cursor, alloc),
        ELSE => Ok(What::Else),
        WHILE => while_opening(cursor, alloc),
        FOR => for_opening(cursor, alloc),
        TRY => Ok(What::Try),
        EXCEPT => except_opening(cursor, alloc),
        WITH => with_opening(cursor, alloc),
        DEF => def_opening(cursor, alloc, around),
        _ => class_opening(cursor, alloc),
    }
}

/// What stands behind the `:`, up to the end of the line.
fn read_behind(
    cursor: &mut Cursor<'_>,
    alloc: Global,
    around: Around,
    limit: Option<Limit>,
) -> Result<Option<Behind>, Stop>
    ensures found { IfOk result (BehindFound (around_of around) limit cursor.old.rest.now) }
    ensures refused { IfErr result (BehindRefused (around_of around) limit cursor.old.rest.now) }
{
    let Some((token, _)) = cursor.rest.split_first() else {
        return Ok(None);
    };
    let (at, from) = (token.at, token.span.from);
    let form = placed(cursor, alloc, around, limit)?;
    Ok(Some(Behind { at, from, form }))
}

/// The simple statement that all the tokens are, where one may stand. A limit that it would pass is named at its first
/// token.
fn placed(
    cursor: &mut Cursor<'_>,
    alloc: Global,
    around: Around,
    limit: Option<Limit>,
) -> Result<Form, Stop>
    ensures found { IfOk result (PlacedFound (around_of around) cursor.old.rest.now) }
    ensures within { IfOk result (λ _. is_some limit ≡ false) }
    ensures refused { IfErr result (PlacedRefused (around_of around) limit cursor.old.rest.now) }
{
    let Some((token, behind)) = cursor.rest.split_first() else {
        return Err(Stop::End);
    };
    let at = token.at;
    if let Some(limit) = limit {
        return Err(Stop::Here(limit.fault(at)));
    }
    if around.in_class && !is_alone(&token.kind, behind) {
        return Err(refuse_in_class(cursor));
    }
    if !around.in_class && is_refused_word(&token.kind) {
        return Err(Stop::Here(Fault::Unexpected(behind.len())));
    }
    let form = simple(cursor, alloc, around)?;
    Ok(form)
}

/// That the next token begins nothing that may stand in a class, or is a text that is not alone, which the token behind it shows.
fn refuse_in_class(cursor: &Cursor<'_>) -> Stop
    ensures { IsRefusedInClass cursor.now.rest.now result }
{
    let Some((token, behind)) = cursor.rest.split_first() else {
        return Stop::End;
    };
    match (&token.kind, behind.split_first()) {
        (TokenKind::Text(_), Some((_, more))) => Stop::Here(Fault::Unexpected(more.len())),
        _ => Stop::Here(Fault::Unexpected(behind.len())),
    }
}

/// A text with nothing behind it, or `pass`.
fn is_alone(kind: &TokenKind, behind: &[Token]) -> bool
    ensures { result ≡ may_be_alone kind.now behind.now }
{
    match kind {
        TokenKind::Text(_) => behind.is_empty(),
        TokenKind::Keyword(word) => *word == PASS,
        _ => false,
    }
}

/// The word of a statement that is refused where a simple one stands: `def`, `class` or `global`.
fn is_refused_word(kind: &TokenKind) -> bool
    ensures { result ≡ is_refused_kind kind.now }
{
    matches!(kind, TokenKind::Keyword(DEF | CLASS | GLOBAL))
}

/// The suite of what begins with this keyword.
fn suite_around(word: u8, around: Around) -> Around
    ensures { around_of result ≡ inner_around word (around_of around) }
{
    match word {
        WHILE | FOR => around.in_loop_suite(),
        EXCEPT => around.in_handler_suite(),
        DEF => Around::in_def_suite(),
        CLASS => Around::in_class_suite(),
        _ => around.in_suite(),
    }
}

/// The keyword begins a compound statement, a part of one or a `global` line.
fn begins_clause(word: u8) -> bool
    ensures { result ≡ is_compound word }
{
    matches!(
        word,
        CLASS | DEF | ELIF | ELSE | EXCEPT | FOR | GLOBAL | IF | TRY | WHILE | WITH
    )
}

/// A statement or a part of one may begin with a token of this kind here.
fn may_stand(context: Context, kind: &TokenKind) -> bool
    ensures { result ≡ kind_may (context_of context) kind.now }
{
    let around = context.around;
    let lacks_handler = context.last == Last::Try;
    match kind {
        TokenKind::Keyword(ELIF | ELSE) => context.last == Last::If,
        TokenKind::Keyword(EXCEPT) => lacks_handler || context.last == Last::Handler,
        TokenKind::Keyword(GLOBAL) => !lacks_handler && context.may_declare,
        TokenKind::Keyword(DEF) => !lacks_handler && (around.at_module_level || around.in_class),
        TokenKind::Keyword(CLASS) => !lacks_handler && around.at_module_level,
        TokenKind::Keyword(IF | WHILE | FOR | TRY | WITH) => !lacks_handler && !around.in_class,
        _ => !lacks_handler,
    }
}
