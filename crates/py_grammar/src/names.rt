// The parts of a compound statement's first line that are names and targets.
ghost use Rattle.std.specs.Prelude.{◌≡◌, ◌≤◌, IfOk, IfErr, option_map};
ghost use Rattle.py_lines.specs.declared.parts.TokenKind.TheVariants.{Keyword};
ghost use Rattle.py_tree.specs.Erasure.{expr_of, target_of as target_tree_of};
ghost use Rattle.py_expressions.specs.Reader.{begins_name};
ghost use Rattle.py_expressions.specs.Parsed.{Refused, Taken, one_keyword, IsAtFirst};
ghost use Rattle.py_grammar.specs.ParsedHead.{Took, target_part, params_part, naming_part, base_part, GlobalFound, GlobalRefused};
ghost use Rattle.py_grammar.specs.ParsedNames.{RefusedAmiss, all_names, IsGiven, OthersFound, IsRepeated, DifferentFound, bracket_part, ParamsFound, IsRepeatedIn, target_rest_part, TargetsRefused, TargetFound, ItemFound, ItemRefused, FoundTargets};
ghost use Rattle.py_grammar.specs.StatementTrees.{naming_bound, base_tree};
ghost use Rattle.py_grammar.specs.WellPlaced.{is_special as special_name, may_be_method as method_name};

use crate::name_set::{Given, NameSet};
use crate::simple::end;
use crate::targets::{one_target, target_of};
use prov_base::{Name, Pos};
use py_expressions::words::{AS, CLOSE_ROUND, COMMA, OPEN_ROUND};
use py_expressions::{Cursor, Fault, Part, ROOM, Row, Stop, goes_above, tuple};
use py_lines::TokenKind;
use py_tree::{Bound, Expr, Globals, Params, Target};
use std::alloc::Global;

/// `target = target1 { "," target1 } [","]`, each of which is read as a sum.
pub(crate) fn for_target(cursor: &mut Cursor<'_>, alloc: Global) -> Result<Box<Target>, Stop>
    ensures found { IfOk result (λ target. TargetFound cursor.old.rest.now (target_tree_of target.value) cursor.new.rest.now) }
    ensures refused { IfErr result (TargetsRefused target_part 100 cursor.old.rest.now) }
{
    let first = target_item(cursor, alloc, ROOM)?;
    let Some(at) = cursor.take_sign(COMMA) else {
        let target = Box::new(alloc, one_target(first.expr))?;
        return Ok(target);
    };
    goes_above(&first, ROOM)?;
    let mut row = Row::new(alloc, at);
    row.push(first)?;
    let row = more_targets(cursor, alloc, row)?;
    let part = tuple(alloc, at, row)?;
    let found = target_of(alloc, part.expr)?;
    let target = Box::new(alloc, found)?;
    Ok(target)
}

/// A row of targets with what stands behind a comma: `[target1 { "," target1 } [","]]`
fn more_targets(cursor: &mut Cursor<'_>, alloc: Global, mut row: Row) -> Result<Row, Stop>
    requires row_fits { row.height ≤ 99 }
    ensures found { IfOk result (λ more. FoundTargets 99 cursor.old.rest.now row more cursor.new.rest.now) }
    ensures refused { IfErr result (TargetsRefused target_rest_part 99 cursor.old.rest.now) }
{
    while cursor.at_expr() {
        let next = target_item(cursor, alloc, ROOM - 1)?;
        row.push(next)?;
        let Some(_) = cursor.take_sign(COMMA) else {
            return Ok(row);
        };
    }
    Ok(row)
}

/// `target1`, which is read as a sum.
fn target_item(cursor: &mut Cursor<'_>, alloc: Global, room: u32) -> Result<Part, Stop>
    requires { room ≤ 100 }
    ensures found { IfOk result (λ part. ItemFound room cursor.old.rest.now part cursor.new.rest.now) }
    ensures refused { IfErr result (ItemRefused room cursor.old.rest.now) }
{
    let item = cursor.sum(alloc, room)?;
    if !item.is_target {
        return Err(cursor.refuse());
    }
    Ok(item)
}

/// `["as" NAME]`
pub(crate) fn naming(cursor: &mut Cursor<'_>, alloc: Global) -> Result<Option<Bound>, Stop>
    ensures found { IfOk result (λ bound. Took naming_part naming_bound cursor.old.rest.now bound cursor.new.rest.now) }
    ensures refused { IfErr result (Refused naming_part 100 cursor.old.rest.now) }
{
    let Some(_) = cursor.take_keyword(AS) else {
        return Ok(None);
    };
    let (at, name) = cursor.name(alloc)?;
    Ok(Some(Bound { at, name }))
}

/// `["(" [NAME] ")"]`
pub(crate) fn base(cursor: &mut Cursor<'_>, alloc: Global) -> Result<Option<Expr>, Stop>
    ensures found { IfOk result (λ base. Took base_part base_tree cursor.old.rest.now (option_map expr_of base) cursor.new.rest.now) }
    ensures refused { IfErr result (Refused base_part 100 cursor.old.rest.now) }
{
    let Some(_) = cursor.take_sign(OPEN_ROUND) else {
        return Ok(None);
    };
    if !at_name(cursor) {
        cursor.sign(CLOSE_ROUND)?;
        return Ok(None);
    }
    let (at, name) = cursor.name(alloc)?;
    cursor.sign(CLOSE_ROUND)?;
    Ok(Some(Expr::Var(at, name)))
}

/// `"(" [NAME { "," NAME } [","]] ")"`: the names of parameters, all different.
pub(crate) fn params(cursor: &mut Cursor<'_>, alloc: Global) -> Result<Params, Stop>
    ensures found { IfOk result (λ params. ParamsFound cursor.old.rest.now params.list.items cursor.new.rest.now) }
    ensures refused { IfErr result (RefusedAmiss bracket_part IsRepeatedIn cursor.old.rest.now) }
{
    cursor.sign(OPEN_ROUND)?;
    let list = different_names(cursor, alloc)?;
    cursor.sign(CLOSE_ROUND)?;
    Ok(Params { list })
}

/// `[NAME { "," NAME } [","]]`, all different.
fn different_names(cursor: &mut Cursor<'_>, alloc: Global) -> Result<Vec<Name>, Stop>
    ensures found { IfOk result (λ list. DifferentFound cursor.old.rest.now list.items cursor.new.rest.now) }
    ensures refused { IfErr result (RefusedAmiss params_part IsRepeated cursor.old.rest.now) }
{
    let mut list = Vec::new(alloc);
    let mut seen = NameSet::new(alloc);
    while at_name(cursor) {
        let (_, name) = cursor.name(alloc)?;
        if seen.contains(&name) {
            return Err(Stop::Here(Fault::Unexpected(cursor.rest.len())));
        }
        seen.add(alloc, &name)?;
        list.push(name)?;
        let Some(_) = cursor.take_sign(COMMA) else {
            return Ok(list);
        };
    }
    Ok(list)
}

/// `NAME { "," NAME }` up to the end of the line, behind `global`: none of them is one of the given parameters.
pub(crate) fn global_names(
    cursor: &mut Cursor<'_>,
    alloc: Global,
    given: &Given<'_>,
) -> Result<Globals, Stop>
    ensures found { IfOk result (GlobalFound given.now cursor.old.rest.now) }
    ensures refused { IfErr result (GlobalRefused given.now cursor.old.rest.now) }
{
    let list = other_names(cursor, alloc, given)?;
    end(cursor)?;
    Ok(Globals { list })
}

/// `NAME { "," NAME }`, none of which is one of the given parameters.
fn other_names(cursor: &mut Cursor<'_>, alloc: Global, given: &Given<'_>) -> Result<Vec<Name>, Stop>
    ensures found { IfOk result (λ list. OthersFound given.now cursor.old.rest.now list.items cursor.new.rest.now) }
    ensures refused { IfErr result (RefusedAmiss all_names (IsGiven given.now) cursor.old.rest.now) }
{
    let mut list = Vec::new(alloc);
    loop {
        let (_, name) = cursor.name(alloc)?;
        if given.contains(&name) {
            return Err(Stop::Here(Fault::Unexpected(cursor.rest.len())));
        }
        list.push(name)?;
        let Some(_) = cursor.take_sign(COMMA) else {
            return Ok(list);
        };
    }
}

/// The next token is a name.
fn at_name(cursor: &Cursor<'_>) -> bool
    ensures { result ≡ begins_name cursor.now.rest.now }
{
    let Some(token) = cursor.rest.first() else {
        return false;
    };
    matches!(&token.kind, TokenKind::Word(_))
}

/// A method may have this name: one `__x__` is none but `__init__`.
pub(crate) fn may_be_method(name: &Name) -> bool
    ensures { result ≡ method_name name.now }
{
    !is_special(name) || name.as_str() == "__init__"
}

/// The name is `__x__`, with something between.
fn is_special(name: &Name) -> bool
    ensures { result ≡ special_name name.now }
{
    let name = name.as_str();
    let opens = name.starts_with("__");
    let closes = name.ends_with("__");
    name.len() > 4 && opens && closes
}
