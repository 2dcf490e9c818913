// What stands between the keyword of a compound statement, or of a part of one, and its `:`. Each function begins behind the
// keyword.
ghost use Rattle.std.specs.Prelude.{◌≡◌, IfOk, IfErr};
ghost use Rattle.py_grammar.specs.ParsedSimple.{around_of};
ghost use Rattle.py_grammar.specs.ParsedHead.{Context as Standing, OpeningFound, OpeningRefused};

use crate::around::Around;
use crate::head::What;
use crate::names::{base, for_target, may_be_method, naming, params};
use py_expressions::words::IN;
use py_expressions::{Cursor, Fault, ROOM, Stop};
use std::alloc::Global;

/// `"if" expr`
pub(crate) fn if_opening(cursor: &mut Cursor<'_>, alloc: Global) -> Result<What, Stop>
    ensures found { (c : Standing) → IfOk result (λ what. OpeningFound c 20 cursor.old.rest.now what cursor.new.rest.now) }
    ensures refused { (c : Standing) → IfErr result (OpeningRefused c 20 cursor.old.rest.now) }
{
    let test = cursor.expr(alloc, ROOM)?;
    Ok(What::If(Box::into_inner(test.expr)))
}

/// `"elif" expr`
pub(crate) fn elif_opening(cursor: &mut Cursor<'_>, alloc: Global) -> Result<What, Stop>
    ensures found { (c : Standing) → IfOk result (λ what. OpeningFound c 13 cursor.old.rest.now what cursor.new.rest.now) }
    ensures refused { (c : Standing) → IfErr result (OpeningRefused c 13 cursor.old.rest.now) }
{
    let test = cursor.expr(alloc, ROOM)?;
    Ok(What::Elif(Box::into_inner(test.expr)))
}

/// `"while" expr`
pub(crate) fn while_opening(cursor: &mut Cursor<'_>, alloc: Global) -> Result<What, Stop>
    ensures found { (c : Standing) → IfOk result (λ what. OpeningFound c 32 cursor.old.rest.now what cursor.new.rest.now) }
    ensures refused { (c : Standing) → IfErr result (OpeningRefused c 32 cursor.old.rest.now) }
{
    let test = cursor.expr(alloc, ROOM)?;
    Ok(What::While(Box::into_inner(test.expr)))
}

/// `"for" target "in" exprs`
pub(crate) fn for_opening(cursor: &mut Cursor<'_>, alloc: Global) -> Result<What, Stop>
    ensures found { (c : Standing) → IfOk result (λ what. OpeningFound c 17 cursor.old.rest.now what cursor.new.rest.now) }
    ensures refused { (c : Standing) → IfErr result (OpeningRefused c 17 cursor.old.rest.now) }
{
    let target = for_target(cursor, alloc)?;
    cursor.keyword(IN)?;
    let items = cursor.exprs(alloc, ROOM)?;
    Ok(What::For(Box::into_inner(target), Box::into_inner(items.expr)))
}

/// `"with" expr ["as" NAME]`
pub(crate) fn with_opening(cursor: &mut Cursor<'_>, alloc: Global) -> Result<What, Stop>
    ensures found { (c : Standing) → IfOk result (λ what. OpeningFound c 33 cursor.old.rest.now what cursor.new.rest.now) }
    ensures refused { (c : Standing) → IfErr result (OpeningRefused c 33 cursor.old.rest.now) }
{
    let value = cursor.expr(alloc, ROOM)?;
    let bound = naming(cursor, alloc)?;
    Ok(What::With(Box::into_inner(value.expr), bound))
}

/// `"except" [expr ["as" NAME]]`
pub(crate) fn except_opening(cursor: &mut Cursor<'_>, alloc: Global) -> Result<What, Stop>
    ensures found { (c : Standing) → IfOk result (λ what. OpeningFound c 15 cursor.old.rest.now what cursor.new.rest.now) }
    ensures refused { (c : Standing) → IfErr result (OpeningRefused c 15 cursor.old.rest.now) }
{
    if !cursor.at_expr() {
        return Ok(What::Except(None, None));
    }
    let class = cursor.expr(alloc, ROOM)?;
    let bound = naming(cursor, alloc)?;
    Ok(What::Except(Some(Box::into_inner(class.expr)), bound))
}

/// `"def" NAME "(" [NAME { "," NAME } [","]] ")"`
pub(crate) fn def_opening(
    cursor: &mut Cursor<'_>,
    alloc: Global,
    around: Around,
) -> Result<What, Stop>
    ensures found { (c : Standing) → c.around ≡ around_of around → IfOk result (λ what. OpeningFound c 11 cursor.old.rest.now what cursor.new.rest.now) }
    ensures refused { (c : Standing) → c.around ≡ around_of around → IfErr result (OpeningRefused c 11 cursor.old.rest.now) }
{
    let (_, name) = cursor.name(alloc)?;
    // A function stands at module level, or it is a method.
    if !around.at_module_level && !may_be_method(&name) {
        return Err(Stop::Here(Fault::Unexpected(cursor.rest.len())));
    }
    let params = params(cursor, alloc)?;
    Ok(What::Def(name, params))
}

/// `"class" NAME ["(" [NAME] ")"]`
pub(crate) fn class_opening(cursor: &mut Cursor<'_>, alloc: Global) -> Result<What, Stop>
    ensures found { (c : Standing) → IfOk result (λ what. OpeningFound c 9 cursor.old.rest.now what cursor.new.rest.now) }
    ensures refused { (c : Standing) → IfErr result (OpeningRefused c 9 cursor.old.rest.now) }
{
    let (_, name) = cursor.name(alloc)?;
    let base = base(cursor, alloc)?;
    Ok(What::Class(name, base))
}
