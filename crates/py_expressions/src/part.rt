// Expressions as they are read: the tree, how deep it goes, and where its deepest part begins.
ghost use Rattle.std.specs.Prelude.{◌≡◌, ◌<◌, IfOk, IfErr, suc, max, false};
ghost use Rattle.py_tree.specs.Erasure.{expr_of};
ghost use Rattle.py_tree.specs.Tree.{const_expr, unary_expr, binary_expr, compare_expr, logic_expr, choose_expr};
ghost use Rattle.py_expressions.specs.Parsed.{IsMemory};
ghost use Rattle.py_expressions.specs.Lies.{deeper_of};

use crate::fault::Stop;
use prov_base::Pos;
use py_tree::{Atom, BinOp, CmpOp, Expr, LogicOp, UnOp};
use std::alloc::Global;

/// An expression as it was read.
#[derive(Drop)]
pub struct Part {
    pub expr: Box<Expr>,
    /// How many expressions lie in one another, this one counted.
    pub height: u32,
    /// The first token of the first one that lies deepest.
    pub deepest: Pos,
    /// It is of a target's form.
    pub is_target: bool,
}

/// A node in its box.
pub(crate) fn node(alloc: Global, expr: Expr) -> Result<Box<Expr>, Stop>
    ensures tree { IfOk result (λ made. expr_of made.value ≡ expr_of expr) }
    ensures memory { IfErr result IsMemory }
{
    Ok(Box::new(alloc, expr)?)
}

/// A literal, which stands at its token.
#[tactic(auto, using(py_tree::proofs::ExprTrees::expr_trees))]
pub(crate) fn literal(alloc: Global, at: Pos, atom: Atom) -> Result<Part, Stop>
    ensures tree { IfOk result (λ part. expr_of part.expr.value ≡ const_expr at atom) }
    ensures height { IfOk result (λ part. part.height ≡ 1) }
    ensures deepest { IfOk result (λ part. part.deepest ≡ at) }
    ensures other { IfOk result (λ part. part.is_target ≡ false) }
    ensures memory { IfErr result IsMemory }
{
    let expr = node(alloc, Expr::Const(at, atom))?;
    Ok(Part {
        expr,
        height: 1,
        deepest: at,
        is_target: false,
    })
}

/// `-x`, `+x` or `not x`.
#[tactic(auto, using(py_tree::proofs::ExprTrees::expr_trees))]
pub(crate) fn unary(alloc: Global, at: Pos, op: UnOp, operand: Part) -> Result<Part, Stop>
    requires operand_is_low { operand.height < 1000 }
    ensures tree { IfOk result (λ part. expr_of part.expr.value ≡ unary_expr at op (expr_of operand.expr.value)) }
    ensures height { IfOk result (λ part. part.height ≡ suc operand.height) }
    ensures deepest { IfOk result (λ part. part.deepest ≡ operand.deepest) }
    ensures other { IfOk result (λ part. part.is_target ≡ false) }
    ensures memory { IfErr result IsMemory }
{
    let expr = node(alloc, Expr::Unary(at, op, operand.expr))?;
    Ok(Part {
        expr,
        height: operand.height + 1,
        deepest: operand.deepest,
        is_target: false,
    })
}

/// Where the first one that lies deepest among two neighbours begins.
fn deepest(left: &Part, right: &Part) -> Pos
    ensures { result ≡ deeper_of left.now.height left.now.deepest right.now.height right.now.deepest }
{
    if left.height < right.height {
        right.deepest
    } else {
        left.deepest
    }
}

/// The height of a node over two others.
fn above(left: &Part, right: &Part) -> u32
    requires left_is_low { left.now.height < 1000 }
    requires right_is_low { right.now.height < 1000 }
    ensures { result ≡ suc (max left.now.height right.now.height) }
{
    left.height.max(right.height) + 1
}

/// `a or b` or `a and b`.
#[tactic(auto, using(py_tree::proofs::ExprTrees::expr_trees))]
pub(crate) fn logic(
    alloc: Global,
    at: Pos,
    op: LogicOp,
    left: Part,
    right: Part,
) -> Result<Part, Stop>
    requires left_is_low { left.height < 1000 }
    requires right_is_low { right.height < 1000 }
    ensures tree { IfOk result (λ part. expr_of part.expr.value ≡ logic_expr at op (expr_of left.expr.value) (expr_of right.expr.value)) }
    ensures height { IfOk result (λ part. part.height ≡ suc (max left.height right.height)) }
    ensures deepest { IfOk result (λ part. part.deepest ≡ deeper_of left.height left.deepest right.height right.deepest) }
    ensures other { IfOk result (λ part. part.is_target ≡ false) }
    ensures memory { IfErr result IsMemory }
{
    let height = above(&left, &right);
    let deepest = deepest(&left, &right);
    let expr = node(alloc, Expr::Logic(at, op, left.expr, right.expr))?;
    Ok(Part {
        expr,
        height,
        deepest,
        is_target: false,
    })
}

/// `a + b` and its kin.
#[tactic(auto, using(py_tree::proofs::ExprTrees::expr_trees))]
pub(crate) fn binary(
    alloc: Global,
    at: Pos,
    op: BinOp,
    left: Part,
    right: Part,
) -> Result<Part, Stop>
    requires left_is_low { left.height < 1000 }
    requires right_is_low { right.height < 1000 }
    ensures tree { IfOk result (λ part. expr_of part.expr.value ≡ binary_expr at op (expr_of left.expr.value) (expr_of right.expr.value)) }
    ensures height { IfOk result (λ part. part.height ≡ suc (max left.height right.height)) }
    ensures deepest { IfOk result (λ part. part.deepest ≡ deeper_of left.height left.deepest right.height right.deepest) }
    ensures other { IfOk result (λ part. part.is_target ≡ false) }
    ensures memory { IfErr result IsMemory }
{
    let height = above(&left, &right);
    let deepest = deepest(&left, &right);
    let expr = node(alloc, Expr::Binary(at, op, left.expr, right.expr))?;
    Ok(Part {
        expr,
        height,
        deepest,
        is_target: false,
    })
}

/// `a < b` and its kin.
#[tactic(auto, using(py_tree::proofs::ExprTrees::expr_trees))]
pub(crate) fn compare(
    alloc: Global,
    at: Pos,
    op: CmpOp,
    left: Part,
    right: Part,
) -> Result<Part, Stop>
    requires left_is_low { left.height < 1000 }
    requires right_is_low { right.height < 1000 }
    ensures tree { IfOk result (λ part. expr_of part.expr.value ≡ compare_expr at op (expr_of left.expr.value) (expr_of right.expr.value)) }
    ensures height { IfOk result (λ part. part.height ≡ suc (max left.height right.height)) }
    ensures deepest { IfOk result (λ part. part.deepest ≡ deeper_of left.height left.deepest right.height right.deepest) }
    ensures other { IfOk result (λ part. part.is_target ≡ false) }
    ensures memory { IfErr result IsMemory }
{
    let height = above(&left, &right);
    let deepest = deepest(&left, &right);
    let expr = node(alloc, Expr::Compare(at, op, left.expr, right.expr))?;
    Ok(Part {
        expr,
        height,
        deepest,
        is_target: false,
    })
}

/// `chosen if test else other`.
#[tactic(auto, using(py_tree::proofs::ExprTrees::expr_trees))]
pub(crate) fn choose(
    alloc: Global,
    at: Pos,
    test: Part,
    chosen: Part,
    other: Part,
) -> Result<Part, Stop>
    requires test_is_low { test.height < 1000 }
    requires chosen_is_low { chosen.height < 1000 }
    requires other_is_low { other.height < 1000 }
    ensures tree { IfOk result (λ part. expr_of part.expr.value ≡ choose_expr at (expr_of test.expr.value) (expr_of chosen.expr.value) (expr_of other.expr.value)) }
    ensures height { IfOk result (λ part. part.height ≡ suc (max chosen.height (max test.height other.height))) }
    ensures deepest { IfOk result (λ part. part.deepest ≡ deeper_of chosen.height chosen.deepest (max test.height other.height) (deeper_of test.height test.deepest other.height other.deepest)) }
    ensures other { IfOk result (λ part. part.is_target ≡ false) }
    ensures memory { IfErr result IsMemory }
{
    let below = test.height.max(other.height);
    let deepest = if chosen.height < below {
        deepest(&test, &other)
    } else {
        chosen.deepest
    };
    let height = chosen.height.max(below) + 1;
    let expr = node(alloc, Expr::Choose(at, test.expr, chosen.expr, other.expr))?;
    Ok(Part {
        expr,
        height,
        deepest,
        is_target: false,
    })
}
