// Targets, made of expressions that have their form.
ghost use Rattle.std.specs.Prelude.{◌≡◌, true, is_some, Some, IfOk};
ghost use Rattle.py_tree.specs.Erasure.{expr_of, exprs_of, target_of as target_tree_of, targets_of as targets_tree_of};
ghost use Rattle.py_grammar.specs.ParsedSimple.{target_form, targets_form, all_target_form};

use py_tree::{Expr, Exprs, Target, Targets};
use std::alloc::{AllocError, Global};

/// `target1 = NAME | prim "[" exprs "]" | prim "." NAME`
pub(crate) fn one_target(expr: Box<Expr>) -> Target
    requires form { is_some (target_form (expr_of expr.value)) ≡ true }
    ensures { target_form (expr_of expr.value) ≡ Some (target_tree_of result) }
{
    item_target(Box::into_inner(expr))
}

/// The same, of one that stands in no box.
#[tactic(auto, using(py_tree::proofs::ExprTrees::expr_trees, py_tree::proofs::TargetTrees::target_trees))]
fn item_target(expr: Expr) -> Target
    requires form { is_some (target_form (expr_of expr)) ≡ true }
    ensures { target_form (expr_of expr) ≡ Some (target_tree_of result) }
{
    match expr {
        Expr::Var(at, name) => Target::Var(at, name),
        Expr::Part(at, object, index) => Target::Part(
            at,
            Box::into_inner(object),
            Box::into_inner(index),
        ),
        Expr::Attr(at, object, name) => Target::Field(at, Box::into_inner(object), name),
        _ => unreachable!(),
    }
}

/// `target1 { "," target1 } [","]`, of which these are the expressions.
fn targets_of(alloc: Global, exprs: Exprs) -> Result<Targets, AllocError>
    requires form { is_some (targets_form (exprs_of exprs)) ≡ true }
    ensures { IfOk result (λ targets. targets_form (exprs_of exprs) ≡ Some (targets_tree_of targets)) }
{
    let mut list = Vec::new(alloc);
    for expr in exprs.list {
        list.push(item_target(expr))?;
    }
    Ok(Targets { list })
}

/// `target = target1 { "," target1 } [","]`
pub(crate) fn target_of(alloc: Global, expr: Box<Expr>) -> Result<Target, AllocError>
    requires form { is_some (all_target_form (expr_of expr.value)) ≡ true }
    ensures { IfOk result (λ target. all_target_form (expr_of expr.value) ≡ Some (target_tree_of target)) }
{
    let target = row_target(alloc, Box::into_inner(expr))?;
    Ok(target)
}

/// The same, of one that stands in no box.
#[tactic(auto, using(py_tree::proofs::ExprTrees::expr_trees, py_tree::proofs::TargetTrees::target_trees))]
fn row_target(alloc: Global, expr: Expr) -> Result<Target, AllocError>
    requires form { is_some (all_target_form (expr_of expr)) ≡ true }
    ensures { IfOk result (λ target. all_target_form (expr_of expr) ≡ Some (target_tree_of target)) }
{
    match expr {
        Expr::Tuple(_, exprs) => Ok(Target::Many(targets_of(alloc, exprs)?)),
        single => Ok(item_target(single)),
    }
}
