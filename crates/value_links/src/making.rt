// Points and links as the forms of a script have them.
ghost use Rattle.std.specs.Prelude.{◌≡◌, Some, None};
ghost use Rattle.py_tree.specs.Erasure.{expr_of};
ghost use Rattle.py_tree.specs.Functions.{expr_place};
ghost use Rattle.value_links.specs.Links.{link, of_many, or_rather, point, value_of};

use crate::link::{Link, Point};
use prov_base::Pos;
use py_tree::Expr;

/// What an Enter is to those whose answers it takes.
pub const AN_ENTER: u8 = 200;

/// What a `return` is to those whose answers it takes.
pub const A_RETURN: u8 = 201;

/// An operation at a place.
pub(crate) fn point(at: Pos, kind: u8) -> Point
    ensures { result ≡ point at kind }
{
    Point { at, kind }
}

/// An operation takes the answer of another one.
pub(crate) fn link(at: Pos, kind: u8, from: Point) -> Link
    ensures { result ≡ link at kind from }
{
    Link {
        to: Point { at, kind },
        least: 0,
        from,
        rival: None,
    }
}

/// An operation takes the answer of another one, unless its rival is later.
pub(crate) fn or_rather(at: Pos, kind: u8, from: Point, rival: Point) -> Link
    ensures { result ≡ or_rather at kind from rival }
{
    Link {
        to: Point { at, kind },
        least: 0,
        from,
        rival: Some(rival),
    }
}

/// The same link of an operation with so many values or more.
pub(crate) fn of_many(least: usize, link: Link) -> Link
    ensures { result ≡ of_many least link }
{
    Link {
        to: link.to,
        least,
        from: link.from,
        rival: link.rival,
    }
}

/// The place of an expression.
#[tactic(auto, using(py_tree::proofs::ExprTrees::expr_trees))]
pub(crate) fn place_of(expr: &Expr) -> Pos
    ensures { result ≡ expr_place (expr_of expr.now) }
{
    match expr {
        Expr::Const(at, _) => *at,
        Expr::Var(at, _) => *at,
        Expr::Unary(at, _, _) => *at,
        Expr::Binary(at, _, _, _) => *at,
        Expr::Compare(at, _, _, _) => *at,
        Expr::Logic(at, _, _, _) => *at,
        Expr::Choose(at, _, _, _) => *at,
        Expr::Call(at, _, _) => *at,
        Expr::Attr(at, _, _) => *at,
        Expr::Part(at, _, _) => *at,
        Expr::Range(at, _, _, _) => *at,
        Expr::List(at, _) => *at,
        Expr::Dict(at, _) => *at,
        Expr::Tuple(at, _) => *at,
    }
}

/// The operation that gives the value of an expression.
pub(crate) fn value_of(expr: &Expr) -> Point
    ensures { result ≡ value_of (expr_of expr.now) }
{
    Point {
        at: place_of(expr),
        kind: 0,
    }
}
