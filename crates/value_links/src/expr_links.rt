// The links of an expression.
ghost use Rattle.std.specs.Prelude.{◌≡◌, ◌∷◌, ◌++◌, [], OnOk};
ghost use Rattle.std.specs.Option.{option_map};
ghost use Rattle.py_tree.specs.Erasure.{expr_of, exprs_of, pairs_of, maybe_tree};
ghost use Rattle.py_tree.specs.Functions.{expr_place};
ghost use Rattle.value_links.specs.Calls.{arguments_to, called_with, callee_links, owner_with};
ghost use Rattle.value_links.specs.Links.{bound_links, call_links, each_to, expr_links, exprs_links, link, or_rather, owner_links, pairs_links, point, value_of};

use crate::link::{Link, Point};
use crate::making::{AN_ENTER, link, of_many, or_rather, place_of, point, value_of};
use prov_base::{Memory, Pos};
use py_tree::{Expr, Exprs, Pairs};

// An operator takes the value of its operand.
pub(crate) fn put_one(at: Pos, e: &Expr, links: &mut Vec<Link>) -> Result<(), Memory>
    ensures { OnOk result (links.new.items ≡ links.old.items ++ link at 4 (value_of (expr_of e.now)) ∷ []) }
{
    links.push(link(at, 4, value_of(e)))?;
    Ok(())
}

// An operator takes the values of its operands.
pub(crate) fn put_both(
    at: Pos,
    left: &Expr,
    right: &Expr,
    links: &mut Vec<Link>,
) -> Result<(), Memory>
    ensures { OnOk result (links.new.items ≡ links.old.items ++ link at 4 (value_of (expr_of left.now)) ∷ link at 4 (value_of (expr_of right.now)) ∷ []) }
{
    links.push(link(at, 4, value_of(left)))?;
    links.push(link(at, 4, value_of(right)))?;
    Ok(())
}

// A test takes the value that is tested.
pub(crate) fn put_test(test: &Expr, links: &mut Vec<Link>) -> Result<(), Memory>
    ensures { OnOk result (links.new.items ≡ links.old.items ++ link (expr_place (expr_of test.now)) 3 (value_of (expr_of test.now)) ∷ []) }
{
    links.push(link(place_of(test), 3, value_of(test)))?;
    Ok(())
}

// The value of one of two expressions is taken: that of the later one.
fn put_either(at: Pos, one: &Expr, other: &Expr, links: &mut Vec<Link>) -> Result<(), Memory>
    ensures { OnOk result (links.new.items
        ≡ links.old.items ++ or_rather at 2 (value_of (expr_of one.now)) (value_of (expr_of other.now)) ∷ or_rather at 2 (value_of (expr_of other.now)) (value_of (expr_of one.now)) ∷ []) }
{
    links.push(or_rather(at, 2, value_of(one), value_of(other)))?;
    links.push(or_rather(at, 2, value_of(other), value_of(one)))?;
    Ok(())
}

// An operation takes the values of all these.
fn put_each(at: Pos, kind: u8, items: &Exprs, links: &mut Vec<Link>) -> Result<(), Memory>
    ensures { OnOk result (links.new.items ≡ links.old.items ++ each_to at kind (exprs_of items.now)) }
{
    for e in &items.list {
        links.push(link(at, kind, value_of(e)))?;
    }
    Ok(())
}

// All that a call can be takes the values of the arguments.
fn put_arguments(at: Pos, arguments: &Exprs, links: &mut Vec<Link>) -> Result<(), Memory>
    ensures { OnOk result (links.new.items ≡ links.old.items ++ arguments_to at (exprs_of arguments.now)) }
{
    put_each(at, 50, arguments, links)?;
    put_each(at, 80, arguments, links)?;
    put_each(at, 39, arguments, links)?;
    put_each(at, 38, arguments, links)?;
    put_each(at, AN_ENTER, arguments, links)?;
    Ok(())
}

// What a call takes of what is called, where so many values are the arguments and one more, or two more.
fn put_called(
    at: Pos,
    called: Point,
    one: usize,
    two: usize,
    links: &mut Vec<Link>,
) -> Result<(), Memory>
    ensures { OnOk result (links.new.items ≡ links.old.items ++ called_with at called one two) }
{
    let class = point(at, 39);
    links.push(link(at, 39, called))?;
    links.push(link(at, 38, called))?;
    links.push(or_rather(at, 2, class, called))?;
    links.push(of_many(one, link(at, AN_ENTER, class)))?;
    links.push(of_many(two, link(at, 38, class)))?;
    Ok(())
}

// What a call takes of the value whose attribute is called.
fn put_owner(
    at: Pos,
    owner: &Expr,
    one: usize,
    two: usize,
    links: &mut Vec<Link>,
) -> Result<(), Memory>
    ensures { OnOk result (links.new.items ≡ links.old.items ++ owner_with at (expr_of owner.now) one two) }
{
    let own = value_of(owner);
    let class = point(at, 39);
    links.push(link(at, 80, own))?;
    links.push(of_many(one, or_rather(at, AN_ENTER, own, class)))?;
    links.push(of_many(two, or_rather(at, 38, own, class)))?;
    Ok(())
}

// What a call takes.
fn put_call(at: Pos, called: Point, arguments: &Exprs, links: &mut Vec<Link>) -> Result<(), Memory>
    ensures { OnOk result (links.new.items ≡ links.old.items ++ call_links at called (exprs_of arguments.now)) }
{
    let count = arguments.list.len();
    put_arguments(at, arguments, links)?;
    put_called(at, called, count + 1, count + 2, links)?;
    Ok(())
}

// What a call of an attribute takes.
fn put_method(
    at: Pos,
    dot: Pos,
    owner: &Expr,
    arguments: &Exprs,
    links: &mut Vec<Link>,
) -> Result<(), Memory>
    ensures { OnOk result (links.new.items ≡ links.old.items ++ (link dot 32 (value_of (expr_of owner.now)) ∷ call_links at (point dot 32) (exprs_of arguments.now)
        ++ owner_links at (expr_of owner.now) (exprs_of arguments.now))) }
{
    let count = arguments.list.len();
    links.push(link(dot, 32, value_of(owner)))?;
    put_call(at, point(dot, 32), arguments, links)?;
    put_owner(at, owner, count + 1, count + 2, links)?;
    Ok(())
}

// What a call takes, by what is called.
fn put_callee(
    at: Pos,
    callee: &Expr,
    arguments: &Exprs,
    links: &mut Vec<Link>,
) -> Result<(), Memory>
    ensures { OnOk result (links.new.items ≡ links.old.items ++ callee_links at (expr_of callee.now) (exprs_of arguments.now)) }
{
    match callee {
        Expr::Attr(dot, owner, _) => {
            put_method(at, *dot, owner, arguments, links)?;
            Ok(())
        }
        _ => {
            put_call(at, value_of(callee), arguments, links)?;
            Ok(())
        }
    }
}

/// Puts the links of an expression behind those that are there.
#[cycle(add_expr)]
pub(crate) fn add_expr(expr: &Expr, links: &mut Vec<Link>) -> Result<(), Memory>
    ensures { OnOk result (links.new.items ≡ links.old.items ++ expr_links (expr_of expr.now)) }
{
    match expr {
        Expr::Const(_, _) => Ok(()),
        Expr::Var(_, _) => Ok(()),
        Expr::Unary(at, _, operand) => {
            let e = &**operand;
            put_one(*at, e, links)?;
            add_expr(e, links)?;
            Ok(())
        }
        Expr::Binary(at, _, left, right) => {
            let l = &**left;
            let r = &**right;
            put_both(*at, l, r, links)?;
            add_expr(l, links)?;
            add_expr(r, links)?;
            Ok(())
        }
        Expr::Compare(at, _, left, right) => {
            let l = &**left;
            let r = &**right;
            put_both(*at, l, r, links)?;
            add_expr(l, links)?;
            add_expr(r, links)?;
            Ok(())
        }
        Expr::Logic(at, _, left, right) => {
            let l = &**left;
            let r = &**right;
            put_test(l, links)?;
            put_either(*at, l, r, links)?;
            add_expr(l, links)?;
            add_expr(r, links)?;
            Ok(())
        }
        Expr::Choose(at, test, chosen, other) => {
            let t = &**test;
            let c = &**chosen;
            let o = &**other;
            put_test(t, links)?;
            put_either(*at, c, o, links)?;
            add_expr(t, links)?;
            add_expr(c, links)?;
            add_expr(o, links)?;
            Ok(())
        }
        Expr::Call(at, callee, arguments) => {
            let f = &**callee;
            put_callee(*at, f, arguments, links)?;
            match f {
                Expr::Attr(_, owner, _) => {
                    add_expr(&**owner, links)?;
                    add_exprs(arguments, links)?;
                    Ok(())
                }
                _ => {
                    add_expr(f, links)?;
                    add_exprs(arguments, links)?;
                    Ok(())
                }
            }
        }
        Expr::Attr(at, owner, _) => {
            let e = &**owner;
            put_one(*at, e, links)?;
            add_expr(e, links)?;
            Ok(())
        }
        Expr::Part(at, container, index) => {
            let e = &**container;
            let i = &**index;
            put_both(*at, e, i, links)?;
            add_expr(e, links)?;
            add_expr(i, links)?;
            Ok(())
        }
        Expr::Range(at, container, low, high) => {
            let e = &**container;
            put_one(*at, e, links)?;
            add_expr(e, links)?;
            add_bound(*at, low, links)?;
            add_bound(*at, high, links)?;
            Ok(())
        }
        Expr::List(at, items) => {
            put_each(*at, 4, items, links)?;
            add_exprs(items, links)?;
            Ok(())
        }
        Expr::Dict(at, pairs) => {
            add_pairs(*at, pairs, links)?;
            Ok(())
        }
        Expr::Tuple(at, items) => {
            put_each(*at, 4, items, links)?;
            add_exprs(items, links)?;
            Ok(())
        }
    }
}

#[cycle(add_expr)]
fn add_bound(at: Pos, bound: &Option<Box<Expr>>, links: &mut Vec<Link>) -> Result<(), Memory>
    ensures { OnOk result (links.new.items ≡ links.old.items ++ bound_links at (maybe_tree (option_map (λ b. expr_of b.value) bound.now))) }
{
    match bound {
        None => Ok(()),
        Some(inner) => {
            let e = &**inner;
            put_one(at, e, links)?;
            add_expr(e, links)?;
            Ok(())
        }
    }
}

#[cycle(add_expr)]
fn add_exprs(items: &Exprs, links: &mut Vec<Link>) -> Result<(), Memory>
    ensures { OnOk result (links.new.items ≡ links.old.items ++ exprs_links (exprs_of items.now)) }
{
    for e in &items.list {
        add_expr(e, links)?;
    }
    Ok(())
}

#[cycle(add_expr)]
fn add_pairs(at: Pos, pairs: &Pairs, links: &mut Vec<Link>) -> Result<(), Memory>
    ensures { OnOk result (links.new.items ≡ links.old.items ++ pairs_links at (pairs_of pairs.now)) }
{
    for (key, item) in &pairs.list {
        put_both(at, key, item, links)?;
        add_expr(key, links)?;
        add_expr(item, links)?;
    }
    Ok(())
}

/// Puts the links of two expressions behind those that are there.
pub(crate) fn add_two(left: &Expr, right: &Expr, links: &mut Vec<Link>) -> Result<(), Memory>
    ensures { OnOk result (links.new.items ≡ links.old.items ++ (expr_links (expr_of left.now) ++ expr_links (expr_of right.now))) }
{
    add_expr(left, links)?;
    add_expr(right, links)?;
    Ok(())
}
