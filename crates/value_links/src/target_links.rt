// The links of targets: what stores, what an augmented assignment does, and what a deletion takes.
ghost use Rattle.std.specs.Prelude.{◌≡◌, ◌∷◌, ◌++◌, [], OnOk};
ghost use Rattle.py_tree.specs.Erasure.{expr_of, target_of, targets_of};
ghost use Rattle.value_links.specs.Links.{augment_links, expr_links, link, or_rather, point, stored, target_links, targets_links, unset_links, value_of};

use crate::expr_links::{add_expr, add_two};
use crate::link::{Link, Point};
use crate::making::{link, or_rather, point, value_of};
use prov_base::{Memory, Pos};
use py_tree::{Expr, Target, Targets};

// An operation at a place takes the values of two expressions.
fn put_two(at: Pos, kind: u8, one: &Expr, other: &Expr, links: &mut Vec<Link>) -> Result<(), Memory>
    ensures { OnOk result (links.new.items ≡ links.old.items ++ (link at kind (value_of (expr_of one.now)) ∷ link at kind (value_of (expr_of other.now)) ∷ [])) }
{
    links.push(link(at, kind, value_of(one)))?;
    links.push(link(at, kind, value_of(other)))?;
    Ok(())
}

// An operation takes an answer.
pub(crate) fn put_from(at: Pos, kind: u8, from: Point, links: &mut Vec<Link>) -> Result<(), Memory>
    ensures { OnOk result (links.new.items ≡ links.old.items ++ (link at kind from ∷ [])) }
{
    links.push(link(at, kind, from))?;
    Ok(())
}

// A value is stored in a container at an index.
fn add_part(
    place: Pos,
    container: &Expr,
    index: &Expr,
    from: Point,
    links: &mut Vec<Link>,
) -> Result<(), Memory>
    ensures { OnOk result (links.new.items ≡ links.old.items ++ (link place 28 (value_of (expr_of container.now)) ∷ link place 28 (value_of (expr_of index.now)) ∷ link place 28 from
        ∷ expr_links (expr_of container.now) ++ expr_links (expr_of index.now))) }
{
    put_two(place, 28, container, index, links)?;
    put_from(place, 28, from, links)?;
    add_two(container, index, links)?;
    Ok(())
}

// A value is stored as an attribute.
fn add_field(place: Pos, owner: &Expr, from: Point, links: &mut Vec<Link>) -> Result<(), Memory>
    ensures { OnOk result (links.new.items ≡ links.old.items ++ (link place 31 (value_of (expr_of owner.now)) ∷ link place 31 from ∷ expr_links (expr_of owner.now))) }
{
    put_from(place, 31, value_of(owner), links)?;
    put_from(place, 31, from, links)?;
    add_expr(owner, links)?;
    Ok(())
}

// A value is taken apart, unless its rival is later.
fn put_apart(at: Pos, from: Point, rival: Point, links: &mut Vec<Link>) -> Result<(), Memory>
    ensures { OnOk result (links.new.items ≡ links.old.items ++ (or_rather at 35 from rival ∷ [])) }
{
    links.push(or_rather(at, 35, from, rival))?;
    Ok(())
}

// Puts the links of a target behind those that are there.
#[tactic(auto, using(py_tree::proofs::TargetTrees::target_trees))]
#[cycle(add_target)]
fn add_target(
    at: Pos,
    whole: Point,
    from: Point,
    rival: Point,
    target: &Target,
    links: &mut Vec<Link>,
) -> Result<(), Memory>
    ensures { OnOk result (links.new.items ≡ links.old.items ++ target_links at whole from rival (target_of target.now)) }
{
    match target {
        Target::Var(place, _) => {
            put_from(*place, 33, from, links)?;
            Ok(())
        }
        Target::Part(place, container, index) => {
            add_part(*place, container, index, from, links)?;
            Ok(())
        }
        Target::Field(place, owner, _) => {
            add_field(*place, owner, from, links)?;
            Ok(())
        }
        Target::Many(targets) => {
            put_apart(at, from, rival, links)?;
            add_targets(at, whole, targets, links)?;
            Ok(())
        }
    }
}

#[cycle(add_target)]
fn add_targets(
    at: Pos,
    whole: Point,
    targets: &Targets,
    links: &mut Vec<Link>,
) -> Result<(), Memory>
    ensures { OnOk result (links.new.items ≡ links.old.items ++ targets_links at whole (targets_of targets.now)) }
{
    let taken = point(at, 35);
    for target in &targets.list {
        add_target(at, whole, taken, whole, target, links)?;
    }
    Ok(())
}

/// Puts the links by which a value is stored in a target behind those that are there.
pub(crate) fn add_stored(
    at: Pos,
    from: Point,
    target: &Target,
    links: &mut Vec<Link>,
) -> Result<(), Memory>
    ensures { OnOk result (links.new.items ≡ links.old.items ++ stored at from (target_of target.now)) }
{
    add_target(at, from, from, point(at, 35), target, links)?;
    Ok(())
}

// An augmented assignment of a name.
fn augment_name(place: Pos, at: Pos, e: &Expr, links: &mut Vec<Link>) -> Result<(), Memory>
    ensures { OnOk result (links.new.items ≡ links.old.items ++ (link at 4 (point place 0) ∷ link at 4 (value_of (expr_of e.now)) ∷ link place 33 (point at 0) ∷ expr_links (expr_of e.now))) }
{
    put_from(at, 4, point(place, 0), links)?;
    put_from(at, 4, value_of(e), links)?;
    put_from(place, 33, point(at, 0), links)?;
    add_expr(e, links)?;
    Ok(())
}

// An augmented assignment of what is in a container.
fn augment_part(
    place: Pos,
    container: &Expr,
    index: &Expr,
    at: Pos,
    e: &Expr,
    links: &mut Vec<Link>,
) -> Result<(), Memory>
    ensures { OnOk result (links.new.items ≡ links.old.items ++ (link place 4 (value_of (expr_of container.now)) ∷ link place 4 (value_of (expr_of index.now))
        ∷ link at 4 (point place 0) ∷ link at 4 (value_of (expr_of e.now)) ∷ link place 28 (value_of (expr_of container.now)) ∷ link place 28 (value_of (expr_of index.now))
        ∷ link place 28 (point at 0) ∷ expr_links (expr_of container.now) ++ (expr_links (expr_of index.now) ++ expr_links (expr_of e.now)))) }
{
    put_two(place, 4, container, index, links)?;
    put_from(at, 4, point(place, 0), links)?;
    put_from(at, 4, value_of(e), links)?;
    put_two(place, 28, container, index, links)?;
    put_from(place, 28, point(at, 0), links)?;
    add_expr(container, links)?;
    add_two(index, e, links)?;
    Ok(())
}

// An augmented assignment of an attribute.
fn augment_field(
    place: Pos,
    owner: &Expr,
    at: Pos,
    e: &Expr,
    links: &mut Vec<Link>,
) -> Result<(), Memory>
    ensures { OnOk result (links.new.items ≡ links.old.items ++ (link place 4 (value_of (expr_of owner.now)) ∷ link at 4 (point place 0) ∷ link at 4 (value_of (expr_of e.now))
        ∷ link place 31 (value_of (expr_of owner.now)) ∷ link place 31 (point at 0) ∷ expr_links (expr_of owner.now) ++ expr_links (expr_of e.now))) }
{
    put_from(place, 4, value_of(owner), links)?;
    put_from(at, 4, point(place, 0), links)?;
    put_from(at, 4, value_of(e), links)?;
    put_from(place, 31, value_of(owner), links)?;
    put_from(place, 31, point(at, 0), links)?;
    add_two(owner, e, links)?;
    Ok(())
}

/// Puts the links of an augmented assignment behind those that are there.
#[tactic(auto, using(py_tree::proofs::TargetTrees::target_trees))]
pub(crate) fn add_augment(
    target: &Target,
    at: Pos,
    e: &Expr,
    links: &mut Vec<Link>,
) -> Result<(), Memory>
    ensures { OnOk result (links.new.items ≡ links.old.items ++ augment_links (target_of target.now) at (expr_of e.now)) }
{
    match target {
        Target::Var(place, _) => {
            augment_name(*place, at, e, links)?;
            Ok(())
        }
        Target::Part(place, container, index) => {
            augment_part(*place, container, index, at, e, links)?;
            Ok(())
        }
        Target::Field(place, owner, _) => {
            augment_field(*place, owner, at, e, links)?;
            Ok(())
        }
        Target::Many(_) => Ok(()),
    }
}

// A deletion of what is in a container.
fn unset_part(
    place: Pos,
    container: &Expr,
    index: &Expr,
    links: &mut Vec<Link>,
) -> Result<(), Memory>
    ensures { OnOk result (links.new.items ≡ links.old.items ++ (link place 29 (value_of (expr_of container.now)) ∷ link place 29 (value_of (expr_of index.now))
        ∷ expr_links (expr_of container.now) ++ expr_links (expr_of index.now))) }
{
    put_two(place, 29, container, index, links)?;
    add_two(container, index, links)?;
    Ok(())
}

/// Puts the links of a deletion behind those that are there.
#[tactic(auto, using(py_tree::proofs::TargetTrees::target_trees))]
pub(crate) fn add_unset(target: &Target, links: &mut Vec<Link>) -> Result<(), Memory>
    ensures { OnOk result (links.new.items ≡ links.old.items ++ unset_links (target_of target.now)) }
{
    match target {
        Target::Var(_, _) => Ok(()),
        Target::Part(place, container, index) => {
            unset_part(*place, container, index, links)?;
            Ok(())
        }
        Target::Field(_, _, _) => Ok(()),
        Target::Many(_) => Ok(()),
    }
}
