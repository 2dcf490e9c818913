// What stands in brackets as it is read, and the expressions that are built of it.
ghost use Rattle.std.specs.Prelude.{◌≡◌, ◌<◌, ◌++◌, ◌∷◌, [], IfOk, IfErr, OnOk, suc, max, true, false, map, option_map, if◌then◌else◌};
ghost use Rattle.py_tree.specs.Erasure.{expr_of, exprs_list, pairs_list, maybe_tree};
ghost use Rattle.py_tree.specs.Tree.{var_expr, attr_expr, call_expr, part_expr, range_expr, list_expr, dict_expr, tuple_expr, end_exprs};
ghost use Rattle.py_expressions.specs.Parsed.{IsMemory};
ghost use Rattle.py_expressions.specs.ParsedRows.{index_deepest, index_height, is_one, indexed, limit_deepest, limit_height, limit_tree};
ghost use Rattle.py_expressions.specs.Lies.{deeper_of};

use crate::fault::Stop;
use crate::part::{Part, node};
use prov_base::{Name, Pos};
use py_tree::{Expr, Exprs, Pairs};
use std::alloc::Global;

/// Expressions in a row as they were read.
#[derive(Drop)]
pub struct Row {
    pub list: Vec<Expr>,
    /// The greatest height among them, 0 of none.
    pub height: u32,
    /// The first token of the first one that lies deepest, of none the bracket.
    pub deepest: Pos,
    /// Each of them is of a target's form.
    pub is_target: bool,
}

impl Row {
    /// None yet, behind the token that stands here.
    pub fn new(alloc: Global, at: Pos) -> Row
        ensures empty { result.list.items ≡ [] }
        ensures height { result.height ≡ 0 }
        ensures deepest { result.deepest ≡ at }
        ensures form { result.is_target ≡ true }
    {
        Row {
            list: Vec::new(alloc),
            height: 0,
            deepest: at,
            is_target: true,
        }
    }

    /// One more at the end.
    pub fn push(&mut self, part: Part) -> Result<(), Stop>
        ensures list { OnOk result (self.new.list.items ≡ self.old.list.items ++ part.expr.value ∷ []) }
        ensures height { OnOk result (self.new.height ≡ max self.old.height part.height) }
        ensures deepest { OnOk result (self.new.deepest ≡ deeper_of self.old.height self.old.deepest part.height part.deepest) }
        ensures form { OnOk result (self.new.is_target ≡ (if self.old.is_target then part.is_target else false)) }
        ensures memory { IfErr result IsMemory }
    {
        if self.height < part.height {
            self.height = part.height;
            self.deepest = part.deepest;
        }
        self.is_target = self.is_target && part.is_target;
        self.list.push(Box::into_inner(part.expr))?;
        Ok(())
    }
}

/// Keys with their values as they were read.
#[derive(Drop)]
pub(crate) struct PairRow {
    pub list: Vec<(Expr, Expr)>,
    /// The greatest height among them, 0 of none.
    pub height: u32,
    /// The first token of the first one that lies deepest, of none the bracket.
    pub deepest: Pos,
}

impl PairRow {
    /// None yet, behind the bracket that stands here.
    pub(crate) fn new(alloc: Global, at: Pos) -> PairRow
        ensures empty { result.list.items ≡ [] }
        ensures height { result.height ≡ 0 }
        ensures deepest { result.deepest ≡ at }
    {
        PairRow {
            list: Vec::new(alloc),
            height: 0,
            deepest: at,
        }
    }

    /// A height and where what has it begins, where it is the greatest so far.
    fn note(&mut self, height: u32, deepest: Pos)
        ensures list { self.new.list ≡ self.old.list }
        ensures height { self.new.height ≡ max self.old.height height }
        ensures deepest { self.new.deepest ≡ deeper_of self.old.height self.old.deepest height deepest }
    {
        if self.height < height {
            self.height = height;
            self.deepest = deepest;
        }
    }

    /// One more at the end.
    pub(crate) fn push(&mut self, key: Part, value: Part) -> Result<(), Stop>
        ensures list { OnOk result (self.new.list.items ≡ self.old.list.items ++ (key.expr.value, value.expr.value) ∷ []) }
        ensures height { OnOk result (self.new.height ≡ max (max self.old.height key.height) value.height) }
        ensures deepest { OnOk result (self.new.deepest ≡ deeper_of (max self.old.height key.height) (deeper_of self.old.height self.old.deepest key.height key.deepest) value.height value.deepest) }
        ensures memory { IfErr result IsMemory }
    {
        self.note(key.height, key.deepest);
        self.note(value.height, value.deepest);
        self.list
            .push((Box::into_inner(key.expr), Box::into_inner(value.expr)))?;
        Ok(())
    }
}

/// What stands in the brackets of a subscription: an index, or the bounds of a slice.
#[derive(Drop)]
pub(crate) enum Index {
    One(Part),
    Slice(Option<Part>, Option<Part>),
}

/// The greater of two heights, with where what has it begins: the first where they are equal.
fn deeper(left: (u32, Pos), right: (u32, Pos)) -> (u32, Pos)
    ensures height { result.0 ≡ max left.0 right.0 }
    ensures deepest { result.1 ≡ deeper_of left.0 left.1 right.0 right.1 }
{
    if left.0 < right.0 { right } else { left }
}

/// A name, which stands at its token.
#[tactic(auto, using(py_tree::proofs::ExprTrees::expr_trees))]
pub(crate) fn variable(alloc: Global, at: Pos, name: Name) -> Result<Part, Stop>
    ensures tree { IfOk result (λ part. expr_of part.expr.value ≡ var_expr at name) }
    ensures height { IfOk result (λ part. part.height ≡ 1) }
    ensures deepest { IfOk result (λ part. part.deepest ≡ at) }
    ensures form { IfOk result (λ part. part.is_target ≡ true) }
    ensures memory { IfErr result IsMemory }
{
    let expr = node(alloc, Expr::Var(at, name))?;
    Ok(Part {
        expr,
        height: 1,
        deepest: at,
        is_target: true,
    })
}

/// A tuple, whose place is this.
#[tactic(auto, using(py_tree::proofs::ExprTrees::expr_trees, py_tree::proofs::ExprTrees::exprs_tree))]
pub fn tuple(alloc: Global, at: Pos, row: Row) -> Result<Part, Stop>
    requires is_low { row.height < 1000 }
    ensures tree { IfOk result (λ part. expr_of part.expr.value ≡ tuple_expr at (exprs_list (map expr_of row.list.items))) }
    ensures height { IfOk result (λ part. part.height ≡ suc row.height) }
    ensures deepest { IfOk result (λ part. part.deepest ≡ row.deepest) }
    ensures form { IfOk result (λ part. part.is_target ≡ row.is_target) }
    ensures memory { IfErr result IsMemory }
{
    let expr = node(alloc, Expr::Tuple(at, Exprs { list: row.list }))?;
    Ok(Part {
        expr,
        height: row.height + 1,
        deepest: row.deepest,
        is_target: row.is_target,
    })
}

/// What stands in grouping brackets, which leave no node.
pub(crate) fn grouped(inner: Part) -> Part
    requires is_low { inner.height < 1000 }
    ensures tree { expr_of result.expr.value ≡ expr_of inner.expr.value }
    ensures height { result.height ≡ suc inner.height }
    ensures deepest { result.deepest ≡ inner.deepest }
    ensures form { result.is_target ≡ false }
{
    Part {
        expr: inner.expr,
        height: inner.height + 1,
        deepest: inner.deepest,
        is_target: false,
    }
}

/// `()`
#[tactic(auto, using(py_tree::proofs::ExprTrees::expr_trees, py_tree::proofs::ExprTrees::exprs_tree))]
pub(crate) fn empty_tuple(alloc: Global, at: Pos) -> Result<Part, Stop>
    ensures tree { IfOk result (λ part. expr_of part.expr.value ≡ tuple_expr at end_exprs) }
    ensures height { IfOk result (λ part. part.height ≡ 1) }
    ensures deepest { IfOk result (λ part. part.deepest ≡ at) }
    ensures form { IfOk result (λ part. part.is_target ≡ false) }
    ensures memory { IfErr result IsMemory }
{
    let list = Vec::new(alloc);
    let expr = node(alloc, Expr::Tuple(at, Exprs { list }))?;
    Ok(Part {
        expr,
        height: 1,
        deepest: at,
        is_target: false,
    })
}

/// `[a, b]`
#[tactic(auto, using(py_tree::proofs::ExprTrees::expr_trees, py_tree::proofs::ExprTrees::exprs_tree))]
pub(crate) fn list(alloc: Global, at: Pos, row: Row) -> Result<Part, Stop>
    requires is_low { row.height < 1000 }
    ensures tree { IfOk result (λ part. expr_of part.expr.value ≡ list_expr at (exprs_list (map expr_of row.list.items))) }
    ensures height { IfOk result (λ part. part.height ≡ suc row.height) }
    ensures deepest { IfOk result (λ part. part.deepest ≡ row.deepest) }
    ensures form { IfOk result (λ part. part.is_target ≡ false) }
    ensures memory { IfErr result IsMemory }
{
    let expr = node(alloc, Expr::List(at, Exprs { list: row.list }))?;
    Ok(Part {
        expr,
        height: row.height + 1,
        deepest: row.deepest,
        is_target: false,
    })
}

/// `{a: b}`
#[tactic(auto, using(py_tree::proofs::ExprTrees::expr_trees, py_tree::proofs::ExprTrees::pairs_tree))]
pub(crate) fn dict(alloc: Global, at: Pos, row: PairRow) -> Result<Part, Stop>
    requires is_low { row.height < 1000 }
    ensures tree { IfOk result (λ part. expr_of part.expr.value ≡ dict_expr at (pairs_list (map (λ p. (expr_of p.0, expr_of p.1)) row.list.items))) }
    ensures height { IfOk result (λ part. part.height ≡ suc row.height) }
    ensures deepest { IfOk result (λ part. part.deepest ≡ row.deepest) }
    ensures form { IfOk result (λ part. part.is_target ≡ false) }
    ensures memory { IfErr result IsMemory }
{
    let expr = node(alloc, Expr::Dict(at, Pairs { list: row.list }))?;
    Ok(Part {
        expr,
        height: row.height + 1,
        deepest: row.deepest,
        is_target: false,
    })
}

/// `f(a, b)`
#[tactic(auto, using(py_tree::proofs::ExprTrees::expr_trees, py_tree::proofs::ExprTrees::exprs_tree))]
pub(crate) fn call(alloc: Global, at: Pos, callee: Part, arguments: Row) -> Result<Part, Stop>
    requires callee_is_low { callee.height < 1000 }
    requires arguments_are_low { arguments.height < 1000 }
    ensures tree { IfOk result (λ part. expr_of part.expr.value ≡ call_expr at (expr_of callee.expr.value) (exprs_list (map expr_of arguments.list.items))) }
    ensures height { IfOk result (λ part. part.height ≡ suc (max callee.height arguments.height)) }
    ensures deepest { IfOk result (λ part. part.deepest ≡ deeper_of callee.height callee.deepest arguments.height arguments.deepest) }
    ensures form { IfOk result (λ part. part.is_target ≡ false) }
    ensures memory { IfErr result IsMemory }
{
    let (height, deepest) = deeper(
        (callee.height, callee.deepest),
        (arguments.height, arguments.deepest),
    );
    let list = arguments.list;
    let expr = node(alloc, Expr::Call(at, callee.expr, Exprs { list }))?;
    Ok(Part {
        expr,
        height: height + 1,
        deepest,
        is_target: false,
    })
}

/// `a.name`
#[tactic(auto, using(py_tree::proofs::ExprTrees::expr_trees))]
pub(crate) fn attribute(alloc: Global, at: Pos, object: Part, name: Name) -> Result<Part, Stop>
    requires is_low { object.height < 1000 }
    ensures tree { IfOk result (λ part. expr_of part.expr.value ≡ attr_expr at (expr_of object.expr.value) name) }
    ensures height { IfOk result (λ part. part.height ≡ suc object.height) }
    ensures deepest { IfOk result (λ part. part.deepest ≡ object.deepest) }
    ensures form { IfOk result (λ part. part.is_target ≡ true) }
    ensures memory { IfErr result IsMemory }
{
    let expr = node(alloc, Expr::Attr(at, object.expr, name))?;
    Ok(Part {
        expr,
        height: object.height + 1,
        deepest: object.deepest,
        is_target: true,
    })
}

/// `a[i]` or `a[low:high]`
pub(crate) fn subscript(alloc: Global, at: Pos, object: Part, index: Index) -> Result<Part, Stop>
    requires object_is_low { object.height < 1000 }
    requires index_is_low { index_height index < 1000 }
    ensures tree { IfOk result (λ part. expr_of part.expr.value ≡ indexed at (expr_of object.expr.value) index) }
    ensures height { IfOk result (λ part. part.height ≡ suc (max object.height (index_height index))) }
    ensures deepest { IfOk result (λ part. part.deepest ≡ deeper_of object.height object.deepest (index_height index) (index_deepest at index)) }
    ensures form { IfOk result (λ part. part.is_target ≡ is_one index) }
    ensures memory { IfErr result IsMemory }
{
    match index {
        Index::One(index) => element(alloc, at, object, index),
        Index::Slice(low, high) => slice(alloc, at, object, low, high),
    }
}

/// `a[i]`
#[tactic(auto, using(py_tree::proofs::ExprTrees::expr_trees))]
fn element(alloc: Global, at: Pos, object: Part, index: Part) -> Result<Part, Stop>
    requires object_is_low { object.height < 1000 }
    requires index_is_low { index.height < 1000 }
    ensures tree { IfOk result (λ part. expr_of part.expr.value ≡ part_expr at (expr_of object.expr.value) (expr_of index.expr.value)) }
    ensures height { IfOk result (λ part. part.height ≡ suc (max object.height index.height)) }
    ensures deepest { IfOk result (λ part. part.deepest ≡ deeper_of object.height object.deepest index.height index.deepest) }
    ensures form { IfOk result (λ part. part.is_target ≡ true) }
    ensures memory { IfErr result IsMemory }
{
    let (height, deepest) = deeper(
        (object.height, object.deepest),
        (index.height, index.deepest),
    );
    let expr = node(alloc, Expr::Part(at, object.expr, index.expr))?;
    Ok(Part {
        expr,
        height: height + 1,
        deepest,
        is_target: true,
    })
}

/// `a[low:high]`
#[tactic(auto, using(py_tree::proofs::ExprTrees::expr_trees))]
fn slice(
    alloc: Global,
    at: Pos,
    object: Part,
    low: Option<Part>,
    high: Option<Part>,
) -> Result<Part, Stop>
    requires object_is_low { object.height < 1000 }
    requires limits_are_low { max (limit_height low) (limit_height high) < 1000 }
    ensures tree { IfOk result (λ part. expr_of part.expr.value ≡ range_expr at (expr_of object.expr.value) (limit_tree low) (limit_tree high)) }
    ensures height { IfOk result (λ part. part.height ≡ suc (max object.height (max (limit_height low) (limit_height high)))) }
    ensures deepest { IfOk result (λ part. part.deepest ≡ deeper_of object.height object.deepest (max (limit_height low) (limit_height high)) (deeper_of (limit_height low) (limit_deepest at low) (limit_height high) (limit_deepest at high))) }
    ensures form { IfOk result (λ part. part.is_target ≡ false) }
    ensures memory { IfErr result IsMemory }
{
    let (height, deepest) = deeper(
        (object.height, object.deepest),
        deeper(top(&low, at), top(&high, at)),
    );
    let low = limit_of(low);
    let high = limit_of(high);
    let expr = node(alloc, Expr::Range(at, object.expr, low, high))?;
    Ok(Part {
        expr,
        height: height + 1,
        deepest,
        is_target: false,
    })
}

/// The height of a bound, with where what has it begins; 0 where there is none.
fn top(limit: &Option<Part>, at: Pos) -> (u32, Pos)
    ensures height { result.0 ≡ limit_height limit.now }
    ensures deepest { result.1 ≡ limit_deepest at limit.now }
{
    match limit {
        Some(part) => (part.height, part.deepest),
        None => (0, at),
    }
}

/// A bound's expression.
fn limit_of(limit: Option<Part>) -> Option<Box<Expr>>
    ensures { maybe_tree (option_map (λ b. expr_of b.value) result) ≡ limit_tree limit }
{
    match limit {
        Some(part) => Some(part.expr),
        None => None,
    }
}
