// Nodes that wait for operands.
ghost use Rattle.std.specs.Prelude.{◌≡◌};
ghost use Rattle.py_tree.specs.Erasure.{expr_of};
ghost use Rattle.py_tree.specs.Functions.{expr_place};
ghost use Rattle.std.specs.Prelude.{map, ◌∷◌, option_map};
ghost use Rattle.py_tree.specs.Erasure.{exprs_list, maybe_tree};
ghost use Rattle.py_tree.specs.Tree.{logic_expr};
ghost use Rattle.interp_eval.specs.declared.node.Finish.TheVariants.{Do};
ghost use Rattle.py_value.specs.Values.{ValuesView};
ghost use Rattle.interp_eval.specs.Machine.{call_node, node_for};
ghost use Rattle.interp_eval.specs.Seen.{node_seen, operands_seen, next_seen};

use prov_base::{Name, Pos};
use py_tree::{Atom, BinOp, CmpOp, Expr, LogicOp, UnOp};
use py_value::Value;

/// An operation that an expression does with the values of its operands.
#[derive(Clone, Copy)]
pub(crate) enum Code<'a> {
    Const(&'a Atom),
    Load(&'a Name),
    Attr(&'a Name),
    Unary(UnOp),
    Binary(BinOp),
    Compare(CmpOp),
    Give,
    Part,
    Range,
    List,
    Dict,
    Tuple,
}

/// What follows a test: the right operand of `and` or `or`, or the two of a conditional.
#[derive(Clone, Copy)]
pub(crate) enum Branch<'a> {
    And(&'a Expr),
    Or(&'a Expr),
    Choose(&'a Expr, &'a Expr),
}

/// What is done when the operands are there.
#[derive(Clone, Copy)]
pub(crate) enum Finish<'a> {
    /// An operation on them.
    Do(Code<'a>),
    /// The operation `give` of a value.
    Giving(Value),
    /// A test of the one operand, at its place.
    Test(Pos, Branch<'a>),
    /// The look-up of an attribute that is called, at the place of its `.`; then these arguments.
    Find(Pos, &'a Name, &'a [Expr]),
    /// A call of the first with the others.
    Call,
    /// A call of a method of a value of the language: the method, its receiver, and the arguments.
    Method,
}

/// Operands that are still to be evaluated.
#[derive(Clone, Copy)]
pub(crate) enum Operands<'a> {
    Nothing,
    One(&'a Expr),
    Two(&'a Expr, &'a Expr),
    Items(&'a [Expr]),
    Then(&'a Expr, &'a [Expr]),
    Pairs(&'a [(Expr, Expr)]),
    Entry(&'a Expr, &'a [(Expr, Expr)]),
    Slice(&'a Expr, &'a Option<Box<Expr>>, &'a Option<Box<Expr>>),
    Bounds(&'a Option<Box<Expr>>, &'a Option<Box<Expr>>),
    Bound(&'a Option<Box<Expr>>),
}

/// A node: its place, what is done at the end, and the operands that are left.
#[derive(Clone, Copy)]
pub(crate) struct Node<'a> {
    pub at: Pos,
    pub finish: Finish<'a>,
    pub rest: Operands<'a>,
}

/// The place of an expression.
#[tactic(auto, using(py_tree::proofs::ExprTrees::expr_trees))]
pub fn place_of(expr: &Expr) -> Pos
    ensures { result ≡ expr_place (expr_of expr.now) }
{
    match expr {
        Expr::Const(at, _) => *at,
        Expr::Var(at, _) => *at,
        Expr::Unary(at, _, _) => *at,
        Expr::Binary(at, _, _, _) => *at,
        Expr::Compare(at, _, _, _) => *at,
        Expr::Logic(at, _, _, _) => *at,
        Expr::Choose(at, _, _, _) => *at,
        Expr::Call(at, _, _) => *at,
        Expr::Attr(at, _, _) => *at,
        Expr::Part(at, _, _) => *at,
        Expr::Range(at, _, _, _) => *at,
        Expr::List(at, _) => *at,
        Expr::Dict(at, _) => *at,
        Expr::Tuple(at, _) => *at,
    }
}

#[tactic(auto, using(py_tree::proofs::ExprTrees::expr_trees))]
/// The node of a call: of an attribute, or of any other expression.
fn call_node<'a>(at: Pos, callee: &'a Expr, arguments: &'a [Expr]) -> Node<'a>
    ensures { (table : ValuesView) → node_seen table result ≡ call_node at (expr_of callee.entry.now) (exprs_list (map expr_of arguments.entry.now)) }
{
    match callee {
        Expr::Attr(dot, owner, name) => Node {
            at,
            finish: Finish::Find(*dot, name, arguments),
            rest: Operands::One(owner),
        },
        _ => Node {
            at,
            finish: Finish::Call,
            rest: Operands::Then(callee, arguments),
        },
    }
}

/// The node of an operator or a display.
pub(crate) fn code_node<'a>(at: Pos, code: Code<'a>, rest: Operands<'a>) -> Node<'a>
    ensures { result ≡ record { at = at; finish = Do code.entry; rest = rest.entry } }
{
    Node {
        at,
        finish: Finish::Do(code),
        rest,
    }
}

/// The node of `and` or `or`.
fn logic_node<'a>(at: Pos, op: LogicOp, left: &'a Expr, right: &'a Expr) -> Node<'a>
    ensures { (table : ValuesView) → node_seen table result ≡ node_for (logic_expr at op (expr_of left.entry.now) (expr_of right.entry.now)) }
{
    let branch = match op {
        LogicOp::And => Branch::And(right),
        LogicOp::Or => Branch::Or(right),
    };
    Node {
        at,
        finish: Finish::Test(place_of(left), branch),
        rest: Operands::One(left),
    }
}

/// The node of an expression, with none of its operands evaluated.
#[tactic(auto, using(py_tree::proofs::ExprTrees::expr_trees, py_tree::proofs::ExprTrees::exprs_tree, crate::proofs::Trees::items_listed, crate::proofs::Trees::pairs_listed))]
pub(crate) fn node_for<'a>(expr: &'a Expr) -> Node<'a>
    ensures { (table : ValuesView) → node_seen table result ≡ node_for (expr_of expr.entry.now) }
{
    match expr {
        Expr::Const(at, atom) => code_node(*at, Code::Const(atom), Operands::Nothing),
        Expr::Var(at, name) => code_node(*at, Code::Load(name), Operands::Nothing),
        Expr::Unary(at, op, e) => code_node(*at, Code::Unary(*op), Operands::One(e)),
        Expr::Binary(at, op, l, r) => code_node(*at, Code::Binary(*op), Operands::Two(l, r)),
        Expr::Compare(at, op, l, r) => code_node(*at, Code::Compare(*op), Operands::Two(l, r)),
        Expr::Logic(at, op, l, r) => logic_node(*at, *op, l, r),
        Expr::Choose(at, test, chosen, other) => Node {
            at: *at,
            finish: Finish::Test(place_of(test), Branch::Choose(chosen, other)),
            rest: Operands::One(test),
        },
        Expr::Call(at, callee, arguments) => call_node(*at, callee, arguments.list.as_slice()),
        Expr::Attr(at, e, name) => code_node(*at, Code::Attr(name), Operands::One(e)),
        Expr::Part(at, e, index) => code_node(*at, Code::Part, Operands::Two(e, index)),
        Expr::Range(at, e, low, high) => code_node(*at, Code::Range, Operands::Slice(e, low, high)),
        Expr::List(at, items) => code_node(*at, Code::List, Operands::Items(items.list.as_slice())),
        Expr::Dict(at, pairs) => code_node(*at, Code::Dict, Operands::Pairs(pairs.list.as_slice())),
        Expr::Tuple(at, items) => code_node(
            *at,
            Code::Tuple,
            Operands::Items(items.list.as_slice()),
        ),
    }
}

/// The next operand: none, one that is absent, or an expression; and what is left behind it.
pub(crate) enum Next<'a> {
    Done,
    Absent(Operands<'a>),
    Begin(&'a Expr, Operands<'a>),
}

/// A bound of a slice, and what is left behind it.
fn bound<'a>(bound: &'a Option<Box<Expr>>, rest: Operands<'a>) -> Next<'a>
    ensures { next_seen result ≡ maybe_tree (option_map (λ b. expr_of b.value) bound.entry.now) ∷ operands_seen rest.entry }
{
    match bound {
        None => Next::Absent(rest),
        Some(e) => Next::Begin(e, rest),
    }
}

impl<'a> Operands<'a> {
    /// The next of these operands, and the others.
    pub(crate) fn split(self) -> Next<'a>
        ensures { next_seen result ≡ operands_seen self.entry }
    {
        match self {
            Operands::Nothing => Next::Done,
            Operands::One(e) => Next::Begin(e, Operands::Nothing),
            Operands::Two(l, r) => Next::Begin(l, Operands::One(r)),
            Operands::Items(items) => match items.split_first() {
                None => Next::Done,
                Some((first, others)) => Next::Begin(first, Operands::Items(others)),
            },
            Operands::Then(e, items) => Next::Begin(e, Operands::Items(items)),
            Operands::Pairs(pairs) => match pairs.split_first() {
                None => Next::Done,
                Some((pair, others)) => Next::Begin(&pair.0, Operands::Entry(&pair.1, others)),
            },
            Operands::Entry(v, pairs) => Next::Begin(v, Operands::Pairs(pairs)),
            Operands::Slice(e, low, high) => Next::Begin(e, Operands::Bounds(low, high)),
            Operands::Bounds(low, high) => bound(low, Operands::Bound(high)),
            Operands::Bound(high) => bound(high, Operands::Nothing),
        }
    }
}
