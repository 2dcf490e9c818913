// Expressions and targets, as the parser builds them and the interpreter walks them. A node carries its place: of a
// name or literal its token, of an operator its first token, of a conditional its `if`, of a call, subscription, slice
// and attribute the `(`, `[`, `[`, `.`, of a list and dictionary the `[` and `{`, of the empty tuple its `(`, and of
// another tuple its first comma. The grammar is this project's profile of The Python Language Reference 3.11.
use prov_base::{Name, Pos};

/// An operator before its operand: `unary = ("-" | "+") unary`, `not = "not" not`, as in `-x`, `+x`, `not x`.
#[derive(Clone, Copy, Debug)]
pub enum UnOp {
    /// `-x`
    Minus,
    /// `+x`
    Plus,
    /// `not x`
    Not,
}

/// An operator that may leave its right operand alone: `or = and { "or" and }`, `and = not { "and" not }`.
#[derive(Clone, Copy, Debug)]
pub enum LogicOp {
    /// `a and b`
    And,
    /// `a or b`
    Or,
}

/// An operator of arithmetic: `sum = term { ("+" | "-") term }`, `term = unary { ("*" | "//" | "%") unary }`. It is
/// also the operator of an augmented assignment, as in `x += 1`.
#[derive(Clone, Copy, Debug)]
pub enum BinOp {
    /// `a + b`
    Add,
    /// `a - b`
    Sub,
    /// `a * b`
    Mul,
    /// `a // b`
    FloorDiv,
    /// `a % b`
    Mod,
}

/// A comparison: `cmp = sum [cmpop sum]`.
#[derive(Clone, Copy, Debug)]
pub enum CmpOp {
    /// `a == b`
    Eq,
    /// `a != b`
    Ne,
    /// `a < b`
    Lt,
    /// `a <= b`
    Le,
    /// `a > b`
    Gt,
    /// `a >= b`
    Ge,
    /// `a in b`
    In,
    /// `a not in b`
    NotIn,
    /// `a is b`
    Is,
    /// `a is not b`
    IsNot,
}

/// A literal: `atom = NUMBER | TEXT | "None" | "True" | "False"`.
#[derive(Drop)]
pub enum Atom {
    /// `None`
    None,
    /// `True` or `False`
    Bool(bool),
    /// A number, as `12`: at most 2 ^ 63 - 1, since a sign is an operator.
    Int(i64),
    /// A text, as `'ab\n'`, with its escapes read.
    Text(Name),
}

/// Expressions in a row: `[expr { "," expr } [","]]`, as the arguments of `f(a, b)` or the items of `[a, b]`.
#[cycle(expr)]
#[derive(Drop)]
pub struct Exprs {
    pub list: Vec<Expr>,
}

/// Keys with their values: `[expr ":" expr { "," expr ":" expr } [","]]`, as in `{'a': 1, 'b': 2}`.
#[cycle(expr)]
#[derive(Drop)]
pub struct Pairs {
    pub list: Vec<(Expr, Expr)>,
}

/// An expression: `exprs = expr { "," expr } [","]` and all below it. Grouping brackets leave no node.
#[cycle(expr)]
#[derive(Drop)]
pub enum Expr {
    /// A literal, as `12` or `'ab'`.
    Const(Pos, Atom),
    /// A name, as `total`.
    Var(Pos, Name),
    /// `-x`, `+x` or `not x`.
    Unary(Pos, UnOp, Box<Expr>),
    /// `a + b` and its kin: the operands from the left.
    Binary(Pos, BinOp, Box<Expr>, Box<Expr>),
    /// `a < b` and its kin: the operands from the left.
    Compare(Pos, CmpOp, Box<Expr>, Box<Expr>),
    /// `a and b` or `a or b`: the operands from the left.
    Logic(Pos, LogicOp, Box<Expr>, Box<Expr>),
    /// `a if test else b`: the test, then `a`, then `b`.
    Choose(Pos, Box<Expr>, Box<Expr>, Box<Expr>),
    /// `f(a, b)`: what is called, and the arguments.
    Call(Pos, Box<Expr>, Exprs),
    /// `a.name`
    Attr(Pos, Box<Expr>, Name),
    /// `a[i]`; an index with a comma, as in `a[i, j]`, is a tuple.
    Part(Pos, Box<Expr>, Box<Expr>),
    /// `a[low:high]`, where a bound may be absent.
    Range(Pos, Box<Expr>, Option<Box<Expr>>, Option<Box<Expr>>),
    /// `[a, b]`
    List(Pos, Exprs),
    /// `{a: b}`
    Dict(Pos, Pairs),
    /// `()`, or `a, b` with or without brackets.
    Tuple(Pos, Exprs),
}

/// Targets in a row: `target = target1 { "," target1 } [","]`, as in `a, b[0] = pair`.
#[cycle(target)]
#[derive(Drop)]
pub struct Targets {
    pub list: Vec<Target>,
}

/// What is bound, written or deleted: `target1 = NAME | prim "[" exprs "]" | prim "." NAME`, or several of these.
#[cycle(target)]
#[derive(Drop)]
pub enum Target {
    /// `x`, in `x = 1`.
    Var(Pos, Name),
    /// `a[i]`, in `a[i] = 1`: the container and the index; the place is the `[`.
    Part(Pos, Expr, Expr),
    /// `a.name`, in `a.name = 1`; the place is the `.`.
    Field(Pos, Expr, Name),
    /// `a, b`, in `a, b = pair`: what takes a tuple apart. It has no place of its own.
    Many(Targets),
}
