// What a node with all its operands is to do.
ghost use Rattle.std.specs.Prelude.{false, ◌<◌, ◌≡◌, ◌+◌, ◌-◌, true, length, map, slice_get};
ghost use Rattle.py_model.specs.Expressions.{takes_so_many, unary_number, binary_number, compare_number};
ghost use Rattle.py_model.specs.Told.{is_operation, names_text};
ghost use Rattle.py_value.specs.Contents.{contents};
ghost use Rattle.py_value.specs.Values.{ValuesView};
ghost use Rattle.interp_eval.specs.Machine.{builtin_turn, call_turn, method_turn, number_turn, turn_by, fails, performs, plain, pops};
ghost use Rattle.interp_eval.specs.declared.turn.Turn.TheVariants.{Perform};
ghost use Rattle.interp_eval.specs.Seen.{code_number, code_want, finish_seen};
ghost use Rattle.interp_eval.specs.Turns.{turn_seen, want_seen, IsOfOperation, IsWanted};

use crate::frames::Frame;
use crate::node::{Branch, Code, Finish};
use prov_base::{Name, Pos};
use py_tree::{Atom, BinOp, CmpOp, Expr, UnOp};
use py_value::Value;

/// What an operation names beside its number.
#[derive(Clone, Copy)]
pub enum Want<'a> {
    /// Nothing.
    Plain,
    /// A text.
    Name(&'a Name),
    /// A text that may be a local name.
    Variable(&'a Name),
    /// A value.
    Value(Value),
    /// A text, as a value.
    Text(&'a Name),
}

/// What comes of the value of an operation.
#[derive(Clone, Copy)]
pub(crate) enum After<'a> {
    /// It is the value of the node.
    Pop,
    /// It decides what is evaluated next.
    Branch(Branch<'a>),
    /// It is called with these arguments.
    Bind(&'a [Expr]),
    /// The operation only raises.
    Never,
}

/// An operation: its place, its number, what it names, whether the first value is left out, and what comes of it.
#[derive(Clone, Copy)]
pub(crate) struct Order<'a> {
    pub at: Pos,
    pub no: u8,
    pub want: Want<'a>,
    pub skip: bool,
    pub after: After<'a>,
}

/// What a node with all its operands is to do: an operation, or a call that the caller makes.
#[derive(Clone, Copy)]
pub(crate) enum Turn<'a> {
    Perform(Order<'a>),
    Call(Value),
}

/// How many arguments a function takes: at least, and at most.
type Arity = (usize, Option<usize>);

/// abs bool chr dict enumerate input int isinstance len list max min open ord print range repr sorted str sum tuple zip
const FUNCTIONS: [Arity; 22] = [
    (1, Some(1)),
    (1, Some(1)),
    (1, Some(1)),
    (0, Some(0)),
    (1, Some(1)),
    (0, Some(1)),
    (1, Some(1)),
    (2, Some(2)),
    (1, Some(1)),
    (1, Some(1)),
    (1, None),
    (1, None),
    (1, Some(2)),
    (1, Some(1)),
    (0, None),
    (1, Some(3)),
    (1, Some(1)),
    (1, Some(1)),
    (1, Some(1)),
    (1, Some(1)),
    (1, Some(1)),
    (2, Some(2)),
];

/// append extend insert pop index reverse sort, get items keys values, strip lstrip rstrip split join replace find startswith endswith upper
/// lower isdigit ljust rjust, read readline write close, time_ns randint randrange
const METHODS: [Arity; 32] = [
    (1, Some(1)),
    (1, Some(1)),
    (2, Some(2)),
    (0, Some(1)),
    (1, Some(1)),
    (0, Some(0)),
    (0, Some(0)),
    (1, Some(2)),
    (0, Some(0)),
    (0, Some(0)),
    (0, Some(0)),
    (0, Some(0)),
    (0, Some(0)),
    (0, Some(0)),
    (0, Some(1)),
    (1, Some(1)),
    (2, Some(2)),
    (1, Some(1)),
    (1, Some(1)),
    (1, Some(1)),
    (0, Some(0)),
    (0, Some(0)),
    (0, Some(0)),
    (1, Some(1)),
    (1, Some(1)),
    (0, Some(0)),
    (0, Some(0)),
    (1, Some(1)),
    (0, Some(0)),
    (0, Some(0)),
    (2, Some(2)),
    (1, Some(1)),
];

/// Whether what has this number takes so many arguments.
fn takes_at(arities: &[Arity], number: u64, count: usize) -> bool
    ensures takes { result ≡ takes_so_many (slice_get arities.now number) count }
    ensures within { result ≡ true → number < length arities.now }
{
    let Some((least, most)) = arities.get(number as usize) else {
        return false;
    };
    match most {
        None => *least <= count,
        Some(most) => *least <= count && count <= *most,
    }
}

/// A call fails: what is called is not callable, or the number of arguments is wrong.
fn fails<'a>(at: Pos, reason: u8) -> Turn<'a>
    ensures means { (table : ValuesView) → turn_seen table result ≡ fails at reason }
    ensures operation { IsOfOperation result }
{
    Turn::Perform(Order {
        at,
        no: 38,
        want: Want::Value(Value::Int(i64::from(reason))),
        skip: false,
        after: After::Never,
    })
}

/// A function or method of the language is called: its operation.
fn calls<'a>(at: Pos, no: u8) -> Turn<'a>
    requires operation { is_operation no ≡ true }
    requires plain { names_text no ≡ false }
    ensures means { (table : ValuesView) → turn_seen table result ≡ performs at no plain true pops }
    ensures operation { IsOfOperation result }
{
    Turn::Perform(Order {
        at,
        no,
        want: Want::Plain,
        skip: true,
        after: After::Pop,
    })
}

/// A function of the language is called with so many arguments.
fn builtin_turn<'a>(at: Pos, number: u64, count: usize) -> Turn<'a>
    ensures means { (table : ValuesView) → turn_seen table result ≡ builtin_turn at number count }
    ensures operation { IsOfOperation result }
{
    if takes_at(&FUNCTIONS, number, count) {
        return calls(at, 50 + number as u8);
    }
    if number < 22 {
        fails(at, 1)
    } else {
        fails(at, 0)
    }
}

/// What is called is the first of these values, and its arguments the others.
fn call_turn<'a>(at: Pos, have: &[Value]) -> Turn<'a>
    ensures means { (table : ValuesView) → turn_seen table result ≡ call_turn at (map (contents table) have.now) }
    ensures operation { IsOfOperation result }
{
    let Some((callee, arguments)) = have.split_first() else {
        return fails(at, 0);
    };
    match callee {
        Value::Fn(_) => Turn::Call(*callee),
        Value::Class(_) => Turn::Call(*callee),
        Value::Exc(_) => Turn::Call(*callee),
        Value::Builtin(number) => builtin_turn(at, *number, arguments.len()),
        Value::None => fails(at, 0),
        Value::Bool(_) => fails(at, 0),
        Value::Int(_) => fails(at, 0),
        Value::Text(_) => fails(at, 0),
        Value::Tuple(_) => fails(at, 0),
        Value::Range(_, _, _) => fails(at, 0),
        Value::Object(_) => fails(at, 0),
    }
}

/// A method of the language is called with so many arguments beside its receiver.
fn number_turn<'a>(at: Pos, number: u64, count: usize) -> Turn<'a>
    ensures means { (table : ValuesView) → turn_seen table result ≡ number_turn at number count }
    ensures operation { IsOfOperation result }
{
    if number < 80 {
        return fails(at, 0);
    }
    if takes_at(&METHODS, number - 80, count) {
        return calls(at, number as u8);
    }
    fails(at, 1)
}

/// What is called is the first of these values, on the second, and its arguments are the others.
fn method_turn<'a>(at: Pos, have: &[Value]) -> Turn<'a>
    ensures means { (table : ValuesView) → turn_seen table result ≡ method_turn at (map (contents table) have.now) }
    ensures operation { IsOfOperation result }
{
    let Some((callee, others)) = have.split_first() else {
        return fails(at, 0);
    };
    let Some((_, arguments)) = others.split_first() else {
        return fails(at, 0);
    };
    match callee {
        Value::Builtin(number) => number_turn(at, *number, arguments.len()),
        Value::Fn(_) => fails(at, 0),
        Value::Class(_) => fails(at, 0),
        Value::Exc(_) => fails(at, 0),
        Value::None => fails(at, 0),
        Value::Bool(_) => fails(at, 0),
        Value::Int(_) => fails(at, 0),
        Value::Text(_) => fails(at, 0),
        Value::Tuple(_) => fails(at, 0),
        Value::Range(_, _, _) => fails(at, 0),
        Value::Object(_) => fails(at, 0),
    }
}

/// The number of an operator before its operand.
fn unary_number(op: UnOp) -> u8
    ensures number { result ≡ unary_number op }
    ensures operation { is_operation result ≡ true }
{
    match op {
        UnOp::Not => 4,
        UnOp::Minus => 5,
        UnOp::Plus => 6,
    }
}

/// The number of an operator of arithmetic.
fn binary_number(op: BinOp) -> u8
    ensures number { result ≡ binary_number op }
    ensures operation { is_operation result ≡ true }
{
    match op {
        BinOp::Add => 7,
        BinOp::Sub => 8,
        BinOp::Mul => 9,
        BinOp::FloorDiv => 10,
        BinOp::Mod => 11,
    }
}

/// The number of a comparison.
fn compare_number(op: CmpOp) -> u8
    ensures number { result ≡ compare_number op }
    ensures operation { is_operation result ≡ true }
{
    match op {
        CmpOp::Eq => 12,
        CmpOp::Ne => 13,
        CmpOp::Lt => 14,
        CmpOp::Le => 15,
        CmpOp::Gt => 16,
        CmpOp::Ge => 17,
        CmpOp::In => 18,
        CmpOp::NotIn => 19,
        CmpOp::Is => 20,
        CmpOp::IsNot => 21,
    }
}

impl<'a> Code<'a> {
    /// The number of the operation.
    fn number(self) -> u8
        ensures number { result ≡ code_number self.entry }
        ensures operation { is_operation result ≡ true }
    {
        match self {
            Code::Const(_) => 0,
            Code::Load(_) => 1,
            Code::Give => 2,
            Code::Unary(op) => unary_number(op),
            Code::Binary(op) => binary_number(op),
            Code::Compare(op) => compare_number(op),
            Code::List => 23,
            Code::Dict => 24,
            Code::Tuple => 25,
            Code::Part => 26,
            Code::Range => 27,
            Code::Attr(_) => 30,
        }
    }

    /// What the operation names.
    #[tactic(auto, using(crate::proofs::Codes::unary_plain, crate::proofs::Codes::binary_plain, crate::proofs::Codes::compare_plain))]
    fn want(self) -> Want<'a>
        ensures means { (table : ValuesView) → want_seen table result ≡ code_want self.entry }
        ensures wanted { IsWanted (code_number self.entry) result }
    {
        match self {
            Code::Const(atom) => match atom {
                Atom::None => Want::Value(Value::None),
                Atom::Bool(b) => Want::Value(Value::Bool(*b)),
                Atom::Int(i) => Want::Value(Value::Int(*i)),
                Atom::Text(text) => Want::Text(text),
            },
            Code::Load(name) => Want::Variable(name),
            Code::Attr(name) => Want::Name(name),
            Code::Unary(_) => Want::Plain,
            Code::Binary(_) => Want::Plain,
            Code::Compare(_) => Want::Plain,
            Code::Give => Want::Plain,
            Code::Part => Want::Plain,
            Code::Range => Want::Plain,
            Code::List => Want::Plain,
            Code::Dict => Want::Plain,
            Code::Tuple => Want::Plain,
        }
    }
}

/// An operation on all values.
fn on_all<'a>(at: Pos, no: u8, want: Want<'a>, after: After<'a>) -> Turn<'a>
    ensures { result ≡ Perform (record { at = at; no = no; want = want.entry; skip = false; after = after.entry }) }
{
    Turn::Perform(Order {
        at,
        no,
        want,
        skip: false,
        after,
    })
}

impl<'a> Frame<'a> {
    /// What the node is to do, now that it has all its operands.
    pub(crate) fn turn(&self) -> Turn<'a>
        ensures means { (table : ValuesView) → turn_seen table result ≡ turn_by self.now.node.at (finish_seen table self.now.node.finish) (map (contents table) self.now.have.items) }
        ensures operation { IsOfOperation result }
    {
        let at = self.node.at;
        match self.node.finish {
            Finish::Do(code) => on_all(at, code.number(), code.want(), After::Pop),
            Finish::Giving(_) => on_all(at, 2, Want::Plain, After::Pop),
            Finish::Test(place, branch) => on_all(place, 3, Want::Plain, After::Branch(branch)),
            Finish::Find(dot, name, arguments) => on_all(
                dot,
                32,
                Want::Name(name),
                After::Bind(arguments),
            ),
            Finish::Call => call_turn(at, self.have.as_slice()),
            Finish::Method => method_turn(at, self.have.as_slice()),
        }
    }
}
