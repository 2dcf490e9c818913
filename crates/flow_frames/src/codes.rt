// The operations of statements: their numbers, and what they name beside that.
ghost use Rattle.std.specs.Prelude.{◌≡◌, true};
ghost use Rattle.py_value.specs.Contents.{contents};
ghost use Rattle.py_value.specs.Values.{ValuesView, IsNamed};
ghost use Rattle.py_model.specs.Told.{is_operation};
ghost use Rattle.py_model.specs.Statements.{augmented_number, module_of};
ghost use Rattle.interp_eval.specs.Turns.{want_seen, IsWanted};
ghost use Rattle.flow_frames.specs.Codes.{code_number, code_value, code_want};

use interp_eval::Want;
use prov_base::{Name, Pos};
use py_tree::BinOp;
use py_value::Value;

/// An operation of a statement.
#[derive(Clone, Copy)]
pub enum Code<'a> {
    /// Whether a value is true.
    Truth,
    /// The value of a name.
    Load(&'a Name),
    /// The operator of an augmented assignment.
    Sign(BinOp),
    /// An item is got.
    Item,
    /// An item is set.
    SetItem,
    /// An item is deleted.
    DeleteItem,
    /// An attribute is got.
    Field(&'a Name),
    /// An attribute is set.
    SetField(&'a Name),
    /// A name is bound.
    Bind(&'a Name),
    /// A name is unbound, by `del`.
    Unbind(&'a Name),
    /// A name is unbound at the end of its clause.
    Clear(&'a Name),
    /// A value is taken apart into so many.
    Unpack(u32),
    /// The size of what a `for` goes over.
    Size,
    /// The next item of it.
    Next,
    /// An exception is raised.
    Raise,
    /// Whether an exception is of a class.
    Match,
    /// A function is made, by its name and place.
    Function(&'a Name, Pos),
    /// A class is made, by its name and place.
    Class(&'a Name, Pos),
    /// A module is imported.
    Import(&'a Name),
    /// A file is closed.
    Close,
    /// A file is entered.
    Enter,
    /// An assertion fails.
    Fail,
    /// A call fails: what is called is not callable (0), the number of arguments is wrong (1), or one activation too many would be open (2).
    NoCall(u32),
}

/// The number of the operator of an augmented assignment.
fn sign_number(op: BinOp) -> u8
    ensures number { result ≡ augmented_number op }
    ensures operation { is_operation result ≡ true }
{
    match op {
        BinOp::Add => 22,
        BinOp::Sub => 8,
        BinOp::Mul => 9,
        BinOp::FloorDiv => 10,
        BinOp::Mod => 11,
    }
}

/// The module with this name; None where there is none.
fn module_at(name: &Name) -> Value
    ensures means { (table : ValuesView) → contents table result ≡ module_of name.entry.now }
    ensures named { (table : ValuesView) → IsNamed table result }
{
    let name = name.as_str();
    if name == "sys" {
        return Value::Builtin(22);
    }
    if name == "time" {
        return Value::Builtin(23);
    }
    if name == "random" {
        return Value::Builtin(24);
    }
    Value::None
}

impl<'a> Code<'a> {
    /// The number of the operation.
    pub fn number(self) -> u8
        ensures number { result ≡ code_number self.entry }
        ensures operation { is_operation result ≡ true }
    {
        match self {
            Code::Load(_) => 1,
            Code::Truth => 3,
            Code::Sign(op) => sign_number(op),
            Code::Item => 26,
            Code::SetItem => 28,
            Code::DeleteItem => 29,
            Code::Field(_) => 30,
            Code::SetField(_) => 31,
            Code::Bind(_) => 33,
            Code::Unbind(_) => 34,
            Code::Clear(_) => 34,
            Code::Unpack(_) => 35,
            Code::Size => 36,
            Code::Next => 37,
            Code::Raise => 40,
            Code::Match => 41,
            Code::Function(_, _) => 42,
            Code::Class(_, _) => 43,
            Code::Import(_) => 44,
            Code::Close => 45,
            Code::Enter => 46,
            Code::Fail => 47,
            Code::NoCall(_) => 38,
        }
    }

    /// The text that the operation names.
    #[tactic(auto, using(crate::proofs::Plain::sign_plain))]
    pub fn want(self) -> Want<'a>
        ensures means { (table : ValuesView) → want_seen table result ≡ code_want self.entry }
        ensures wanted { IsWanted (code_number self.entry) result }
    {
        match self {
            Code::Load(name) => Want::Variable(name),
            Code::Field(name) => Want::Name(name),
            Code::SetField(name) => Want::Name(name),
            Code::Bind(name) => Want::Variable(name),
            Code::Unbind(name) => Want::Variable(name),
            Code::Clear(name) => Want::Variable(name),
            Code::Function(name, _) => Want::Name(name),
            Code::Class(name, _) => Want::Name(name),
            Code::Import(name) => Want::Variable(name),
            Code::Truth => Want::Plain,
            Code::Sign(_) => Want::Plain,
            Code::Item => Want::Plain,
            Code::SetItem => Want::Plain,
            Code::DeleteItem => Want::Plain,
            Code::Unpack(_) => Want::Plain,
            Code::Size => Want::Plain,
            Code::Next => Want::Plain,
            Code::Raise => Want::Plain,
            Code::Match => Want::Plain,
            Code::Close => Want::Plain,
            Code::Enter => Want::Plain,
            Code::Fail => Want::Plain,
            Code::NoCall(_) => Want::Plain,
        }
    }

    /// The value that the operation names.
    pub fn value(self) -> Value
        ensures means { (table : ValuesView) → contents table result ≡ code_value self.entry }
        ensures named { (table : ValuesView) → IsNamed table result }
    {
        match self {
            Code::Clear(_) => Value::Bool(true),
            Code::Unpack(count) => Value::Int(i64::from(count)),
            Code::NoCall(reason) => Value::Int(i64::from(reason)),
            Code::Function(_, at) => Value::Fn(at),
            Code::Class(_, at) => Value::Class(at),
            Code::Import(name) => module_at(name),
            Code::Load(_) => Value::None,
            Code::Truth => Value::None,
            Code::Sign(_) => Value::None,
            Code::Item => Value::None,
            Code::SetItem => Value::None,
            Code::DeleteItem => Value::None,
            Code::Field(_) => Value::None,
            Code::SetField(_) => Value::None,
            Code::Bind(_) => Value::None,
            Code::Unbind(_) => Value::None,
            Code::Size => Value::None,
            Code::Next => Value::None,
            Code::Raise => Value::None,
            Code::Match => Value::None,
            Code::Close => Value::None,
            Code::Enter => Value::None,
            Code::Fail => Value::None,
        }
    }
}
