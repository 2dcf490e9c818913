// Statements and scripts, as the parser builds them and the interpreter walks them. The grammar is this project's
// profile of The Python Language Reference 3.11.
use crate::expr::{BinOp, Expr, Target};
use prov_base::{Name, Pos, Span};

/// The name after `as`: `"as" NAME`, as in `with open('a') as file:`.
#[derive(Drop)]
pub struct Bound {
    pub at: Pos,
    pub name: Name,
}

/// The parameters of a function: `"(" [NAME { "," NAME } [","]] ")"`, as in `def area(width, height):`.
#[derive(Drop)]
pub struct Params {
    pub list: Vec<Name>,
}

/// The names that a function declares global, of all its lines `global NAME { "," NAME }`, in the order of the text.
/// Such lines are no statements.
#[derive(Drop)]
pub struct Globals {
    pub list: Vec<Name>,
}

/// Statements in a row: `suite = simple NEWLINE | NEWLINE INDENT stmt { stmt } DEDENT`.
#[cycle(stmt)]
#[derive(Drop)]
pub struct Suite {
    pub list: Vec<Stmt>,
}

/// The tests of an `if` with their suites: `"if" expr ":" suite { "elif" expr ":" suite }`.
#[cycle(stmt)]
#[derive(Drop)]
pub struct Branches {
    pub list: Vec<(Expr, Suite)>,
}

/// The handlers of a `try`: `handler = "except" [expr ["as" NAME]] ":" suite`, as in `except ValueError as e:`.
#[cycle(stmt)]
#[derive(Drop)]
pub struct Handlers {
    pub list: Vec<(Option<Expr>, Option<Bound>, Suite)>,
}

/// A statement. Statements are numbered from 0 in the order of the text, a compound one before those in it. The place
/// is that of its first token, and the span goes from there to the end of its last line.
#[cycle(stmt)]
#[derive(Drop)]
pub struct Stmt {
    pub no: u32,
    pub pos: Pos,
    pub span: Span,
    pub form: Box<Form>,
}

/// What a statement is: `stmt = simple NEWLINE | if | while | for | try | with | def | class`.
#[cycle(stmt)]
#[derive(Drop)]
pub enum Form {
    /// `exprs`, as in `print(x)`.
    Do(Expr),
    /// `target "=" exprs`, as in `a, b = pair`.
    Assign(Target, Expr),
    /// `target1 ("+=" | "-=" | "*=" | "//=" | "%=") exprs`, with the place of the operator, as in `x += 1`.
    Aug(Target, BinOp, Pos, Expr),
    /// `"del" target1`, as in `del a[0]`.
    Del(Target),
    /// `pass`
    Pass,
    /// `break`
    Break,
    /// `continue`
    Continue,
    /// `"return" [exprs]`, as in `return x`.
    Return(Option<Expr>),
    /// `"raise" [expr]`, as in `raise ValueError('bad')`.
    Raise(Option<Expr>),
    /// `"assert" expr ["," expr]`, as in `assert x, 'no x'`.
    Assert(Expr, Option<Expr>),
    /// `"import" NAME`, as in `import sys`.
    Import(Name),
    /// `"if" expr ":" suite { "elif" expr ":" suite } ["else" ":" suite]`.
    If(Branches, Option<Suite>),
    /// `"while" expr ":" suite`.
    While(Expr, Suite),
    /// `"for" target "in" exprs ":" suite`.
    For(Target, Expr, Suite),
    /// `"try" ":" suite handler { handler }`.
    Try(Suite, Handlers),
    /// `"with" expr ["as" NAME] ":" suite`.
    With(Expr, Option<Bound>, Suite),
    /// `"def" NAME "(" [NAME { "," NAME } [","]] ")" ":" suite`, with the names that the suite declares global.
    Def(Name, Params, Globals, Suite),
    /// `"class" NAME ["(" [NAME] ")"] ":" suite`, with the class that is named in the brackets.
    Class(Name, Option<Expr>, Suite),
}

/// A script: `script = { stmt }`, with the number of all statements in it.
#[derive(Drop)]
pub struct Script {
    pub body: Suite,
    pub count: u32,
}

/// Drops a script. Crates above call this, so the drop of the whole tree is proved here alone.
pub fn drop_script(_script: Script) {}
