// Syntax trees and faults as texts. A node of an expression is its operator or kind, and then its parts from the left, those of
// a conditional beginning with the test. A fault is its name and its place.
use prov_base::{Name, Pos};
use py_parser::ParseFault;
use py_tree::{
    Atom, BinOp, Bound, CmpOp, Expr, Exprs, Form, LogicOp, Pairs, Stmt, Suite, Target, Targets,
    UnOp,
};
use std::alloc::{AllocError, Global};

/// What is shown of nodes and texts.
#[derive(Clone, Copy, PartialEq, Eq)]
pub enum Style {
    /// Each node with its place, and texts between double quotes.
    Placed,
    /// No places, and texts between single quotes, with `~` for a line end.
    Plain,
}

fn show_word(
    alloc: Global,
    out: &mut String,
    style: Style,
    word: &str,
    at: &Pos,
) -> Result<(), AllocError> {
    out.push_str(word)?;
    if style == Style::Placed {
        out.push_str(format!(in alloc; "@{}:{}", at.line, at.col)?.as_str())?;
    }
    Ok(())
}

fn quoted(alloc: Global, style: Style, text: &str) -> Result<String, AllocError> {
    if style == Style::Placed {
        return format!(in alloc; "{text:?}");
    }
    let mut out = String::new(alloc);
    out.push_str("'")?;
    for c in text.chars() {
        out.push(if c == '\n' { '~' } else { c })?;
    }
    out.push_str("'")?;
    Ok(out)
}

fn show_atom(
    alloc: Global,
    out: &mut String,
    style: Style,
    at: &Pos,
    atom: &Atom,
) -> Result<(), AllocError> {
    match atom {
        Atom::None => show_word(alloc, out, style, "None", at),
        Atom::Bool(true) => show_word(alloc, out, style, "True", at),
        Atom::Bool(false) => show_word(alloc, out, style, "False", at),
        Atom::Int(value) => {
            let digits = format!(in alloc; "{value}")?;
            show_word(alloc, out, style, digits.as_str(), at)
        }
        Atom::Text(text) => {
            let text = quoted(alloc, style, text.as_str())?;
            show_word(alloc, out, style, text.as_str(), at)
        }
    }
}

fn unary_word(op: UnOp) -> &'static str {
    match op {
        UnOp::Minus => "-",
        UnOp::Plus => "+",
        UnOp::Not => "not",
    }
}

fn binary_word(op: BinOp) -> &'static str {
    match op {
        BinOp::Add => "+",
        BinOp::Sub => "-",
        BinOp::Mul => "*",
        BinOp::FloorDiv => "//",
        BinOp::Mod => "%",
    }
}

fn augmented_word(op: BinOp) -> &'static str {
    match op {
        BinOp::Add => "+=",
        BinOp::Sub => "-=",
        BinOp::Mul => "*=",
        BinOp::FloorDiv => "//=",
        BinOp::Mod => "%=",
    }
}

fn comparison_word(op: CmpOp) -> &'static str {
    match op {
        CmpOp::Eq => "==",
        CmpOp::Ne => "!=",
        CmpOp::Lt => "<",
        CmpOp::Le => "<=",
        CmpOp::Gt => ">",
        CmpOp::Ge => ">=",
        CmpOp::In => "in",
        CmpOp::NotIn => "not in",
        CmpOp::Is => "is",
        CmpOp::IsNot => "is not",
    }
}

fn logic_word(op: LogicOp) -> &'static str {
    match op {
        LogicOp::And => "and",
        LogicOp::Or => "or",
    }
}

#[cycle(show_expr)]
fn show_expr(alloc: Global, out: &mut String, style: Style, expr: &Expr) -> Result<(), AllocError> {
    match expr {
        Expr::Const(at, atom) => show_atom(alloc, out, style, at, atom),
        Expr::Var(at, name) => show_word(alloc, out, style, name.as_str(), at),
        _ => {
            out.push_str("(")?;
            show_operator(alloc, out, style, expr)?;
            out.push_str(")")?;
            Ok(())
        }
    }
}

#[cycle(show_expr)]
fn show_operator(
    alloc: Global,
    out: &mut String,
    style: Style,
    expr: &Expr,
) -> Result<(), AllocError> {
    match expr {
        Expr::Unary(at, op, operand) => {
            show_word(alloc, out, style, unary_word(*op), at)?;
            show_part(alloc, out, style, operand)
        }
        Expr::Binary(at, op, left, right) => {
            show_word(alloc, out, style, binary_word(*op), at)?;
            show_part(alloc, out, style, left)?;
            show_part(alloc, out, style, right)
        }
        Expr::Compare(at, op, left, right) => {
            show_word(alloc, out, style, comparison_word(*op), at)?;
            show_part(alloc, out, style, left)?;
            show_part(alloc, out, style, right)
        }
        Expr::Logic(at, op, left, right) => {
            show_word(alloc, out, style, logic_word(*op), at)?;
            show_part(alloc, out, style, left)?;
            show_part(alloc, out, style, right)
        }
        Expr::Choose(at, test, chosen, other) => {
            show_word(alloc, out, style, "if", at)?;
            show_part(alloc, out, style, test)?;
            show_part(alloc, out, style, chosen)?;
            show_part(alloc, out, style, other)
        }
        _ => show_primary(alloc, out, style, expr),
    }
}

#[cycle(show_expr)]
fn show_primary(
    alloc: Global,
    out: &mut String,
    style: Style,
    expr: &Expr,
) -> Result<(), AllocError> {
    match expr {
        Expr::Call(at, callee, arguments) => {
            show_word(alloc, out, style, "call", at)?;
            show_part(alloc, out, style, callee)?;
            show_exprs(alloc, out, style, arguments)
        }
        Expr::Attr(at, object, name) => {
            out.push_str(".")?;
            show_word(alloc, out, style, name.as_str(), at)?;
            show_part(alloc, out, style, object)
        }
        Expr::Part(at, object, index) => {
            show_word(alloc, out, style, "part", at)?;
            show_part(alloc, out, style, object)?;
            show_part(alloc, out, style, index)
        }
        Expr::Range(at, object, low, high) => {
            show_word(alloc, out, style, "range", at)?;
            show_part(alloc, out, style, object)?;
            show_limit(alloc, out, style, low)?;
            show_limit(alloc, out, style, high)
        }
        _ => show_display(alloc, out, style, expr),
    }
}

#[cycle(show_expr)]
fn show_display(
    alloc: Global,
    out: &mut String,
    style: Style,
    expr: &Expr,
) -> Result<(), AllocError> {
    match expr {
        Expr::List(at, items) => {
            show_word(alloc, out, style, "list", at)?;
            show_exprs(alloc, out, style, items)
        }
        Expr::Dict(at, pairs) => {
            show_word(alloc, out, style, "dict", at)?;
            show_pairs(alloc, out, style, pairs)
        }
        Expr::Tuple(at, items) => {
            show_word(alloc, out, style, "tuple", at)?;
            show_exprs(alloc, out, style, items)
        }
        _ => Ok(()),
    }
}

#[cycle(show_expr)]
pub fn show_part(
    alloc: Global,
    out: &mut String,
    style: Style,
    part: &Expr,
) -> Result<(), AllocError> {
    out.push_str(" ")?;
    show_expr(alloc, out, style, part)
}

#[cycle(show_expr)]
fn show_limit(
    alloc: Global,
    out: &mut String,
    style: Style,
    limit: &Option<Box<Expr>>,
) -> Result<(), AllocError> {
    match limit {
        None => {
            out.push_str(" -")?;
            Ok(())
        }
        Some(limit) => show_part(alloc, out, style, limit),
    }
}

#[cycle(show_expr)]
fn show_exprs(
    alloc: Global,
    out: &mut String,
    style: Style,
    exprs: &Exprs,
) -> Result<(), AllocError> {
    for expr in &exprs.list {
        show_part(alloc, out, style, expr)?;
    }
    Ok(())
}

#[cycle(show_expr)]
fn show_pairs(
    alloc: Global,
    out: &mut String,
    style: Style,
    pairs: &Pairs,
) -> Result<(), AllocError> {
    for (key, value) in &pairs.list {
        show_part(alloc, out, style, key)?;
        show_part(alloc, out, style, value)?;
    }
    Ok(())
}

#[cycle(show_target)]
pub fn show_target(
    alloc: Global,
    out: &mut String,
    style: Style,
    target: &Target,
) -> Result<(), AllocError> {
    match target {
        Target::Var(at, name) => show_word(alloc, out, style, name.as_str(), at)?,
        Target::Part(at, object, index) => {
            out.push_str("(")?;
            show_word(alloc, out, style, "part", at)?;
            show_part(alloc, out, style, object)?;
            show_part(alloc, out, style, index)?;
            out.push_str(")")?;
        }
        Target::Field(at, object, name) => {
            out.push_str("(.")?;
            show_word(alloc, out, style, name.as_str(), at)?;
            show_part(alloc, out, style, object)?;
            out.push_str(")")?;
        }
        Target::Many(targets) => {
            out.push_str("(many")?;
            show_targets(alloc, out, style, targets)?;
            out.push_str(")")?;
        }
    }
    Ok(())
}

#[cycle(show_target)]
fn show_targets(
    alloc: Global,
    out: &mut String,
    style: Style,
    targets: &Targets,
) -> Result<(), AllocError> {
    for target in &targets.list {
        out.push_str(" ")?;
        show_target(alloc, out, style, target)?;
    }
    Ok(())
}

pub fn show_value(
    alloc: Global,
    out: &mut String,
    style: Style,
    value: &Option<Expr>,
) -> Result<(), AllocError> {
    match value {
        None => Ok(()),
        Some(value) => show_part(alloc, out, style, value),
    }
}

pub fn show_bound(
    alloc: Global,
    out: &mut String,
    style: Style,
    bound: &Option<Bound>,
) -> Result<(), AllocError> {
    if let Some(bound) = bound {
        out.push_str(" as ")?;
        show_word(alloc, out, style, bound.name.as_str(), &bound.at)?;
    }
    Ok(())
}

pub fn show_names(out: &mut String, names: &[Name]) -> Result<(), AllocError> {
    for name in names {
        out.push_str(" ")?;
        out.push_str(name.as_str())?;
    }
    Ok(())
}

pub fn show_simple(
    alloc: Global,
    out: &mut String,
    style: Style,
    form: &Form,
) -> Result<(), AllocError> {
    match form {
        Form::Do(value) => {
            out.push_str("do")?;
            show_part(alloc, out, style, value)
        }
        Form::Assign(target, value) => {
            out.push_str("= ")?;
            show_target(alloc, out, style, target)?;
            show_part(alloc, out, style, value)
        }
        Form::Aug(target, op, at, value) => {
            show_word(alloc, out, style, augmented_word(*op), at)?;
            out.push_str(" ")?;
            show_target(alloc, out, style, target)?;
            show_part(alloc, out, style, value)
        }
        Form::Del(target) => {
            out.push_str("del ")?;
            show_target(alloc, out, style, target)
        }
        _ => show_small(alloc, out, style, form),
    }
}

fn show_small(
    alloc: Global,
    out: &mut String,
    style: Style,
    form: &Form,
) -> Result<(), AllocError> {
    match form {
        Form::Pass => out.push_str("pass")?,
        Form::Break => out.push_str("break")?,
        Form::Continue => out.push_str("continue")?,
        Form::Return(value) => {
            out.push_str("return")?;
            show_value(alloc, out, style, value)?;
        }
        Form::Raise(value) => {
            out.push_str("raise")?;
            show_value(alloc, out, style, value)?;
        }
        Form::Assert(test, message) => {
            out.push_str("assert")?;
            show_part(alloc, out, style, test)?;
            show_value(alloc, out, style, message)?;
        }
        Form::Import(name) => {
            out.push_str("import ")?;
            out.push_str(name.as_str())?;
        }
        _ => {}
    }
    Ok(())
}

// A new line, so far in.
fn show_line(out: &mut String, depth: u32, word: &str) -> Result<(), AllocError> {
    out.push_str("\n")?;
    for _ in 0..depth {
        out.push_str("  ")?;
    }
    out.push_str(word)?;
    Ok(())
}

/// The statements of a suite, each on a line of its own: its number, its place, its bytes and its form. The statements of its
/// suites stand two columns further in.
#[cycle(show_suite)]
pub fn show_suite(
    alloc: Global,
    out: &mut String,
    style: Style,
    depth: u32,
    suite: &Suite,
) -> Result<(), AllocError> {
    for stmt in &suite.list {
        show_stmt(alloc, out, style, depth, stmt)?;
    }
    Ok(())
}

#[cycle(show_suite)]
fn show_stmt(
    alloc: Global,
    out: &mut String,
    style: Style,
    depth: u32,
    stmt: &Stmt,
) -> Result<(), AllocError> {
    let head = format!(in alloc;
        "{} {}:{} {}-{} ",
        stmt.no, stmt.pos.line, stmt.pos.col, stmt.span.from, stmt.span.to
    )?;
    show_line(out, depth, head.as_str())?;
    show_form(alloc, out, style, depth, &*stmt.form)
}

#[cycle(show_suite)]
fn show_form(
    alloc: Global,
    out: &mut String,
    style: Style,
    depth: u32,
    form: &Form,
) -> Result<(), AllocError> {
    let inner = depth.saturating_add(1);
    match form {
        Form::While(test, suite) => {
            out.push_str("while")?;
            show_part(alloc, out, style, test)?;
            show_suite(alloc, out, style, inner, suite)
        }
        Form::For(target, items, suite) => {
            out.push_str("for ")?;
            show_target(alloc, out, style, target)?;
            show_part(alloc, out, style, items)?;
            show_suite(alloc, out, style, inner, suite)
        }
        Form::With(value, bound, suite) => {
            out.push_str("with")?;
            show_part(alloc, out, style, value)?;
            show_bound(alloc, out, style, bound)?;
            show_suite(alloc, out, style, inner, suite)
        }
        Form::Class(name, base, suite) => {
            out.push_str("class ")?;
            out.push_str(name.as_str())?;
            show_value(alloc, out, style, base)?;
            show_suite(alloc, out, style, inner, suite)
        }
        _ => show_parts(alloc, out, style, depth, form),
    }
}

#[cycle(show_suite)]
fn show_parts(
    alloc: Global,
    out: &mut String,
    style: Style,
    depth: u32,
    form: &Form,
) -> Result<(), AllocError> {
    let inner = depth.saturating_add(1);
    match form {
        Form::If(branches, orelse) => {
            let mut first = true;
            for (test, suite) in &branches.list {
                if first {
                    out.push_str("if")?;
                } else {
                    show_line(out, depth, "elif")?;
                }
                first = false;
                show_part(alloc, out, style, test)?;
                show_suite(alloc, out, style, inner, suite)?;
            }
            show_else(alloc, out, style, depth, orelse)
        }
        Form::Try(body, handlers) => {
            out.push_str("try")?;
            show_suite(alloc, out, style, inner, body)?;
            for (class, bound, suite) in &handlers.list {
                show_line(out, depth, "except")?;
                show_value(alloc, out, style, class)?;
                show_bound(alloc, out, style, bound)?;
                show_suite(alloc, out, style, inner, suite)?;
            }
            Ok(())
        }
        _ => show_def(alloc, out, style, depth, form),
    }
}

#[cycle(show_suite)]
fn show_else(
    alloc: Global,
    out: &mut String,
    style: Style,
    depth: u32,
    orelse: &Option<Suite>,
) -> Result<(), AllocError> {
    match orelse {
        None => Ok(()),
        Some(suite) => {
            show_line(out, depth, "else")?;
            show_suite(alloc, out, style, depth.saturating_add(1), suite)
        }
    }
}

#[cycle(show_suite)]
fn show_def(
    alloc: Global,
    out: &mut String,
    style: Style,
    depth: u32,
    form: &Form,
) -> Result<(), AllocError> {
    match form {
        Form::Def(name, params, globals, suite) => {
            out.push_str("def ")?;
            out.push_str(name.as_str())?;
            show_names(out, params.list.as_slice())?;
            if !globals.list.is_empty() {
                out.push_str(" global")?;
                show_names(out, globals.list.as_slice())?;
            }
            show_suite(alloc, out, style, depth.saturating_add(1), suite)
        }
        _ => show_simple(alloc, out, style, form),
    }
}

/// A fault, at its place in the text.
pub fn show_fault(alloc: Global, fault: ParseFault) -> Result<String, AllocError> {
    show_fault_behind(alloc, fault, Pos { line: 1, col: 1 })
}

/// A fault, at its place as if this one were line 1 and column 1.
pub fn show_fault_behind(
    alloc: Global,
    fault: ParseFault,
    from: Pos,
) -> Result<String, AllocError> {
    let (name, at) = match fault {
        ParseFault::Unexpected(at) => ("Unexpected", at),
        ParseFault::Unsupported(at) => ("Unsupported", at),
        ParseFault::BadIndent(at) => ("BadIndent", at),
        ParseFault::TooDeep(at) => ("TooDeep", at),
        ParseFault::TooMany(at) => ("TooMany", at),
        ParseFault::Memory => return Ok(String::from_str(alloc, "Memory")?),
    };
    let line = at.line.saturating_add(1).saturating_sub(from.line);
    let col = at.col.saturating_add(1).saturating_sub(from.col);
    Ok(format!(in alloc; "{name} {line}:{col}")?)
}
