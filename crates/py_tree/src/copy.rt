// Deep copies of what stands in statements. A copy has the pure tree of what it copies.
ghost use Rattle.std.specs.Prelude.{◌≡◌, IfOk, option_map};
ghost use Rattle.py_tree.specs.Erasure.{expr_of, exprs_of, pairs_of, target_of, targets_of};

use crate::expr::{Atom, Expr, Exprs, Pairs, Target, Targets};
use crate::stmt::{Bound, Globals, Params};
use prov_base::{Memory, Name};
use std::alloc::Global;

/// A name with the same text, or Memory.
pub(crate) fn copy_name(alloc: Global, name: &Name) -> Result<Name, Memory>
    ensures { IfOk result (λ n. n ≡ name.now) }
{
    Ok(Name::of(String::from_str(alloc, name.as_str())?))
}

impl Atom {
    /// The same atom, or Memory.
    pub(crate) fn copy(&self, alloc: Global) -> Result<Atom, Memory>
        ensures { IfOk result (λ a. a ≡ self.now) }
    {
        match self {
            Atom::None => Ok(Atom::None),
            Atom::Bool(value) => Ok(Atom::Bool(*value)),
            Atom::Int(value) => Ok(Atom::Int(*value)),
            Atom::Text(text) => {
                let copied = copy_name(alloc, text)?;
                Ok(Atom::Text(copied))
            }
        }
    }
}

impl Expr {
    /// An expression with the same tree, or Memory.
    #[cycle(copy_expr)]
    pub(crate) fn copy(&self, alloc: Global) -> Result<Expr, Memory>
        ensures { IfOk result (λ e. expr_of e ≡ expr_of self.now) }
    {
        match self {
            Expr::Const(at, atom) => {
                let atom = atom.copy(alloc)?;
                Ok(Expr::Const(*at, atom))
            }
            Expr::Var(at, name) => {
                let name = copy_name(alloc, name)?;
                Ok(Expr::Var(*at, name))
            }
            Expr::Unary(at, op, operand) => {
                let operand = operand.copy_boxed(alloc)?;
                Ok(Expr::Unary(*at, *op, operand))
            }
            Expr::Binary(at, op, left, right) => {
                let left = left.copy_boxed(alloc)?;
                let right = right.copy_boxed(alloc)?;
                Ok(Expr::Binary(*at, *op, left, right))
            }
            Expr::Compare(at, op, left, right) => {
                let left = left.copy_boxed(alloc)?;
                let right = right.copy_boxed(alloc)?;
                Ok(Expr::Compare(*at, *op, left, right))
            }
            Expr::Logic(at, op, left, right) => {
                let left = left.copy_boxed(alloc)?;
                let right = right.copy_boxed(alloc)?;
                Ok(Expr::Logic(*at, *op, left, right))
            }
            Expr::Choose(at, test, chosen, other) => {
                let test = test.copy_boxed(alloc)?;
                let chosen = chosen.copy_boxed(alloc)?;
                let other = other.copy_boxed(alloc)?;
                Ok(Expr::Choose(*at, test, chosen, other))
            }
            Expr::Call(at, callee, arguments) => {
                let callee = callee.copy_boxed(alloc)?;
                let arguments = arguments.copy(alloc)?;
                Ok(Expr::Call(*at, callee, arguments))
            }
            Expr::Attr(at, object, name) => {
                let object = object.copy_boxed(alloc)?;
                let name = copy_name(alloc, name)?;
                Ok(Expr::Attr(*at, object, name))
            }
            Expr::Part(at, object, index) => {
                let object = object.copy_boxed(alloc)?;
                let index = index.copy_boxed(alloc)?;
                Ok(Expr::Part(*at, object, index))
            }
            Expr::Range(at, object, low, high) => {
                let object = object.copy_boxed(alloc)?;
                let low = copy_limit(low, alloc)?;
                let high = copy_limit(high, alloc)?;
                Ok(Expr::Range(*at, object, low, high))
            }
            Expr::List(at, items) => {
                let items = items.copy(alloc)?;
                Ok(Expr::List(*at, items))
            }
            Expr::Dict(at, pairs) => {
                let pairs = pairs.copy(alloc)?;
                Ok(Expr::Dict(*at, pairs))
            }
            Expr::Tuple(at, items) => {
                let items = items.copy(alloc)?;
                Ok(Expr::Tuple(*at, items))
            }
        }
    }

    #[cycle(copy_expr)]
    fn copy_boxed(&self, alloc: Global) -> Result<Box<Expr>, Memory>
        ensures { IfOk result (λ b. expr_of b.value ≡ expr_of self.now) }
    {
        let copied = self.copy(alloc)?;
        Ok(Box::new(alloc, copied)?)
    }
}

#[cycle(copy_expr)]
fn copy_limit(limit: &Option<Box<Expr>>, alloc: Global) -> Result<Option<Box<Expr>>, Memory>
    ensures { IfOk result (λ o. option_map (λ b. expr_of b.value) o ≡ option_map (λ b. expr_of b.value) limit.now) }
{
    match limit {
        None => Ok(None),
        Some(expr) => {
            let copied = expr.copy_boxed(alloc)?;
            Ok(Some(copied))
        }
    }
}

impl Exprs {
    /// A list of expressions with the same trees, or Memory.
    #[cycle(copy_expr)]
    pub(crate) fn copy(&self, alloc: Global) -> Result<Exprs, Memory>
        ensures { IfOk result (λ es. exprs_of es ≡ exprs_of self.now) }
    {
        let mut list = Vec::new(alloc);
        for expr in &self.list {
            let copied = expr.copy(alloc)?;
            list.push(copied)?;
        }
        Ok(Exprs { list })
    }
}

impl Pairs {
    /// A list of pairs with the same trees, or Memory.
    #[cycle(copy_expr)]
    pub(crate) fn copy(&self, alloc: Global) -> Result<Pairs, Memory>
        ensures { IfOk result (λ ps. pairs_of ps ≡ pairs_of self.now) }
    {
        let mut list = Vec::new(alloc);
        for (key, value) in &self.list {
            let key = key.copy(alloc)?;
            let value = value.copy(alloc)?;
            list.push((key, value))?;
        }
        Ok(Pairs { list })
    }
}

/// An optional expression with the same tree, or Memory.
pub(crate) fn copy_option(alloc: Global, expr: &Option<Expr>) -> Result<Option<Expr>, Memory>
    ensures { IfOk result (λ o. option_map expr_of o ≡ option_map expr_of expr.now) }
{
    match expr {
        None => Ok(None),
        Some(expr) => {
            let copied = expr.copy(alloc)?;
            Ok(Some(copied))
        }
    }
}

impl Target {
    /// A target with the same tree, or Memory.
    #[cycle(copy_target)]
    pub(crate) fn copy(&self, alloc: Global) -> Result<Target, Memory>
        ensures { IfOk result (λ t. target_of t ≡ target_of self.now) }
    {
        match self {
            Target::Var(at, name) => {
                let name = copy_name(alloc, name)?;
                Ok(Target::Var(*at, name))
            }
            Target::Part(at, object, index) => {
                let object = object.copy(alloc)?;
                let index = index.copy(alloc)?;
                Ok(Target::Part(*at, object, index))
            }
            Target::Field(at, object, name) => {
                let object = object.copy(alloc)?;
                let name = copy_name(alloc, name)?;
                Ok(Target::Field(*at, object, name))
            }
            Target::Many(targets) => {
                let targets = targets.copy(alloc)?;
                Ok(Target::Many(targets))
            }
        }
    }
}

impl Targets {
    /// A list of targets with the same trees, or Memory.
    #[cycle(copy_target)]
    pub(crate) fn copy(&self, alloc: Global) -> Result<Targets, Memory>
        ensures { IfOk result (λ ts. targets_of ts ≡ targets_of self.now) }
    {
        let mut list = Vec::new(alloc);
        for target in &self.list {
            let copied = target.copy(alloc)?;
            list.push(copied)?;
        }
        Ok(Targets { list })
    }
}

/// The same name after `as`, or none, or Memory.
pub(crate) fn copy_bound(alloc: Global, bound: &Option<Bound>) -> Result<Option<Bound>, Memory>
    ensures { IfOk result (λ o. o ≡ bound.now) }
{
    match bound {
        None => Ok(None),
        Some(bound) => {
            let name = copy_name(alloc, &bound.name)?;
            Ok(Some(Bound { at: bound.at, name }))
        }
    }
}

fn copy_names(alloc: Global, names: &[Name]) -> Result<Vec<Name>, Memory>
    ensures { IfOk result (λ v. v.items ≡ names.now) }
{
    let mut list = Vec::new(alloc);
    for name in names {
        let copied = copy_name(alloc, name)?;
        list.push(copied)?;
    }
    Ok(list)
}

impl Params {
    /// The same parameters, or Memory.
    pub(crate) fn copy(&self, alloc: Global) -> Result<Params, Memory>
        ensures { IfOk result (λ p. p.list.items ≡ self.now.list.items) }
    {
        let list = copy_names(alloc, self.list.as_slice())?;
        Ok(Params { list })
    }
}

impl Globals {
    /// The same names, or Memory.
    pub(crate) fn copy(&self, alloc: Global) -> Result<Globals, Memory>
        ensures { IfOk result (λ g. g.list.items ≡ self.now.list.items) }
    {
        let list = copy_names(alloc, self.list.as_slice())?;
        Ok(Globals { list })
    }
}
