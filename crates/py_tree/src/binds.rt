// The names that a statement binds itself, apart from the statements in its suites.
ghost use Rattle.std.specs.Prelude.{◌≡◌};
ghost use Rattle.py_tree.specs.Erasure.{form_of, handlers_of, script_of, target_of, targets_of};
ghost use Rattle.py_tree.specs.Binds.{binds, bound_is, form_binds, handlers_bind, is_class, is_method, target_binds, targets_bind};
ghost use Rattle.py_tree.specs.Found.{standing_of};
ghost use Rattle.py_tree.specs.Numbering.{IsNumbered};

use crate::expr::{Target, Targets};
use crate::owners::Found;
use crate::stmt::{Bound, Form, Handlers, Script};

impl Target {
    /// Whether this binds the name: as the name itself or in a tuple. An item and an attribute bind none.
    #[cycle(target_binds)]
    fn binds(&self, name: &str) -> bool
        ensures { result ≡ target_binds (target_of self.now) name.now }
    {
        match self {
            Target::Var(_, own) => own.as_str() == name,
            Target::Part(_, _, _) => false,
            Target::Field(_, _, _) => false,
            Target::Many(targets) => targets.bind(name),
        }
    }
}

impl Targets {
    /// Whether one of these binds the name.
    #[cycle(target_binds)]
    fn bind(&self, name: &str) -> bool
        ensures { result ≡ targets_bind (targets_of self.now) name.now }
    {
        for target in &self.list {
            if target.binds(name) {
                return true;
            }
        }
        false
    }
}

/// Whether this is the name after `as`.
fn bound_is(bound: &Option<Bound>, name: &str) -> bool
    ensures { result ≡ bound_is bound.now name.now }
{
    match bound {
        None => false,
        Some(bound) => bound.name.as_str() == name,
    }
}

impl Handlers {
    /// Whether one of these has the name after its `as`.
    fn bind(&self, name: &str) -> bool
        ensures { result ≡ handlers_bind (handlers_of self.now) name.now }
    {
        for (_, bound, _) in &self.list {
            if bound_is(bound, name) {
                return true;
            }
        }
        false
    }
}

impl Form {
    /// Whether this is a `class`.
    fn is_class(&self) -> bool
        ensures { result ≡ is_class (form_of self.now) }
    {
        match self {
            Form::Class(_, _, _) => true,
            _ => false,
        }
    }

    /// Whether this form of statement binds the name.
    fn binds(&self, name: &str) -> bool
        ensures { result ≡ form_binds (form_of self.now) name.now }
    {
        match self {
            Form::Assign(target, _) => target.binds(name),
            Form::Aug(target, _, _, _) => target.binds(name),
            Form::Del(target) => target.binds(name),
            Form::Import(own) => own.as_str() == name,
            Form::For(target, _, _) => target.binds(name),
            Form::Try(_, handlers) => handlers.bind(name),
            Form::With(_, bound, _) => bound_is(bound, name),
            Form::Def(own, _, _, _) => own.as_str() == name,
            Form::Class(own, _, _) => own.as_str() == name,
            _ => false,
        }
    }
}

impl Found<'_> {
    /// Whether this is a `def` directly in a class.
    fn is_method(&self) -> bool
        ensures { result ≡ is_method (standing_of self.now) }
    {
        match self.around.owner {
            None => false,
            Some(owner) => self.stmt.form.is_def() && owner.form.is_class(),
        }
    }
}

impl Script {
    /// Whether statement s binds the name itself, apart from the statements in its suites: as a target of an assignment,
    /// an augmented assignment, a `for` or a `del`, after `as` in an `except` or a `with`, by `import`, `def` or `class`. A
    /// method binds no name, and a number that no statement has gives `false`.
    pub fn binds(&self, s: u32, name: &str) -> bool
        requires { IsNumbered (script_of self.now) }
        ensures { result ≡ binds (script_of self.now) s name.now }
    {
        match self.find(s) {
            None => false,
            Some(found) => !found.is_method() && found.stmt.form.binds(name),
        }
    }
}
