// Where a statement of a script stands, found by its number. Numbers rise in the order of the text, so one way leads down
// to it: among statements in a row the last one that is not past the number, and among the suites of that one the last
// that begins by then. A search by halves finds each.
ghost use Rattle.std.specs.Prelude.{◌≡◌, map, option_map};
ghost use Rattle.py_tree.specs.Erasure.{branches_of, else_tree, form_of, handlers_of, script_of, stmt_of, suite_of};
ghost use Rattle.py_tree.specs.Descent.{RiseFrom, begins_after, begins_by, branch_by, branch_suites, else_by, first_numbers, form_suites, handler_by, handler_suites, last_by, row_numbers, suite_by, suites_by};
ghost use Rattle.py_tree.specs.Owners.{function_of, is_def, parent_of, standing_at, within};
ghost use Rattle.py_tree.specs.Numbering.{IsNumbered};
ghost use Rattle.py_tree.specs.Found.{around_of, standing_of};

use crate::expr::Expr;
use crate::stmt::{Bound, Branches, Form, Handlers, Script, Stmt, Suite};

/// What a statement stands in: the innermost statement that has it in one of its suites, and the number of the innermost
/// `def` that has it in its suite, directly or further in.
#[derive(Clone, Copy)]
pub(crate) struct Around<'a> {
    pub owner: Option<&'a Stmt>,
    pub function: Option<u32>,
}

/// A statement, and what it stands in.
#[derive(Clone, Copy)]
pub(crate) struct Found<'a> {
    pub stmt: &'a Stmt,
    pub around: Around<'a>,
}

impl<'a> Around<'a> {
    /// What the statements in the suites of this statement stand in.
    fn within(self, stmt: &'a Stmt) -> Around<'a>
        ensures { around_of result ≡ within (stmt_of stmt.entry.now) (around_of self.entry) }
    {
        let function = if stmt.form.is_def() {
            Some(stmt.no)
        } else {
            self.function
        };
        Around {
            owner: Some(stmt),
            function,
        }
    }
}

impl Suite {
    /// The last statement of the suite itself whose number is at most s.
    fn last_by(&self, s: u32) -> Option<&Stmt>
        ensures { RiseFrom 0 (row_numbers (suite_of self.now)) → option_map (λ x. stmt_of x.now) result ≡ last_by s (suite_of self.now) }
    {
        let count = self.list.partition_point(|stmt| stmt.no <= s);
        self.list[..count].last()
    }

    /// Whether the suite has a first statement and its number is at most s.
    fn begins_by(&self, s: u32) -> bool
        ensures { result ≡ begins_by s (suite_of self.now) }
    {
        match self.list.first() {
            None => false,
            Some(stmt) => stmt.no <= s,
        }
    }

    /// Whether the suite has a first statement and its number is past s.
    fn begins_after(&self, s: u32) -> bool
        ensures { result ≡ begins_after s (suite_of self.now) }
    {
        match self.list.first() {
            None => false,
            Some(stmt) => !(stmt.no <= s),
        }
    }
}

impl Branches {
    /// The last suite that begins by s.
    fn suite_by(&self, s: u32) -> Option<&Suite>
        ensures { RiseFrom 0 (first_numbers (branch_suites (branches_of self.now))) → option_map (λ body. suite_of body.now) result ≡ branch_by s (branches_of self.now) }
    {
        last_branch(self.list.as_slice(), s)
    }
}

/// The last of these suites that begins by s. The suite in the middle tells in which half it is.
fn last_branch(items: &[(Expr, Suite)], s: u32) -> Option<&Suite>
    ensures { RiseFrom 0 (first_numbers (map (λ x. suite_of x.1) items.now)) → option_map (λ body. suite_of body.now) result ≡ suites_by s (map (λ x. suite_of x.1) items.now) }
{
    let (front, rest) = items.split_at(items.len() / 2);
    let Some((middle, back)) = rest.split_first() else {
        return None;
    };
    if middle.1.begins_after(s) {
        return last_branch(front, s);
    }
    match last_branch(back, s) {
        Some(body) => Some(body),
        None => {
            if middle.1.begins_by(s) {
                Some(&middle.1)
            } else {
                last_branch(front, s)
            }
        }
    }
}

impl Handlers {
    /// The last suite that begins by s.
    fn suite_by(&self, s: u32) -> Option<&Suite>
        ensures { RiseFrom 0 (first_numbers (handler_suites (handlers_of self.now))) → option_map (λ body. suite_of body.now) result ≡ handler_by s (handlers_of self.now) }
    {
        last_handler(self.list.as_slice(), s)
    }
}

/// The last of these suites that begins by s. The suite in the middle tells in which half it is.
fn last_handler(items: &[(Option<Expr>, Option<Bound>, Suite)], s: u32) -> Option<&Suite>
    ensures { RiseFrom 0 (first_numbers (map (λ x. suite_of x.2) items.now)) → option_map (λ body. suite_of body.now) result ≡ suites_by s (map (λ x. suite_of x.2) items.now) }
{
    let (front, rest) = items.split_at(items.len() / 2);
    let Some((middle, back)) = rest.split_first() else {
        return None;
    };
    if middle.2.begins_after(s) {
        return last_handler(front, s);
    }
    match last_handler(back, s) {
        Some(body) => Some(body),
        None => {
            if middle.2.begins_by(s) {
                Some(&middle.2)
            } else {
                last_handler(front, s)
            }
        }
    }
}

/// The suite after `else`, if it is there and begins by s.
fn else_by(orelse: &Option<Suite>, s: u32) -> Option<&Suite>
    ensures { option_map (λ body. suite_of body.now) result ≡ else_by s (else_tree (option_map suite_of orelse.now)) }
{
    match orelse {
        None => None,
        Some(body) => { if body.begins_by(s) { Some(body) } else { None } }
    }
}

impl Form {
    /// Whether this is a `def`.
    pub(crate) fn is_def(&self) -> bool
        ensures { result ≡ is_def (form_of self.now) }
    {
        match self {
            Form::Def(_, _, _, _) => true,
            _ => false,
        }
    }

    /// The one suite of the form that can hold statement s.
    fn suite_by(&self, s: u32) -> Option<&Suite>
        ensures { RiseFrom 0 (first_numbers (form_suites (form_of self.now))) → option_map (λ body. suite_of body.now) result ≡ suite_by s (form_of self.now) }
    {
        match self {
            Form::If(branches, orelse) => match else_by(orelse, s) {
                None => branches.suite_by(s),
                Some(body) => Some(body),
            },
            Form::While(_, body) => Some(body),
            Form::For(_, _, body) => Some(body),
            Form::Try(body, handlers) => match handlers.suite_by(s) {
                None => Some(body),
                Some(handler) => Some(handler),
            },
            Form::With(_, _, body) => Some(body),
            Form::Def(_, _, _, body) => Some(body),
            Form::Class(_, _, body) => Some(body),
            _ => None,
        }
    }
}

impl Script {
    /// The first statement with number s, and what it stands in.
    pub(crate) fn find(&self, s: u32) -> Option<Found<'_>>
        requires { IsNumbered (script_of self.now) }
        ensures { option_map standing_of result ≡ standing_at (script_of self.now) s }
    {
        let mut suite = &self.body;
        let mut around = Around {
            owner: None,
            function: None,
        };
        loop {
            let stmt = suite.last_by(s)?;
            if stmt.no == s {
                return Some(Found { stmt, around });
            }
            around = around.within(stmt);
            suite = stmt.form.suite_by(s)?;
        }
    }

    /// The number of the innermost statement that has statement s in one of its suites. `def` and `class` stand at module
    /// level and have none, but a method its class has. A number that no statement has gives `None`.
    pub fn parent_of(&self, s: u32) -> Option<u32>
        requires { IsNumbered (script_of self.now) }
        ensures { result ≡ parent_of (script_of self.now) s }
    {
        let owner = self.find(s)?.around.owner?;
        Some(owner.no)
    }

    /// The number of the innermost `def` that has statement s in its suite, directly or further in. At module level there
    /// is none, nor is there for a `def` itself, also in a class. A number that no statement has gives `None`.
    pub fn function_of(&self, s: u32) -> Option<u32>
        requires { IsNumbered (script_of self.now) }
        ensures { result ≡ function_of (script_of self.now) s }
    {
        self.find(s)?.around.function
    }
}
