// The gaps of a cut: the bytes of the statements that go, found in one pass over the script.
ghost use Rattle.std.specs.Prelude.{◌≡◌, ◌++◌, [], ◌∷◌, option_map, OnOk};
ghost use Rattle.py_tree.specs.Erasure.{branches_of, else_tree, form_of, handlers_of, stmt_of, suite_of};
ghost use Rattle.py_tree.specs.StmtSet.{has};
ghost use Rattle.slice_text.specs.Cut.{branches_gaps, else_gaps, form_gaps, handlers_gaps, loses_all, stmt_gaps, suite_gaps};

use prov_base::{Memory, Span};
use py_tree::{Branches, Form, Handlers, Stmt, StmtSet, Suite};
use std::alloc::Global;
use std::marker::Model;

/// The bytes of a statement that goes.
#[derive(Clone, Copy, Debug)]
pub(crate) struct Gap {
    pub span: Span,
    /// Whether `pass` takes the place of its first bytes.
    pub filled: bool,
}

/// Gaps in the order of the text.
#[derive(Drop, Debug)]
pub(crate) struct Gaps {
    list: Vec<Gap>,
}

impl Model for Gaps {
    ghost use Rattle.std.specs.Prelude.{List};
    ghost use Rattle.slice_text.specs.declared.gaps.Gap.{Gap};

    ghost Value = { List Gap };

    ghost view = { λ g. g.list.items };
}

impl Gaps {
    /// No gap.
    pub fn new(alloc: Global) -> Gaps
        ensures { result ≡ [] }
    {
        Gaps {
            list: Vec::new(alloc),
        }
    }

    /// One more behind the others.
    fn push(&mut self, gap: Gap) -> Result<(), Memory>
        ensures { OnOk result (self.new ≡ self.old ++ gap ∷ []) }
    {
        self.list.push(gap)?;
        Ok(())
    }

    /// The gaps, in order.
    pub fn as_slice(&self) -> &[Gap]
        ensures { result.now ≡ self.now }
    {
        self.list.as_slice()
    }
}

fn is_kept(keep: &StmtSet, no: u32) -> bool
    ensures { result ≡ has keep.now no }
{
    no < keep.bound() && keep.has(no)
}

// Whether none of the statements in a row stays.
fn loses_all(suite: &Suite, keep: &StmtSet) -> bool
    ensures { result ≡ loses_all (has keep.now) (suite_of suite.now) }
{
    for stmt in &suite.list {
        if is_kept(keep, stmt.no) {
            return false;
        }
    }
    true
}

/// Puts the gaps of a row of statements behind those that are there. `filled` says whether `pass` takes the place of the
/// first statement.
#[cycle(add_suite)]
pub(crate) fn add_suite(
    suite: &Suite,
    keep: &StmtSet,
    filled: bool,
    gaps: &mut Gaps,
) -> Result<(), Memory>
    ensures { OnOk result (gaps.new ≡ gaps.old ++ suite_gaps (has keep.now) filled (suite_of suite.now)) }
{
    let mut filled = filled;
    for stmt in &suite.list {
        add_stmt(stmt, keep, filled, gaps)?;
        filled = false;
    }
    Ok(())
}

#[cycle(add_suite)]
fn add_stmt(stmt: &Stmt, keep: &StmtSet, filled: bool, gaps: &mut Gaps) -> Result<(), Memory>
    ensures { OnOk result (gaps.new ≡ gaps.old ++ stmt_gaps (has keep.now) filled (stmt_of stmt.now)) }
{
    if is_kept(keep, stmt.no) {
        add_form(&*stmt.form, keep, gaps)?;
        Ok(())
    } else {
        gaps.push(Gap {
            span: stmt.span,
            filled,
        })?;
        Ok(())
    }
}

// The suite of a statement that stays.
#[cycle(add_suite)]
fn add_body(body: &Suite, keep: &StmtSet, gaps: &mut Gaps) -> Result<(), Memory>
    ensures { OnOk result (gaps.new ≡ gaps.old ++ suite_gaps (has keep.now) (loses_all (has keep.now) (suite_of body.now)) (suite_of body.now)) }
{
    let filled = loses_all(body, keep);
    add_suite(body, keep, filled, gaps)?;
    Ok(())
}

#[cycle(add_suite)]
fn add_form(form: &Form, keep: &StmtSet, gaps: &mut Gaps) -> Result<(), Memory>
    ensures { OnOk result (gaps.new ≡ gaps.old ++ form_gaps (has keep.now) (form_of form.now)) }
{
    match form {
        Form::If(branches, orelse) => {
            add_branches(branches, keep, gaps)?;
            add_else(orelse, keep, gaps)?;
            Ok(())
        }
        Form::While(_, body) => {
            add_body(body, keep, gaps)?;
            Ok(())
        }
        Form::For(_, _, body) => {
            add_body(body, keep, gaps)?;
            Ok(())
        }
        Form::Try(body, handlers) => {
            add_body(body, keep, gaps)?;
            add_handlers(handlers, keep, gaps)?;
            Ok(())
        }
        Form::With(_, _, body) => {
            add_body(body, keep, gaps)?;
            Ok(())
        }
        Form::Def(_, _, _, body) => {
            add_body(body, keep, gaps)?;
            Ok(())
        }
        Form::Class(_, _, body) => {
            add_body(body, keep, gaps)?;
            Ok(())
        }
        _ => Ok(()),
    }
}

#[cycle(add_suite)]
fn add_branches(branches: &Branches, keep: &StmtSet, gaps: &mut Gaps) -> Result<(), Memory>
    ensures { OnOk result (gaps.new ≡ gaps.old ++ branches_gaps (has keep.now) (branches_of branches.now)) }
{
    for (_, body) in &branches.list {
        add_body(body, keep, gaps)?;
    }
    Ok(())
}

#[cycle(add_suite)]
fn add_else(orelse: &Option<Suite>, keep: &StmtSet, gaps: &mut Gaps) -> Result<(), Memory>
    ensures { OnOk result (gaps.new ≡ gaps.old ++ else_gaps (has keep.now) (else_tree (option_map suite_of orelse.now))) }
{
    match orelse {
        None => Ok(()),
        Some(body) => {
            add_body(body, keep, gaps)?;
            Ok(())
        }
    }
}

#[cycle(add_suite)]
fn add_handlers(handlers: &Handlers, keep: &StmtSet, gaps: &mut Gaps) -> Result<(), Memory>
    ensures { OnOk result (gaps.new ≡ gaps.old ++ handlers_gaps (has keep.now) (handlers_of handlers.now)) }
{
    for (_, _, body) in &handlers.list {
        add_body(body, keep, gaps)?;
    }
    Ok(())
}
