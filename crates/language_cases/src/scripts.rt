// Scripts: their statements, what they stand in and bind, and what is left where only some stay.
ghost use Rattle.py_tree.specs.Erasure.{script_of};
ghost use Rattle.py_tree.specs.Numbering.{IsNumbered};

use crate::printing::{Style, show_fault, show_suite};
use crate::tables::{add_all, add_every};
use crate::texts::show_text;
use prov_base::Bytes;
use py_lines::lines;
use py_parser::parse;
use py_tree::{Script, Stmt, StmtSet, delete};
use slice_text::cut;
use std::alloc::{AllocError, Global};

/// What is asked about a script.
#[derive(Clone, Copy)]
pub enum Asked<'a> {
    /// How many statements it has.
    Count,
    /// Its statements.
    Tree(Style),
    /// What is left where the statements with these numbers stay.
    Deleted(Style, &'a str),
    /// The text that is left then, and its statements.
    Cut(&'a str),
    /// How many statements are left where those stay whose numbers are multiples of this, and the first and the last in a row.
    Thinned(u32),
    /// What each statement stands in, and one more.
    Owners,
    /// Which of these names each statement binds.
    Binds(&'a str),
}

/// What is asked about the script that a text is, or its fault.
pub fn show_script(
    alloc: Global,
    out: &mut String,
    text: &[u8],
    asked: Asked<'_>,
) -> Result<(), AllocError> {
    match lines(alloc, text) {
        Err(_) => out.push_str("no logical lines"),
        Ok(lines) => match parse(alloc, &lines) {
            Err(fault) => {
                let shown = show_fault(alloc, fault)?;
                out.push_str(shown.as_str())
            }
            Ok(script) => show_asked(alloc, out, text, &script, asked),
        },
    }
}

fn show_asked(
    alloc: Global,
    out: &mut String,
    text: &[u8],
    script: &Script,
    asked: Asked<'_>,
) -> Result<(), AllocError>
    requires { IsNumbered (script_of script.now) }
{
    match asked {
        Asked::Count => show_count(alloc, out, script),
        Asked::Tree(style) => show_tree(alloc, out, style, script),
        Asked::Deleted(style, words) => show_deleted(alloc, out, style, script, words),
        Asked::Cut(words) => show_cut(alloc, out, text, script, words),
        Asked::Thinned(step) => show_thinned(alloc, out, script, step),
        Asked::Owners => show_owners(alloc, out, script),
        Asked::Binds(words) => show_bindings(alloc, out, script, words),
    }
}

fn show_count(alloc: Global, out: &mut String, script: &Script) -> Result<(), AllocError> {
    let shown = format!(in alloc; "{} statements", script.count)?;
    out.push_str(shown.as_str())
}

fn show_tree(
    alloc: Global,
    out: &mut String,
    style: Style,
    script: &Script,
) -> Result<(), AllocError> {
    show_count(alloc, out, script)?;
    show_suite(alloc, out, style, 0, &script.body)
}

fn show_deleted(
    alloc: Global,
    out: &mut String,
    style: Style,
    script: &Script,
    words: &str,
) -> Result<(), AllocError> {
    let Ok(mut keep) = StmtSet::new(alloc, script.count) else {
        return out.push_str("no memory");
    };
    add_all(&mut keep, words);
    match delete(alloc, script, &keep) {
        Ok(rest) => show_tree(alloc, out, style, &rest),
        Err(_) => out.push_str("no memory"),
    }
}

fn show_thinned(
    alloc: Global,
    out: &mut String,
    script: &Script,
    step: u32,
) -> Result<(), AllocError> {
    let Ok(mut keep) = StmtSet::new(alloc, script.count) else {
        return out.push_str("no memory");
    };
    add_every(&mut keep, step);
    match delete(alloc, script, &keep) {
        Ok(rest) => show_ends(alloc, out, &rest),
        Err(_) => out.push_str("no memory"),
    }
}

fn show_ends(alloc: Global, out: &mut String, script: &Script) -> Result<(), AllocError> {
    show_count(alloc, out, script)?;
    show_end(alloc, out, script.body.list.as_slice().first())?;
    show_end(alloc, out, script.body.list.as_slice().last())
}

fn show_end(alloc: Global, out: &mut String, stmt: Option<&Stmt>) -> Result<(), AllocError> {
    match stmt {
        None => Ok(()),
        Some(stmt) => {
            let shown = format!(in alloc; ", {} at {}:{}", stmt.no, stmt.pos.line, stmt.pos.col)?;
            out.push_str(shown.as_str())
        }
    }
}

fn show_cut(
    alloc: Global,
    out: &mut String,
    text: &[u8],
    script: &Script,
    words: &str,
) -> Result<(), AllocError> {
    let Ok(mut keep) = StmtSet::new(alloc, script.count) else {
        return out.push_str("no memory");
    };
    add_all(&mut keep, words);
    match cut(alloc, text, script, &keep) {
        Ok(left) => show_left(alloc, out, &left),
        Err(_) => out.push_str("no memory"),
    }
}

// A text with `$` behind it, and its statements.
fn show_left(alloc: Global, out: &mut String, left: &Bytes) -> Result<(), AllocError> {
    match str::from_utf8(left.as_slice()) {
        Err(_) => out.push_str("no text"),
        Ok(text) => {
            show_text(out, text)?;
            out.push_str("$\n")?;
            show_reread(alloc, out, text)
        }
    }
}

fn show_reread(alloc: Global, out: &mut String, text: &str) -> Result<(), AllocError> {
    match lines(alloc, text.as_bytes()) {
        Err(_) => out.push_str("no logical lines"),
        Ok(lines) => match parse(alloc, &lines) {
            Err(fault) => {
                let shown = show_fault(alloc, fault)?;
                out.push_str(shown.as_str())
            }
            Ok(script) => show_tree(alloc, out, Style::Plain, &script),
        },
    }
}

fn show_owner(alloc: Global, out: &mut String, owner: Option<u32>) -> Result<(), AllocError> {
    match owner {
        None => out.push_str(" -"),
        Some(s) => {
            let shown = format!(in alloc; " {s}")?;
            out.push_str(shown.as_str())
        }
    }
}

// For each number what its statement stands in: the statement and the function.
fn show_owners(alloc: Global, out: &mut String, script: &Script) -> Result<(), AllocError>
    requires { IsNumbered (script_of script.now) }
{
    show_count(alloc, out, script)?;
    for s in 0..script.count.saturating_add(1) {
        let shown = format!(in alloc; "\n{s}")?;
        out.push_str(shown.as_str())?;
        show_owner(alloc, out, script.parent_of(s))?;
        show_owner(alloc, out, script.function_of(s))?;
    }
    Ok(())
}

fn show_bound_names(
    out: &mut String,
    script: &Script,
    s: u32,
    names: &str,
) -> Result<(), AllocError>
    requires { IsNumbered (script_of script.now) }
{
    for name in names.split(' ') {
        if script.binds(s, name) {
            out.push_str(" ")?;
            out.push_str(name)?;
        }
    }
    Ok(())
}

fn show_bindings(
    alloc: Global,
    out: &mut String,
    script: &Script,
    names: &str,
) -> Result<(), AllocError>
    requires { IsNumbered (script_of script.now) }
{
    show_count(alloc, out, script)?;
    for s in 0..script.count.saturating_add(1) {
        let shown = format!(in alloc; "\n{s}")?;
        out.push_str(shown.as_str())?;
        show_bound_names(out, script, s, names)?;
    }
    Ok(())
}
