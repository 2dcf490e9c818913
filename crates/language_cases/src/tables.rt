// What tokens spell as a target, the places of refused forms, and sets of statements.
use crate::texts::number;
use prov_base::Pos;
use py_expressions::{Fault, Spelled, spelled_expr, spelled_row, spelled_sum};
use py_lines::{Line, Token, lines};
use py_tree::StmtSet;
use refused_forms::refused_form;
use std::alloc::{AllocError, Global};

fn show_spelled(
    alloc: Global,
    out: &mut String,
    spelled: Result<Spelled, Fault>,
) -> Result<(), AllocError> {
    let (word, at) = match spelled {
        Ok(Spelled::Nothing) => return out.push_str("Nothing"),
        Ok(Spelled::Target) => return out.push_str("Target"),
        Ok(Spelled::Field(at)) => ("Field", at),
        Ok(Spelled::Wrong(at)) => ("Wrong", at),
        Err(_) => return out.push_str("no memory"),
    };
    let shown = format!(in alloc; "{word} {}:{}", at.line, at.col)?;
    out.push_str(shown.as_str())
}

fn show_tokens(alloc: Global, out: &mut String, tokens: &[Token]) -> Result<(), AllocError> {
    show_spelled(alloc, out, spelled_expr(alloc, tokens))?;
    out.push_str("; ")?;
    show_spelled(alloc, out, spelled_sum(alloc, tokens))?;
    out.push_str("; ")?;
    show_spelled(alloc, out, spelled_row(alloc, tokens))
}

/// What the first line of a text spells as a target: as one expression, as a sum and as expressions in a row.
pub fn show_spelled_text(alloc: Global, out: &mut String, text: &[u8]) -> Result<(), AllocError> {
    match lines(alloc, text) {
        Err(_) => out.push_str("no logical lines"),
        Ok(lines) => match lines.as_slice().first() {
            Some(line) => show_tokens(alloc, out, line.tokens.as_slice()),
            None => show_tokens(alloc, out, &[]),
        },
    }
}

fn show_place(
    alloc: Global,
    out: &mut String,
    found: Result<Option<Pos>, Fault>,
) -> Result<(), AllocError> {
    match found {
        Ok(None) => out.push_str("none"),
        Ok(Some(at)) => {
            let shown = format!(in alloc; "{}:{}", at.line, at.col)?;
            out.push_str(shown.as_str())
        }
        Err(_) => out.push_str("no memory"),
    }
}

fn show_refused_in(
    alloc: Global,
    out: &mut String,
    before: &[Line],
    line: &Line,
    count: u32,
) -> Result<(), AllocError> {
    let tokens = line.tokens.as_slice();
    let (front, rest) = tokens.split_at(tokens.len().min(count as usize));
    let found = refused_form(alloc, before, line.indent, front, rest);
    show_place(alloc, out, found)
}

/// The place that is named where scripts go on with so many tokens of the last line, and with no more.
pub fn show_refused(
    alloc: Global,
    out: &mut String,
    text: &[u8],
    count: u32,
) -> Result<(), AllocError> {
    match lines(alloc, text) {
        Err(_) => out.push_str("no logical lines"),
        Ok(lines) => match lines.as_slice() {
            [] => out.push_str("no line"),
            [before @ .., line] => show_refused_in(alloc, out, before, line, count),
        },
    }
}

/// Adds the statements with these numbers to a set, those that are in its bound.
pub fn add_all(set: &mut StmtSet, words: &str) {
    for word in words.split(' ') {
        let s = number(word);
        if !word.is_empty() && s < set.bound() {
            set.add(s);
        }
    }
}

/// Adds the statements whose numbers are multiples of the step, and none where that is 0.
pub fn add_every(set: &mut StmtSet, step: u32) {
    for s in 0..set.bound() {
        if step != 0 && s % step == 0 && s < set.bound() {
            set.add(s);
        }
    }
}

// Each number that is added, and whether it is new.
fn show_added(
    alloc: Global,
    out: &mut String,
    set: &mut StmtSet,
    words: &str,
) -> Result<(), AllocError> {
    for word in words.split(' ') {
        let s = number(word);
        if !word.is_empty() && s < set.bound() {
            let is_new = set.add(s);
            let shown = format!(in alloc; "{s} {is_new}, ")?;
            out.push_str(shown.as_str())?;
        }
    }
    Ok(())
}

/// A set of statements, whose bound is the first number and to which the others are added: whether each is new, how many
/// there are then, and which.
pub fn show_set(alloc: Global, out: &mut String, words: &str) -> Result<(), AllocError> {
    let (bound, words) = words.split_once(' ').unwrap_or((words, ""));
    let Ok(mut set) = StmtSet::new(alloc, number(bound)) else {
        return out.push_str("no memory");
    };
    show_added(alloc, out, &mut set, words)?;
    let shown = format!(in alloc; "{} of {}:", set.count(), set.bound())?;
    out.push_str(shown.as_str())?;
    for s in 0..set.bound() {
        if set.has(s) {
            let shown = format!(in alloc; " {s}")?;
            out.push_str(shown.as_str())?;
        }
    }
    Ok(())
}
