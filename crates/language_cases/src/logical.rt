// Logical lines. A line is shown as its indentation and, for each token, its place and what it is: a keyword `k` or a sign `s`
// with its number, a word `w`, a number `n`, a text `t` between quotes.
use crate::texts::show_text;
use prov_base::Pos;
use py_lines::{Line, LineFault, Lines, Token, TokenKind, lines};
use std::alloc::{AllocError, Global};

fn show_token(alloc: Global, out: &mut String, token: &Token) -> Result<(), AllocError> {
    let at = format!(in alloc; " {}:{}", token.at.line, token.at.col)?;
    out.push_str(at.as_str())?;
    match &token.kind {
        TokenKind::Word(name) => {
            out.push_str("w")?;
            out.push_str(name.as_str())
        }
        TokenKind::Text(text) => {
            out.push_str("t'")?;
            show_text(out, text.as_str())?;
            out.push_str("'")
        }
        other => show_number(alloc, out, other),
    }
}

fn show_number(alloc: Global, out: &mut String, kind: &TokenKind) -> Result<(), AllocError> {
    let shown = match kind {
        TokenKind::Keyword(number) => format!(in alloc; "k{number}")?,
        TokenKind::Sign(number) => format!(in alloc; "s{number}")?,
        TokenKind::Number(value) => format!(in alloc; "n{value}")?,
        _ => String::new(alloc),
    };
    out.push_str(shown.as_str())
}

fn show_line(alloc: Global, out: &mut String, line: &Line) -> Result<(), AllocError> {
    let indent = format!(in alloc; "{}:", line.indent)?;
    out.push_str(indent.as_str())?;
    for token in line.tokens.as_slice() {
        show_token(alloc, out, token)?;
    }
    Ok(())
}

fn show_found(alloc: Global, out: &mut String, lines: &Lines) -> Result<(), AllocError> {
    let mut is_first = true;
    for line in lines.as_slice() {
        if !is_first {
            out.push_str("; ")?;
        }
        is_first = false;
        show_line(alloc, out, line)?;
    }
    Ok(())
}

fn show_at(alloc: Global, out: &mut String, word: &str, at: Pos) -> Result<(), AllocError> {
    let shown = format!(in alloc; "{word} {}:{}", at.line, at.col)?;
    out.push_str(shown.as_str())
}

fn show_line_fault(alloc: Global, out: &mut String, fault: LineFault) -> Result<(), AllocError> {
    match fault {
        LineFault::NotUtf8(at) => show_at(alloc, out, "NotUtf8", at),
        LineFault::BadToken(at) => show_at(alloc, out, "BadToken", at),
        LineFault::OpenBracket(at) => show_at(alloc, out, "OpenBracket", at),
        LineFault::TooLarge => out.push_str("TooLarge"),
        LineFault::Memory => out.push_str("Memory"),
    }
}

/// The logical lines of a text, or its fault.
pub fn show_lines(alloc: Global, out: &mut String, text: &[u8]) -> Result<(), AllocError> {
    match lines(alloc, text) {
        Ok(lines) => show_found(alloc, out, &lines),
        Err(fault) => show_line_fault(alloc, out, fault),
    }
}

/// How many logical lines a text has, or its fault.
pub fn count_lines(alloc: Global, out: &mut String, text: &[u8]) -> Result<(), AllocError> {
    match lines(alloc, text) {
        Ok(lines) => {
            let shown = format!(in alloc; "{} lines", lines.as_slice().len())?;
            out.push_str(shown.as_str())
        }
        Err(fault) => show_line_fault(alloc, out, fault),
    }
}

fn show_line_spans(alloc: Global, out: &mut String, line: &Line) -> Result<(), AllocError> {
    let shown = format!(in alloc; "{}-{}:", line.span.from, line.span.to)?;
    out.push_str(shown.as_str())?;
    for token in line.tokens.as_slice() {
        let shown = format!(in alloc; " {}-{}", token.span.from, token.span.to)?;
        out.push_str(shown.as_str())?;
    }
    Ok(())
}

/// The bytes of each logical line of a text, and behind `:` those of its tokens.
pub fn show_spans(alloc: Global, out: &mut String, text: &[u8]) -> Result<(), AllocError> {
    let lines = match lines(alloc, text) {
        Ok(lines) => lines,
        Err(fault) => return show_line_fault(alloc, out, fault),
    };
    let mut is_first = true;
    for line in lines.as_slice() {
        if !is_first {
            out.push_str("; ")?;
        }
        is_first = false;
        show_line_spans(alloc, out, line)?;
    }
    Ok(())
}
