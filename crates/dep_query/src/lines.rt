// Dependences as lines.
ghost use Rattle.std.specs.Prelude.{◌≡◌, ◌++◌, take, nat_lt, codes, [], if◌then◌else◌, IfOk, OnOk};
ghost use Rattle.std.specs.String.{string_bytes};
ghost use Rattle.dep_query.specs.Lines.{kind_word, line_with, dependence_line, dependence_lines, dataflow_lines};

use crate::dependence::{Dependence, Kind};
use prov_base::{Bytes, Memory};
use std::alloc::{AllocError, Global};

// So many lines are written at most.
const MOST: usize = 100_000;

// The word for a kind.
fn word_of(kind: Kind) -> &'static str
    ensures { result.now ≡ kind_word kind }
{
    match kind {
        Kind::Data => "data",
        Kind::Control => "control",
        Kind::Jump => "jump",
        Kind::Name => "name",
    }
}

// The line of two places and a word.
fn line_with(
    alloc: Global,
    line: u32,
    col: u32,
    other: u32,
    at: u32,
    word: &str,
) -> Result<String, AllocError>
    ensures { IfOk result (λ made. string_bytes made ≡ line_with line col other at word.now) }
{
    format!(in alloc; "{line}:{col} <- {other}:{at} {word}\n")
}

// The line of a dependence.
fn line_of(alloc: Global, d: &Dependence) -> Result<String, AllocError>
    ensures { IfOk result (λ line. string_bytes line ≡ dependence_line d.now) }
{
    let (asker, asked) = (d.asker, d.asked);
    line_with(
        alloc,
        asker.line,
        asker.col,
        asked.line,
        asked.col,
        word_of(d.kind),
    )
}

// Writes the line of a dependence.
fn write_line(out: &mut Vec<u8>, alloc: Global, d: &Dependence) -> Result<(), Memory>
    ensures { OnOk result (out.new.items ≡ out.old.items ++ dependence_line d.now) }
{
    let line = line_of(alloc, d)?;
    out.extend_from_slice(line.as_bytes())?;
    Ok(())
}

// Writes the lines of dependences.
fn write_lines(out: &mut Vec<u8>, alloc: Global, list: &[Dependence]) -> Result<(), Memory>
    ensures { OnOk result (out.new.items ≡ out.old.items ++ dependence_lines list.now) }
{
    for d in list {
        write_line(out, alloc, d)?;
    }
    Ok(())
}

// Those of which lines are written.
fn shown(list: &[Dependence]) -> &[Dependence]
    ensures { result.now ≡ take 100000 list.now }
{
    if list.len() > MOST {
        list.split_at(MOST).0
    } else {
        list
    }
}

// Writes that there are more, if there are.
fn write_more(out: &mut Vec<u8>, count: usize) -> Result<(), Memory>
    ensures { OnOk result (out.new.items ≡ out.old.items ++ (if nat_lt 100000 count then codes "more\n" else [])) }
{
    if count > MOST {
        out.extend_from_slice(b"more\n")?;
    }
    Ok(())
}

/// The lines of dependences: the first 100,000, and then `more` if there are more.
pub(crate) fn lines_of(alloc: Global, list: &[Dependence]) -> Result<Bytes, Memory>
    ensures { IfOk result (λ text. text ≡ dataflow_lines list.now) }
{
    let mut out: Vec<u8> = Vec::new(alloc);
    write_lines(&mut out, alloc, shown(list))?;
    write_more(&mut out, list.len())?;
    Ok(Bytes::of(out))
}
