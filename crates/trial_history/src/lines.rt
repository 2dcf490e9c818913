// The lines of trials in the text of `history`.
ghost use Rattle.std.specs.Prelude.{◌≡◌, ◌++◌, IfOk, OnOk, length};
ghost use Rattle.std.specs.Fmt.{decimal};
ghost use Rattle.std.specs.String.{string_bytes};
ghost use Rattle.trial_list.specs.Lines.{right};
ghost use Rattle.trial_history.specs.History.{history_line, lines_from, mark_text, parent_text};
ghost use Rattle.trial_history.specs.Stages.{line_of};

use keeper::Head;
use prov_base::{Bytes, Memory};
use std::alloc::{AllocError, Global};

/// The column of a trial that has no parent.
const NO_PARENT: &str = "      -";

/// A number, as wide as its column.
fn number_column(alloc: Global, number: u64) -> Result<String, AllocError>
    ensures { IfOk result (λ text. string_bytes text ≡ right 7 (decimal number)) }
{
    format!(in alloc; "{number:>7}")
}

/// The parent, as wide as its column.
fn parent_column(alloc: Global, parent: u64) -> Result<String, AllocError>
    ensures { IfOk result (λ text. string_bytes text ≡ right 7 (parent_text parent)) }
{
    if parent == 0 {
        return String::from_str(alloc, NO_PARENT);
    }
    number_column(alloc, parent)
}

/// The mark of a trial, by whether it is the current one of its path.
fn mark_of(marked: bool) -> &'static str
    ensures { result.now ≡ mark_text marked }
{
    if marked { "*" } else { " " }
}

/// The line with these columns, of which the parent is as wide as its column.
fn columns(
    alloc: Global,
    number: u64,
    parent: &str,
    mark: &str,
    path: &str,
) -> Result<String, AllocError>
    ensures { IfOk result (λ line. string_bytes line ≡ line_of number parent.now mark.now path.now) }
{
    format!(in alloc; "{number:>7} {parent} {mark} {path}\n")
}

/// The line of the trial with this number, this head and this mark.
fn line_text(alloc: Global, number: u64, head: &Head, marked: bool) -> Result<String, AllocError>
    ensures { IfOk result (λ line. string_bytes line ≡ history_line number head.now marked) }
{
    let parent = parent_column(alloc, u64::from(head.parent))?;
    let mark = mark_of(marked);
    let path = head.path.as_str();
    columns(alloc, number, parent.as_str(), mark, path)
}

/// Writes the line of the trial with this number, this head and this mark.
fn write_line(
    out: &mut Vec<u8>,
    alloc: Global,
    number: u64,
    head: &Head,
    marked: bool,
) -> Result<(), Memory>
    ensures { OnOk result (out.new.items ≡ out.old.items ++ history_line number head.now marked) }
{
    let line = line_text(alloc, number, head, marked)?;
    out.extend_from_slice(line.as_bytes())?;
    Ok(())
}

/// Writes the lines of these heads with their marks, of which the first are those of trial 1.
fn write_lines(
    out: &mut Vec<u8>,
    alloc: Global,
    heads: &[Head],
    marks: &[bool],
) -> Result<(), Memory>
    requires { length marks.now ≡ length heads.now }
    ensures { OnOk result (out.new.items ≡ out.old.items ++ lines_from 1 heads.now marks.now) }
{
    for earlier in 0..heads.len() {
        let number = earlier as u64 + 1;
        let marked = marks[earlier];
        write_line(out, alloc, number, &heads[earlier], marked)?;
    }
    Ok(())
}

/// The lines of these heads with their marks, of which the first are those of trial 1.
pub(crate) fn lines_of(alloc: Global, heads: &[Head], marks: &[bool]) -> Result<Bytes, Memory>
    requires { length marks.now ≡ length heads.now }
    ensures { IfOk result (λ text. text ≡ lines_from 1 heads.now marks.now) }
{
    let mut out: Vec<u8> = Vec::new(alloc);
    write_lines(&mut out, alloc, heads, marks)?;
    Ok(Bytes::of(out))
}
