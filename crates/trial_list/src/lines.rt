// The lines of trials in the text of `list`.
ghost use Rattle.std.specs.Prelude.{◌≡◌, ◌++◌, IfOk, OnOk};
ghost use Rattle.std.specs.String.{string_bytes};
ghost use Rattle.trial_list.specs.Lines.{list_line, list_bytes};
ghost use Rattle.trial_list.specs.Stages.{line_of};

use crate::dates::start_column;
use keeper::Head;
use prov_base::{Bytes, Memory};
use std::alloc::{AllocError, Global};

/// The line with these columns, of which the start is as wide as its column.
fn columns(
    alloc: Global,
    number: u64,
    status: u8,
    steps: u32,
    start: &str,
    path: &str,
) -> Result<String, AllocError>
    ensures { IfOk result (λ line. string_bytes line ≡ line_of number status steps start.now path.now) }
{
    format!(in alloc; "{number:>7} {status:>2} {steps:>7} {start} {path}\n")
}

/// The line of the trial with this number and this head.
pub(crate) fn list_line(alloc: Global, number: u64, head: &Head) -> Result<String, AllocError>
    ensures { IfOk result (λ line. string_bytes line ≡ list_line number head.now) }
{
    let start = start_column(alloc, head.started)?;
    let path = head.path.as_str();
    columns(alloc, number, head.status, head.steps, start.as_str(), path)
}

/// Writes the line of the trial with this number and this head.
fn write_line(out: &mut Vec<u8>, alloc: Global, number: u64, head: &Head) -> Result<(), Memory>
    ensures { OnOk result (out.new.items ≡ out.old.items ++ list_line number head.now) }
{
    let line = list_line(alloc, number, head)?;
    out.extend_from_slice(line.as_bytes())?;
    Ok(())
}

/// Writes the lines of these heads, of which the first is that of trial 1.
fn write_lines(out: &mut Vec<u8>, alloc: Global, heads: &[Head]) -> Result<(), Memory>
    ensures { OnOk result (out.new.items ≡ out.old.items ++ list_bytes heads.now) }
{
    for earlier in 0..heads.len() {
        write_line(out, alloc, earlier as u64 + 1, &heads[earlier])?;
    }
    Ok(())
}

/// The lines of these heads, of which the first is that of trial 1.
pub(crate) fn lines_of(alloc: Global, heads: &[Head]) -> Result<Bytes, Memory>
    ensures { IfOk result (λ text. text ≡ list_bytes heads.now) }
{
    let mut out: Vec<u8> = Vec::new(alloc);
    write_lines(&mut out, alloc, heads)?;
    Ok(Bytes::of(out))
}
