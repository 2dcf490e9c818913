// The lines of a trial's head.
ghost use Rattle.std.specs.Prelude.{◌≡◌, ◌++◌, OnOk};
ghost use Rattle.trial_show.specs.Shown.{middle_lines, opening_lines, parent_line};

use crate::lines::{push_digest, push_line, push_number};
use keeper::Head;
use prov_base::Memory;
use std::alloc::Global;

/// Writes the lines before the arguments: number, format, language, path of the script and digest of its text.
pub fn push_opening(
    out: &mut Vec<u8>,
    alloc: Global,
    number: u32,
    head: &Head,
) -> Result<(), Memory>
    ensures { OnOk result (out.new.items ≡ out.old.items ++ opening_lines number head.now) }
{
    push_number(out, alloc, "trial", u64::from(number))?;
    push_number(out, alloc, "format", u64::from(head.format))?;
    push_number(out, alloc, "language", u64::from(head.language))?;
    push_line(out, "script", head.path.as_str())?;
    push_digest(out, alloc, "digest", &head.script)
}

/// Writes the line of the parent, which is `-` where there is none.
fn push_parent(out: &mut Vec<u8>, alloc: Global, parent: u32) -> Result<(), Memory>
    ensures { OnOk result (out.new.items ≡ out.old.items ++ parent_line parent) }
{
    if parent == 0 {
        return push_line(out, "parent", "-");
    }
    push_number(out, alloc, "parent", u64::from(parent))
}

/// Writes the lines behind the arguments: budget, steps, status, parent, and when the run began and ended, which are given as texts.
pub fn push_middle(
    out: &mut Vec<u8>,
    alloc: Global,
    head: &Head,
    started: &str,
    ended: &str,
) -> Result<(), Memory>
    ensures { OnOk result (out.new.items ≡ out.old.items ++ middle_lines head.now started.now ended.now) }
{
    push_number(out, alloc, "budget", u64::from(head.budget))?;
    push_number(out, alloc, "steps", u64::from(head.steps))?;
    push_number(out, alloc, "status", u64::from(head.status))?;
    push_parent(out, alloc, head.parent)?;
    push_line(out, "started", started)?;
    push_line(out, "ended", ended)
}
