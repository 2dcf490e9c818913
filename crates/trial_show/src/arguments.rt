// The lines of a script's arguments.
ghost use Rattle.std.specs.Prelude.{◌≡◌, ◌++◌, OnOk};
ghost use Rattle.trial_show.specs.Shown.{argument_line, argument_lines};

use crate::lines::push_line;
use prov_base::{Memory, Name};
use spelling::literal;
use std::alloc::Global;

/// Writes the line of an argument: its printed literal.
fn push_argument(out: &mut Vec<u8>, alloc: Global, argument: &Name) -> Result<(), Memory>
    ensures { OnOk result (out.new.items ≡ out.old.items ++ argument_line argument.now) }
{
    let text = literal(alloc, argument.as_str())?;
    push_line(out, "argument", text.as_str())
}

/// Writes the lines of the arguments, in their order.
pub fn push_arguments(out: &mut Vec<u8>, alloc: Global, arguments: &[Name]) -> Result<(), Memory>
    ensures { OnOk result (out.new.items ≡ out.old.items ++ argument_lines arguments.now) }
{
    for argument in arguments {
        push_argument(out, alloc, argument)?;
    }
    Ok(())
}
