// The two lines of a value.
ghost use Rattle.std.specs.Prelude.{◌≡◌, IfOk};
ghost use Rattle.std.specs.String.{string_bytes};
ghost use Rattle.trial_value.specs.Lines.{value_lines};

use prov_base::{Bytes, Memory};
use std::alloc::{AllocError, Global};

// The two lines as a text.
fn lines_of(alloc: Global, graph: &str, steps: u32) -> Result<String, AllocError>
    ensures { IfOk result (λ made. string_bytes made ≡ value_lines graph.now steps) }
{
    format!(in alloc; "{graph}\nsteps {steps}\n")
}

/// The two lines of a value: its graph text, and the steps that the run had spent just after it.
pub fn value_lines(alloc: Global, graph: &str, steps: u32) -> Result<Bytes, Memory>
    ensures { IfOk result (λ made. made ≡ value_lines graph.now steps) }
{
    let lines = lines_of(alloc, graph, steps)?;
    Ok(Bytes::of(Vec::from_slice(alloc, lines.as_bytes())?))
}
