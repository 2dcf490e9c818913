// The closing lines.
ghost use Rattle.std.specs.Prelude.{◌≡◌, ℕ, List, IfOk, Some, None, option_copied};
ghost use Rattle.hex.specs.Hex.{encode_lower};
ghost use Rattle.std.specs.String.{string_bytes};
ghost use Rattle.delivery.specs.Ending.{uncaught, refused, folder_failed, collision, damaged_trial, closing_line};

use prov_base::Digest;
use std::alloc::{AllocError, Global};

/// The closing line where an exception of the class was not caught.
fn bare_line(alloc: Global, class: &str, line: u32) -> Result<String, AllocError>
    ensures { IfOk result (λ made. string_bytes made ≡ closing_line (uncaught class.now line None)) }
{
    format!(in alloc; "now: uncaught {class} at line {line}\n")
}

/// The same with the text of the exception.
fn text_line(alloc: Global, class: &str, line: u32, text: &str) -> Result<String, AllocError>
    ensures { IfOk result (λ made. string_bytes made ≡ closing_line (uncaught class.now line (Some text.now))) }
{
    format!(in alloc; "now: uncaught {class} at line {line}: {text}\n")
}

/// The closing line where an exception of the class was not caught, with its text where it has one.
pub(crate) fn uncaught_line(
    alloc: Global,
    class: &str,
    line: u32,
    text: Option<&str>,
) -> Result<String, AllocError>
    ensures { IfOk result (λ made. string_bytes made ≡ closing_line (uncaught class.now line (option_copied text.entry))) }
{
    match text {
        Some(text) => text_line(alloc, class, line, text),
        None => bare_line(alloc, class, line),
    }
}

/// The closing line where the script at the path is refused at the place.
pub(crate) fn refused_line(
    alloc: Global,
    file: &str,
    line: u32,
    column: u32,
) -> Result<String, AllocError>
    ensures { IfOk result (λ made. string_bytes made ≡ closing_line (refused file.now line column)) }
{
    format!(in alloc; "now: refused {file} at {line}:{column}\n")
}

/// The closing line where the folder failed at the path.
pub(crate) fn folder_failed_line(alloc: Global, path: &str) -> Result<String, AllocError>
    ensures { IfOk result (λ made. string_bytes made ≡ closing_line (folder_failed path.now)) }
{
    format!(in alloc; "now: folder failed at {path}\n")
}

/// The closing line where this is amiss of a trial.
pub(crate) fn damaged_line(alloc: Global, trial: u32, detail: &str) -> Result<String, AllocError>
    ensures { IfOk result (λ made. string_bytes made ≡ closing_line (damaged_trial trial detail.now)) }
{
    format!(in alloc; "now: damaged trial {trial}: {detail}\n")
}

/// The closing line where other bytes stand under the digest that these digits spell.
fn collision_text(alloc: Global, digits: &str, kept: u64, given: u64) -> Result<String, AllocError>
    ensures { IfOk result (λ made. (digest : List ℕ) → digits.now ≡ encode_lower digest → string_bytes made ≡ closing_line (collision digest kept given)) }
{
    format!(in alloc; "now: collision {digits} {kept} {given}\n")
}

/// The closing line where other bytes stand under the digest.
pub(crate) fn collision_line(
    alloc: Global,
    digest: Digest,
    kept: u64,
    given: u64,
) -> Result<String, AllocError>
    ensures { IfOk result (λ made. string_bytes made ≡ closing_line (collision digest.bytes kept given)) }
{
    let digits = hex::encode(alloc, digest.bytes)?;
    collision_text(alloc, digits.as_str(), kept, given)
}
