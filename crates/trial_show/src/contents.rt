// The lines of what a run read, printed and left.
ghost use Rattle.std.specs.Prelude.{◌≡◌, ◌++◌, OnOk};
ghost use Rattle.content_store.specs.Contents.{digest_of as digest_of_bytes};
ghost use Rattle.trial_show.specs.Shown.{final_line, final_lines, input_line, input_lines, output_line};

use crate::lines::{push_number_with_digest, push_with_digest};
use capture::FileOut;
use keeper::Head;
use prov_base::{Digest, Memory, Name};
use prov_outside::Found;
use sha1::Sha1;
use std::alloc::Global;

/// The SHA-1 digest of bytes.
fn digest_of(bytes: &[u8]) -> Digest
    ensures { result ≡ digest_of_bytes bytes.now }
{
    Digest {
        bytes: Sha1::digest(bytes),
    }
}

/// Writes the line of a file that was read, if it was found with bytes.
fn push_input(out: &mut Vec<u8>, alloc: Global, path: &Name, found: &Found) -> Result<(), Memory>
    ensures { OnOk result (out.new.items ≡ out.old.items ++ input_line path.now found.now) }
{
    match found {
        Found::Bytes(bytes) => {
            let digest = digest_of(bytes.as_slice());
            push_with_digest(out, alloc, "input", path.as_str(), &digest)
        }
        _ => Ok(()),
    }
}

/// Writes the lines of the files that were found with bytes, in their order.
pub fn push_inputs(out: &mut Vec<u8>, alloc: Global, files: &[(Name, Found)]) -> Result<(), Memory>
    ensures { OnOk result (out.new.items ≡ out.old.items ++ input_lines files.now) }
{
    for file in files {
        push_input(out, alloc, &file.0, &file.1)?;
    }
    Ok(())
}

/// Writes the line of the printed text: its length in bytes and its digest.
pub fn push_output(
    out: &mut Vec<u8>,
    alloc: Global,
    head: &Head,
    output: &[u8],
) -> Result<(), Memory>
    ensures { OnOk result (out.new.items ≡ out.old.items ++ output_line head.now output.now) }
{
    push_number_with_digest(out, alloc, "output", output.len() as u64, &head.output)
}

/// Writes the line of a file that the run left.
fn push_final(out: &mut Vec<u8>, alloc: Global, file: &FileOut) -> Result<(), Memory>
    ensures { OnOk result (out.new.items ≡ out.old.items ++ final_line file.now) }
{
    let digest = digest_of(file.bytes.as_slice());
    push_with_digest(out, alloc, "file", file.path.as_str(), &digest)
}

/// Writes the lines of the files that the run left, in their order.
pub fn push_finals(out: &mut Vec<u8>, alloc: Global, files: &[FileOut]) -> Result<(), Memory>
    ensures { OnOk result (out.new.items ≡ out.old.items ++ final_lines files.now) }
{
    for file in files {
        push_final(out, alloc, file)?;
    }
    Ok(())
}
