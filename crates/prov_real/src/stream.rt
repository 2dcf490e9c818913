// Whole contents in and out: loops over std's `read` and `write`, at any source and any sink. Every error of these is
// a fault at once, an interrupted call too.
ghost use Rattle.std.specs.Prelude.{◌≡◌, ◌≢◌, ℕ, take, Some, IfSome, IfOk, OnOk, OnErr, IfErr};
ghost use Rattle.std.specs.Io.KnownBytes.{Appends};
ghost use Rattle.prov_outside.specs.declared.trouble.Trouble.TheVariants.{Failed};
ghost use Rattle.prov_outside.specs.Folder.{IsAnswer, IsFound};

use prov_base::Bytes;
use prov_outside::{Found, Trouble};
use std::alloc::Global;
use std::io::{Read, Write};

const LARGEST_FILE: usize = 16_777_216;

const CHUNK: usize = 4096;

/// Writes all the bytes, and has the sink pass on what it keeps back, so that all of it has reached the system at
/// `Ok`. (std keeps nothing back at standard output and at files; there the flush costs nothing.) A sink that takes
/// nothing of what is left has failed. After an `Err` a prefix of the bytes was written. No memory is taken.
pub fn write_whole<W: Write>(sink: &mut W, bytes: &[u8]) -> Result<(), Trouble>
    ensures written { OnOk result (Appends (W.contents sink.old) (W.contents sink.new) bytes.now) }
    ensures prefix { OnErr result ((n : ℕ) × Appends (W.contents sink.old) (W.contents sink.new) (take n bytes.now)) }
    ensures fault { IfErr result (λ trouble. trouble ≡ Failed) }
{
    let mut done = 0;
    while done < bytes.len() {
        match sink.write(&bytes[done..]) {
            Ok(taken) if taken > 0 => done += taken,
            _ => return Err(Trouble::Failed),
        }
    }
    match sink.flush() {
        Ok(()) => Ok(()),
        Err(_) => Err(Trouble::Failed),
    }
}

/// Reads a source to its end, which is where it gives nothing. One of more than 16,777,216 bytes is too large. The
/// answer is never `Absent` or `Failed`.
pub fn read_whole<R: Read>(alloc: Global, source: &mut R) -> Result<Found, Trouble>
    ensures answer { IfOk result IsAnswer }
    ensures found { IfSome (R.remaining source.old) (λ content. IfOk result (IsFound (Some content))) }
{
    let mut bytes = Vec::new(alloc);
    let mut chunk = [0u8; CHUNK];
    loop {
        let count = match source.read(&mut chunk) {
            Ok(0) => return Ok(Found::Bytes(Bytes::of(bytes))),
            Ok(count) => count,
            Err(_) => return Err(Trouble::Failed),
        };
        if count > LARGEST_FILE - bytes.len() {
            return Ok(Found::TooLarge);
        }
        bytes.extend_from_slice(&chunk[..count])?;
    }
}
