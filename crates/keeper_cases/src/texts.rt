// How rows are read, and how answers are written.
use keeper::{Head, KeepFault};
use prov_base::{Bytes, Digest, Name};
use std::alloc::{AllocError, Global};

/// A number of decimal digits, or 0.
pub fn number(word: &str) -> u64 {
    word.parse::<u64>().unwrap_or(0)
}

/// A trial's or a page's number, or 0.
pub fn small(word: &str) -> u32 {
    word.parse::<u32>().unwrap_or(0)
}

/// What stands ahead of the first `mark`, and what stands behind it. Without one, all of it and nothing.
pub fn halves<'a>(text: &'a str, mark: char) -> (&'a str, &'a str) {
    text.split_once(mark).unwrap_or((text, ""))
}

/// The numbers in a text, with a space between them.
pub fn numbers(alloc: Global, words: &str) -> Result<Vec<u64>, AllocError> {
    let mut list = Vec::new(alloc);
    for word in words.split(' ') {
        list.push(number(word))?;
    }
    Ok(list)
}

/// The digest that 40 digits stand for; other words stand for 20 zero bytes.
pub fn digest_of(word: &str) -> Digest {
    Digest {
        bytes: <[u8; 20] as hex::FromHex>::from_hex(word).unwrap_or([0; 20]),
    }
}

/// A name.
pub fn name_of(alloc: Global, word: &str) -> Result<Name, AllocError> {
    Ok(Name::of(String::from_str(alloc, word)?))
}

/// The bytes of a word.
pub fn bytes_of(alloc: Global, word: &str) -> Result<Bytes, AllocError> {
    Ok(Bytes::of(Vec::from_slice(alloc, word.as_bytes())?))
}

/// A head with this path, and with other fields that differ from one another.
pub fn head_of(alloc: Global, path: &str) -> Result<Head, AllocError> {
    Ok(Head {
        format: 1,
        language: 2,
        path: name_of(alloc, path)?,
        script: Digest { bytes: [3; 20] },
        arguments: Digest { bytes: [4; 20] },
        capture: Digest { bytes: [5; 20] },
        output: Digest { bytes: [6; 20] },
        finals: Digest { bytes: [7; 20] },
        budget: 8,
        steps: 9,
        status: 10,
        pages: 11,
        started: Some(-12),
        ended: None,
        parent: 13,
    })
}

/// Writes a word.
pub fn write(out: &mut Vec<u8>, word: &str) -> Result<(), AllocError> {
    out.extend_from_slice(word.as_bytes())
}

/// Writes a number.
pub fn write_number(alloc: Global, out: &mut Vec<u8>, number: u64) -> Result<(), AllocError> {
    write(out, format!(in alloc; "{number}")?.as_str())
}

/// Writes a digest as 40 digits.
pub fn write_digest(alloc: Global, out: &mut Vec<u8>, digest: &Digest) -> Result<(), AllocError> {
    write(out, hex::encode(alloc, digest.bytes)?.as_str())
}

/// Writes why a call was refused.
pub fn write_fault(out: &mut Vec<u8>, fault: KeepFault) -> Result<(), AllocError> {
    write(
        out,
        match fault {
            KeepFault::Failed => "failed",
            KeepFault::Memory => "memory",
        },
    )
}

/// Writes the answer of a call that answers nothing else.
pub fn write_done(out: &mut Vec<u8>, done: Result<(), KeepFault>) -> Result<(), AllocError> {
    match done {
        Ok(()) => write(out, "ok"),
        Err(fault) => write_fault(out, fault),
    }
}
