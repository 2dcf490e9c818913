// Trials that are kept, read back.
ghost use Rattle.keeper.specs.Keeping.{AreKept};
ghost use Rattle.memory_keeper.specs.Held.{told_of};

use crate::texts::{halves, small, write, write_digest, write_fault, write_number};
use crate::writes::write_collision;
use capture::{Asked, Capture, FileOut, Given};
use keeper::{Head, Keeper};
use memory_keeper::MemoryKeeper;
use prov_base::{Digest, Name};
use prov_outside::Found;
use std::alloc::{AllocError, Global};
use trial_keeping::TrialFault;
use trial_loading::{PagedRows, Rest, rest_of, rows_of, script_of};
use trial_tables::{Damage, ReadFault};

/// Reads a trial back, and writes it: the script's text, the rest, and how many rows each page has, or what is amiss of each of the three. The
/// words are the trial's number and how many statements its script has.
pub fn load(
    alloc: Global,
    keeper: &mut MemoryKeeper,
    words: &str,
    out: &mut Vec<u8>,
) -> Result<(), AllocError> {
    let (number, statements) = halves(words, ' ');
    match keeper.head(alloc, small(number)) {
        Ok(Some(head)) => load_parts(alloc, keeper, &head, small(number), small(statements), out),
        Ok(None) => write(out, "none"),
        Err(fault) => write_fault(out, fault),
    }
}

fn load_parts(
    alloc: Global,
    keeper: &mut MemoryKeeper,
    head: &Head,
    number: u32,
    statements: u32,
    out: &mut Vec<u8>,
) -> Result<(), AllocError>
    requires { AreKept keeper.old.held.is_open (told_of keeper.old.held) }
{
    load_script(alloc, keeper, head, out)?;
    write(out, " / ")?;
    load_rest(alloc, keeper, head, out)?;
    write(out, " / ")?;
    load_rows(alloc, keeper, head, number, statements, out)
}

fn load_script(
    alloc: Global,
    keeper: &mut MemoryKeeper,
    head: &Head,
    out: &mut Vec<u8>,
) -> Result<(), AllocError>
    requires { AreKept keeper.old.held.is_open (told_of keeper.old.held) }
{
    match script_of(alloc, keeper, head) {
        Ok(text) => out.extend_from_slice(text.as_slice()),
        Err(fault) => write_read_fault(alloc, out, fault),
    }
}

fn load_rest(
    alloc: Global,
    keeper: &mut MemoryKeeper,
    head: &Head,
    out: &mut Vec<u8>,
) -> Result<(), AllocError>
    ensures { AreKept keeper.new.held.is_open (told_of keeper.new.held) }
{
    match rest_of(alloc, keeper, head) {
        Ok(rest) => write_rest(alloc, out, &rest),
        Err(fault) => write_read_fault(alloc, out, fault),
    }
}

fn load_rows(
    alloc: Global,
    keeper: &mut MemoryKeeper,
    head: &Head,
    number: u32,
    statements: u32,
    out: &mut Vec<u8>,
) -> Result<(), AllocError>
    requires { AreKept keeper.old.held.is_open (told_of keeper.old.held) }
{
    match rows_of(alloc, keeper, number, head.pages, statements) {
        Ok(read) => write_pages(alloc, out, &read),
        Err(fault) => write_read_fault(alloc, out, fault),
    }
}

fn write_rest(alloc: Global, out: &mut Vec<u8>, rest: &Rest) -> Result<(), AllocError> {
    write_arguments(out, rest.arguments.as_slice())?;
    write_capture(alloc, out, &rest.capture)?;
    write_finals(out, rest.finals.as_slice())?;
    out.extend_from_slice(rest.output.as_slice())
}

/// Writes arguments, and a space.
pub fn write_arguments(out: &mut Vec<u8>, arguments: &[Name]) -> Result<(), AllocError> {
    for argument in arguments {
        write(out, argument.as_str())?;
        out.push(b';')?;
    }
    write(out, " ")
}

/// Writes what devices gave: the answers, and what was found at each path, with a space behind each of the two.
pub fn write_capture(
    alloc: Global,
    out: &mut Vec<u8>,
    capture: &Capture,
) -> Result<(), AllocError> {
    for asked in capture.answers() {
        write_answer(alloc, out, asked)?;
    }
    write(out, " ")?;
    for file in capture.files() {
        write(out, file.0.as_str())?;
        write_found(out, &file.1)?;
    }
    write(out, " ")
}

fn write_answer(alloc: Global, out: &mut Vec<u8>, asked: &Asked) -> Result<(), AllocError> {
    let place = format!(in alloc; "{}:{}:{}=", asked.at.line, asked.at.col, asked.k)?;
    write(out, &place)?;
    match &asked.given {
        Given::Number(time) => write(out, format!(in alloc; "t+{time};")?.as_str()),
        Given::Word(word) => write(out, format!(in alloc; "w+{word};")?.as_str()),
        Given::Line(line) => {
            write(out, "l+")?;
            out.extend_from_slice(line.as_slice())?;
            write(out, ";")
        }
        Given::End => write(out, "l.;"),
        Given::Failed => write(out, "!;"),
    }
}

fn write_found(out: &mut Vec<u8>, found: &Found) -> Result<(), AllocError> {
    match found {
        Found::Bytes(bytes) => {
            write(out, "=")?;
            out.extend_from_slice(bytes.as_slice())?;
            write(out, ";")
        }
        Found::Absent => write(out, "!a;"),
        Found::TooLarge => write(out, "!l;"),
        Found::Failed => write(out, "!f;"),
    }
}

/// Writes final files, and a space.
pub fn write_finals(out: &mut Vec<u8>, finals: &[FileOut]) -> Result<(), AllocError> {
    for file in finals {
        write_final(out, file)?;
    }
    write(out, " ")
}

fn write_final(out: &mut Vec<u8>, file: &FileOut) -> Result<(), AllocError> {
    write(out, file.path.as_str())?;
    write(out, "=")?;
    out.extend_from_slice(file.bytes.as_slice())?;
    write(out, ";")
}

fn write_pages(alloc: Global, out: &mut Vec<u8>, read: &PagedRows) -> Result<(), AllocError> {
    write_counts(
        alloc,
        out,
        read.rows.as_slice().len() as u64,
        read.cuts.as_slice(),
    )
}

/// Writes how many rows there are, and how many each page has.
pub fn write_counts(
    alloc: Global,
    out: &mut Vec<u8>,
    rows: u64,
    cuts: &[u32],
) -> Result<(), AllocError> {
    write_number(alloc, out, rows)?;
    for count in cuts {
        write(out, " ")?;
        write_number(alloc, out, u64::from(*count))?;
    }
    Ok(())
}

fn write_read_fault(alloc: Global, out: &mut Vec<u8>, fault: ReadFault) -> Result<(), AllocError> {
    match fault {
        ReadFault::Damaged(damage) => write_damage(alloc, out, &damage),
        ReadFault::Keeper => write(out, "failed"),
        ReadFault::Memory => write(out, "memory"),
    }
}

/// Writes why there is no trial.
pub fn write_trial_fault(
    alloc: Global,
    out: &mut Vec<u8>,
    fault: TrialFault,
) -> Result<(), AllocError> {
    match fault {
        TrialFault::NoTrial(number) => write_counted(alloc, out, "no trial ", u64::from(number)),
        TrialFault::Damaged(number, damage) => {
            write_counted(alloc, out, "damaged ", u64::from(number))?;
            write(out, ": ")?;
            write_damage(alloc, out, &damage)
        }
        TrialFault::Keeper => write(out, "failed"),
        TrialFault::Collision {
            digest,
            kept_len,
            given_len,
        } => write_collision(alloc, out, &digest, kept_len, given_len),
        TrialFault::Full => write(out, "full"),
        TrialFault::Memory => write(out, "memory"),
    }
}

fn write_damage(alloc: Global, out: &mut Vec<u8>, damage: &Damage) -> Result<(), AllocError> {
    match damage {
        Damage::Path => write(out, "path"),
        Damage::PageDigest { page, kept, found } => {
            write_counted(alloc, out, "page ", u64::from(*page))?;
            write_both(alloc, out, " kept ", kept, found)
        }
        Damage::PageAbsent { page } => {
            write_counted(alloc, out, "page ", u64::from(*page))?;
            write(out, " absent")
        }
        Damage::RowAt { page, byte } => {
            write_counted(alloc, out, "row at page ", u64::from(*page))?;
            write_counted(alloc, out, " byte ", *byte)
        }
        Damage::ContentDigest { kept, found } => write_both(alloc, out, "content ", kept, found),
        Damage::ContentAbsent { digest } => {
            write_named(alloc, out, "content ", digest)?;
            write(out, " absent")
        }
        Damage::RecordAt { digest, byte } => {
            write_named(alloc, out, "record ", digest)?;
            write_counted(alloc, out, " byte ", *byte)
        }
        Damage::ScriptAt { at } => {
            write_counted(alloc, out, "script at ", u64::from(at.line))?;
            write_counted(alloc, out, ":", u64::from(at.col))
        }
    }
}

fn write_counted(
    alloc: Global,
    out: &mut Vec<u8>,
    words: &str,
    number: u64,
) -> Result<(), AllocError> {
    write(out, words)?;
    write_number(alloc, out, number)
}

fn write_named(
    alloc: Global,
    out: &mut Vec<u8>,
    words: &str,
    digest: &Digest,
) -> Result<(), AllocError> {
    write(out, words)?;
    write_digest(alloc, out, digest)
}

// Writes a digest that is kept, and the digest that was found.
fn write_both(
    alloc: Global,
    out: &mut Vec<u8>,
    words: &str,
    kept: &Digest,
    found: &Digest,
) -> Result<(), AllocError> {
    write_named(alloc, out, words, kept)?;
    write_named(alloc, out, " found ", found)
}
