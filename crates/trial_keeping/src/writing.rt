// The items of records, written at the end of a buffer.
ghost use Rattle.std.specs.Prelude.{◌≡◌, ◌++◌, ◌∷◌, [], OnOk};
ghost use Rattle.row_words.specs.Bytes.{number_bytes, zigzag as zigzag_of, place_bytes, text_bytes, list_bytes};
ghost use Rattle.trial_keeping.specs.RecordBytes.{ask_byte as ask_byte_of, given_bytes, answer_bytes, found_bytes, file_bytes, final_bytes};

use crate::record::{FileRecord, FinalRecord, FoundRecord};
use capture::{Ask, Asked, Given};
use prov_base::{Digest, Memory, Name};
use row_words::{write_byte, write_number, write_numbered, write_place};

// The zigzag number of a signed number.
fn zigzag(i: i64) -> u64
    ensures { result ≡ zigzag_of i }
{
    if i >= 0 {
        i as u64 * 2
    } else {
        (-1 - i) as u64 * 2 + 1
    }
}

fn ask_byte(what: Ask) -> u8
    ensures { result ≡ ask_byte_of what }
{
    match what {
        Ask::Time => 0,
        Ask::Word => 1,
        Ask::Line => 2,
    }
}

// A length, and that many bytes.
#[tactic(auto, using(std::proofs::Common::append_assoc))]
fn write_string(out: &mut Vec<u8>, bytes: &[u8]) -> Result<(), Memory>
    ensures { OnOk result (out.new.items ≡ out.old.items ++ text_bytes bytes.now) }
{
    write_number(out, bytes.len() as u64)?;
    out.extend_from_slice(bytes)?;
    Ok(())
}

#[tactic(auto, using(std::proofs::Common::append_assoc))]
fn write_line(out: &mut Vec<u8>, line: &[u8]) -> Result<(), Memory>
    ensures { OnOk result (out.new.items ≡ out.old.items ++ (2 ∷ text_bytes line.now)) }
{
    write_byte(out, 2)?;
    write_string(out, line)
}

#[tactic(auto, using(std::proofs::Common::append_assoc))]
fn write_failed(out: &mut Vec<u8>, what: Ask) -> Result<(), Memory>
    ensures { OnOk result (out.new.items ≡ out.old.items ++ (4 ∷ ask_byte_of what ∷ [])) }
{
    write_byte(out, 4)?;
    write_byte(out, ask_byte(what))
}

fn write_given(out: &mut Vec<u8>, what: Ask, given: &Given) -> Result<(), Memory>
    ensures { OnOk result (out.new.items ≡ out.old.items ++ given_bytes what given.now) }
{
    match given {
        Given::Number(time) => write_numbered(out, 0, zigzag(*time)),
        Given::Word(word) => write_numbered(out, 1, *word),
        Given::Line(line) => write_line(out, line.as_slice()),
        Given::End => write_byte(out, 3),
        Given::Failed => write_failed(out, what),
    }
}

#[tactic(auto, using(std::proofs::Common::append_assoc))]
fn write_answer(out: &mut Vec<u8>, asked: &Asked) -> Result<(), Memory>
    ensures { OnOk result (out.new.items ≡ out.old.items ++ answer_bytes asked.now) }
{
    write_place(out, asked.at)?;
    write_number(out, u64::from(asked.k))?;
    write_given(out, asked.what, &asked.given)
}

fn write_digest(out: &mut Vec<u8>, digest: &Digest) -> Result<(), Memory>
    ensures { OnOk result (out.new.items ≡ out.old.items ++ digest.now.bytes) }
{
    out.extend_from_slice(&digest.bytes)?;
    Ok(())
}

#[tactic(auto, using(std::proofs::Common::append_assoc))]
fn write_content(out: &mut Vec<u8>, digest: &Digest) -> Result<(), Memory>
    ensures { OnOk result (out.new.items ≡ out.old.items ++ (0 ∷ digest.now.bytes)) }
{
    write_byte(out, 0)?;
    write_digest(out, digest)
}

fn write_found(out: &mut Vec<u8>, found: &FoundRecord) -> Result<(), Memory>
    ensures { OnOk result (out.new.items ≡ out.old.items ++ found_bytes found.now) }
{
    match found {
        FoundRecord::Content(digest) => write_content(out, digest),
        FoundRecord::Absent => write_byte(out, 1),
        FoundRecord::TooLarge => write_byte(out, 2),
        FoundRecord::Failed => write_byte(out, 3),
    }
}

#[tactic(auto, using(std::proofs::Common::append_assoc))]
fn write_file(out: &mut Vec<u8>, file: &FileRecord) -> Result<(), Memory>
    ensures { OnOk result (out.new.items ≡ out.old.items ++ file_bytes file.now) }
{
    write_string(out, file.path.as_str().as_bytes())?;
    write_found(out, &file.found)
}

#[tactic(auto, using(std::proofs::Common::append_assoc))]
fn write_final(out: &mut Vec<u8>, written: &FinalRecord) -> Result<(), Memory>
    ensures { OnOk result (out.new.items ≡ out.old.items ++ final_bytes written.now) }
{
    write_string(out, written.path.as_str().as_bytes())?;
    write_digest(out, &written.digest)
}

fn write_name(out: &mut Vec<u8>, name: &Name) -> Result<(), Memory>
    ensures { OnOk result (out.new.items ≡ out.old.items ++ text_bytes name.now) }
{
    write_string(out, name.as_str().as_bytes())
}

/// Writes a list of strings.
pub(crate) fn write_strings(out: &mut Vec<u8>, strings: &[Name]) -> Result<(), Memory>
    ensures { OnOk result (out.new.items ≡ out.old.items ++ list_bytes text_bytes strings.now) }
{
    write_number(out, strings.len() as u64)?;
    for string in strings {
        write_name(out, string)?;
    }
    Ok(())
}

/// Writes a list of answers.
pub(crate) fn write_answers(out: &mut Vec<u8>, answers: &[Asked]) -> Result<(), Memory>
    ensures { OnOk result (out.new.items ≡ out.old.items ++ list_bytes answer_bytes answers.now) }
{
    write_number(out, answers.len() as u64)?;
    for asked in answers {
        write_answer(out, asked)?;
    }
    Ok(())
}

/// Writes a list of files.
pub(crate) fn write_files(out: &mut Vec<u8>, files: &[FileRecord]) -> Result<(), Memory>
    ensures { OnOk result (out.new.items ≡ out.old.items ++ list_bytes file_bytes files.now) }
{
    write_number(out, files.len() as u64)?;
    for file in files {
        write_file(out, file)?;
    }
    Ok(())
}

/// Writes a list of final files.
pub(crate) fn write_finals(out: &mut Vec<u8>, finals: &[FinalRecord]) -> Result<(), Memory>
    ensures { OnOk result (out.new.items ≡ out.old.items ++ list_bytes final_bytes finals.now) }
{
    write_number(out, finals.len() as u64)?;
    for written in finals {
        write_final(out, written)?;
    }
    Ok(())
}
