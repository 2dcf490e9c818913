// Answers as words.
use capture::{Ask, Asked, Given, NoAnswer};
use prov_base::{Bytes, Failed, Name};
use prov_outside::Found;
use std::alloc::{AllocError, Global};

fn write_bytes(out: &mut Vec<u8>, bytes: &Bytes) -> Result<(), AllocError> {
    out.push(b'[')?;
    out.extend_from_slice(bytes.as_slice())?;
    out.push(b']')?;
    Ok(())
}

/// Writes what was given.
pub fn write_given(alloc: Global, out: &mut Vec<u8>, given: &Given) -> Result<(), AllocError> {
    match given {
        Given::Number(time) => {
            let time = *time;
            out.extend_from_slice(format!(in alloc; "time {time}")?.as_bytes())
        }
        Given::Word(word) => {
            let word = *word;
            out.extend_from_slice(format!(in alloc; "word {word}")?.as_bytes())
        }
        Given::Line(line) => write_bytes(out, line),
        Given::End => out.extend_from_slice(b"end"),
        Given::Failed => out.extend_from_slice(b"failed"),
    }
}

/// Writes what was found.
pub fn write_found(out: &mut Vec<u8>, found: &Found) -> Result<(), AllocError> {
    match found {
        Found::Bytes(bytes) => write_bytes(out, bytes),
        Found::Absent => out.extend_from_slice(b"absent"),
        Found::TooLarge => out.extend_from_slice(b"too large"),
        Found::Failed => out.extend_from_slice(b"failed"),
    }
}

/// Writes what a look-up of an answer gave.
pub fn write_kept(
    alloc: Global,
    out: &mut Vec<u8>,
    kept: Result<&Given, NoAnswer>,
) -> Result<(), AllocError> {
    match kept {
        Ok(given) => write_given(alloc, out, given),
        Err(NoAnswer) => out.extend_from_slice(b"no answer"),
    }
}

/// Writes what a look-up of a file gave.
pub fn write_touched(out: &mut Vec<u8>, kept: Result<&Found, NoAnswer>) -> Result<(), AllocError> {
    match kept {
        Ok(found) => write_found(out, found),
        Err(NoAnswer) => out.extend_from_slice(b"no answer"),
    }
}

fn word_of(what: Ask) -> &'static str {
    match what {
        Ask::Time => "time",
        Ask::Word => "word",
        Ask::Line => "line",
    }
}

fn write_asked(alloc: Global, out: &mut Vec<u8>, asked: &Asked) -> Result<(), AllocError> {
    let (line, col, k) = (asked.at.line, asked.at.col, asked.k);
    let what = word_of(asked.what);
    out.extend_from_slice(format!(in alloc; "{line}:{col} {k} {what}=")?.as_bytes())?;
    write_given(alloc, out, &asked.given)?;
    out.push(b' ')?;
    Ok(())
}

/// Writes answers.
pub fn write_answers(
    alloc: Global,
    out: &mut Vec<u8>,
    answers: &[Asked],
) -> Result<(), AllocError> {
    for asked in answers {
        write_asked(alloc, out, asked)?;
    }
    Ok(())
}

/// Writes files.
pub fn write_files(out: &mut Vec<u8>, files: &[(Name, Found)]) -> Result<(), AllocError> {
    for (name, found) in files {
        out.extend_from_slice(name.as_str().as_bytes())?;
        out.push(b'=')?;
        write_found(out, found)?;
        out.push(b' ')?;
    }
    Ok(())
}

/// Writes paths.
pub fn write_names(out: &mut Vec<u8>, names: &[Name]) -> Result<(), AllocError> {
    for name in names {
        out.extend_from_slice(name.as_str().as_bytes())?;
        out.push(b' ')?;
    }
    Ok(())
}

/// Writes a time.
pub fn write_time(
    alloc: Global,
    out: &mut Vec<u8>,
    time: Result<i64, Failed>,
) -> Result<(), AllocError> {
    match time {
        Ok(time) => out.extend_from_slice(format!(in alloc; "{time}")?.as_bytes()),
        Err(Failed) => out.extend_from_slice(b"failed"),
    }
}

/// Writes a random word.
pub fn write_word(
    alloc: Global,
    out: &mut Vec<u8>,
    word: Result<u64, Failed>,
) -> Result<(), AllocError> {
    match word {
        Ok(word) => out.extend_from_slice(format!(in alloc; "{word}")?.as_bytes()),
        Err(Failed) => out.extend_from_slice(b"failed"),
    }
}
