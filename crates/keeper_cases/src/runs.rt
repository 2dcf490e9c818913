// Runs that are over, kept as trials.
ghost use Rattle.std.specs.Prelude.{IfOk};
ghost use Rattle.capture.specs.Answers.{Fits};

use crate::loads::write_trial_fault;
use crate::texts::{
    bytes_of, halves, name_of, number, small, write, write_digest, write_fault, write_number,
};
use capture::{Ask, Capture, Ended, FileOut, Given, RunEnd};
use keeper::{Head, KeepFault, Keeper};
use memory_keeper::MemoryKeeper;
use prov_base::{Bytes, Memory, Name, Pos};
use prov_outside::Found;
use std::alloc::{AllocError, Global};
use trial_keeping::{TrialFault, keep_trial};

/// Keeps the trial of a run, and writes what that answers. The words are path, end, arguments, answers, found files, final files, pages, output and text; a
/// list has `;` between its items, and `-` is an empty one. The budget is 1000, the run took 42 steps, and the clock told its begin as -7.
pub fn keep_run(
    alloc: Global,
    keeper: &mut MemoryKeeper,
    words: &str,
    out: &mut Vec<u8>,
) -> Result<(), AllocError> {
    match Capture::new(alloc) {
        Ok(capture) => {
            let mut ended = nothing_done(alloc, capture);
            keep_ended(alloc, keeper, &mut ended, words, out)
        }
        Err(_) => Err(AllocError),
    }
}

// A run that did nothing.
fn nothing_done(alloc: Global, capture: Capture) -> Ended {
    Ended {
        end: RunEnd::Finished,
        steps: 42,
        output: Bytes::of(Vec::new(alloc)),
        finals: Vec::new(alloc),
        capture,
    }
}

// Notes what the words say of a run, and keeps it.
fn keep_ended(
    alloc: Global,
    keeper: &mut MemoryKeeper,
    ended: &mut Ended,
    words: &str,
    out: &mut Vec<u8>,
) -> Result<(), AllocError> {
    let (path, words) = halves(words, ' ');
    let (end, words) = halves(words, ' ');
    let (arguments, words) = halves(words, ' ');
    let (answers, words) = halves(words, ' ');
    let (files, words) = halves(words, ' ');
    let (finals, words) = halves(words, ' ');
    let (pages, words) = halves(words, ' ');
    let (output, text) = halves(words, ' ');
    keep_answers(alloc, &mut ended.capture, answers)?;
    keep_files(alloc, &mut ended.capture, files)?;
    push_finals(alloc, &mut ended.finals, finals)?;
    note_end(alloc, ended, end, output)?;
    let arguments = names_of(alloc, arguments)?;
    let pages = pages_of(alloc, pages)?;
    keep_with(alloc, keeper, text, path, &arguments, ended, &pages, out)
}

// Keeps a run, where no batch is open.
fn keep_with(
    alloc: Global,
    keeper: &mut MemoryKeeper,
    text: &str,
    path: &str,
    arguments: &[Name],
    ended: &Ended,
    pages: &[Bytes],
    out: &mut Vec<u8>,
) -> Result<(), AllocError> {
    if keeper.is_open() {
        return write(out, "open");
    }
    let answer = keep_trial(
        alloc,
        keeper,
        text.as_bytes(),
        path,
        arguments,
        1000,
        ended,
        pages,
        (Some(-7), None),
    );
    write_kept(alloc, out, answer)
}

// Notes how the run ended, by its status, and what it printed.
fn note_end(alloc: Global, ended: &mut Ended, end: &str, output: &str) -> Result<(), AllocError> {
    ended.output = bytes_of(alloc, output)?;
    ended.end = end_of(alloc, end)?;
    Ok(())
}

// How the run ended, by its status.
fn end_of(alloc: Global, word: &str) -> Result<RunEnd, AllocError> {
    match number(word) {
        1 => Ok(RunEnd::Raised {
            class: name_of(alloc, "ValueError")?,
            line: 3,
            text: None,
        }),
        9 => Ok(RunEnd::Spent),
        _ => Ok(RunEnd::Finished),
    }
}

fn names_of(alloc: Global, words: &str) -> Result<Vec<Name>, AllocError> {
    let mut list = Vec::new(alloc);
    if words == "-" {
        return Ok(list);
    }
    for word in words.split(';') {
        list.push(name_of(alloc, word)?)?;
    }
    Ok(list)
}

// Pages: their bytes, or `0x` and digits.
fn pages_of(alloc: Global, words: &str) -> Result<Vec<Bytes>, AllocError> {
    let mut list = Vec::new(alloc);
    if words == "-" {
        return Ok(list);
    }
    for word in words.split(';') {
        list.push(page_of(alloc, word)?)?;
    }
    Ok(list)
}

fn page_of(alloc: Global, word: &str) -> Result<Bytes, AllocError> {
    let Some(digits) = word.strip_prefix("0x") else {
        return bytes_of(alloc, word);
    };
    match hex::decode(alloc, digits) {
        Ok(bytes) => Ok(Bytes::of(bytes)),
        Err(_) => bytes_of(alloc, ""),
    }
}

// Final files: `PATH=BYTES`.
fn push_finals(alloc: Global, finals: &mut Vec<FileOut>, words: &str) -> Result<(), AllocError> {
    if words == "-" {
        return Ok(());
    }
    for word in words.split(';') {
        let (path, bytes) = halves(word, '=');
        finals.push(FileOut {
            path: name_of(alloc, path)?,
            bytes: bytes_of(alloc, bytes)?,
        })?;
    }
    Ok(())
}

// Found files: `PATH=BYTES`, or `PATH!` with `a` for absent, `l` for too large, `f` for failed.
fn keep_files(alloc: Global, capture: &mut Capture, words: &str) -> Result<(), AllocError> {
    if words == "-" {
        return Ok(());
    }
    for word in words.split(';') {
        let (path, found) = found_of(alloc, word)?;
        if capture.touch_kept(path).is_err() {
            kept(capture.keep_file(alloc, path, &found))?;
        }
    }
    Ok(())
}

fn found_of(alloc: Global, word: &str) -> Result<(&str, Found), AllocError> {
    if let Some((path, bytes)) = word.split_once('=') {
        return Ok((path, Found::Bytes(bytes_of(alloc, bytes)?)));
    }
    let (path, kind) = halves(word, '!');
    Ok((
        path,
        match kind {
            "a" => Found::Absent,
            "l" => Found::TooLarge,
            _ => Found::Failed,
        },
    ))
}

// Answers: `LINE:COLUMN:NUMBER=KIND` and what was given, where the kind is `t` for a time, `w` for a word, `l` for a line; `+` stands before what was
// given, `!` for a failure, `.` for the end of the input.
fn keep_answers(alloc: Global, capture: &mut Capture, words: &str) -> Result<(), AllocError> {
    if words == "-" {
        return Ok(());
    }
    for word in words.split(';') {
        let (place, given) = halves(word, '=');
        keep_answer(alloc, capture, place, given)?;
    }
    Ok(())
}

fn keep_answer(
    alloc: Global,
    capture: &mut Capture,
    place: &str,
    word: &str,
) -> Result<(), AllocError> {
    let (line, rest) = halves(place, ':');
    let (col, k) = halves(rest, ':');
    let (at, k) = (
        Pos {
            line: small(line),
            col: small(col),
        },
        small(k),
    );
    let what = ask_of(word);
    let given = given_of(alloc, what, word)?;
    if capture.last_number(at) < k {
        return kept(capture.keep(alloc, at, k, what, &given));
    }
    Ok(())
}

fn kept(done: Result<(), Memory>) -> Result<(), AllocError> {
    match done {
        Ok(()) => Ok(()),
        Err(Memory) => Err(AllocError),
    }
}

fn ask_of(word: &str) -> Ask {
    if word.starts_with('t') {
        return Ask::Time;
    }
    if word.starts_with('w') {
        return Ask::Word;
    }
    Ask::Line
}

fn given_of(alloc: Global, what: Ask, word: &str) -> Result<Given, AllocError>
    ensures { IfOk result (Fits what) }
{
    let Some((_, given)) = word.split_once('+') else {
        return Ok(no_answer(what, word));
    };
    match what {
        Ask::Time => Ok(Given::Number(given.parse::<i64>().unwrap_or(0))),
        Ask::Word => Ok(Given::Word(number(given))),
        Ask::Line => Ok(Given::Line(bytes_of(alloc, given)?)),
    }
}

fn no_answer(what: Ask, word: &str) -> Given
    ensures { Fits what result }
{
    match what {
        Ask::Time => Given::Failed,
        Ask::Word => Given::Failed,
        Ask::Line => if word.ends_with('.') {
            Given::End
        } else {
            Given::Failed
        },
    }
}

fn write_kept(
    alloc: Global,
    out: &mut Vec<u8>,
    kept: Result<u32, TrialFault>,
) -> Result<(), AllocError> {
    match kept {
        Ok(number) => write_number(alloc, out, u64::from(number)),
        Err(fault) => write_trial_fault(alloc, out, fault),
    }
}

/// Writes a trial's head with all its fields, a space between them.
pub fn write_whole(
    alloc: Global,
    out: &mut Vec<u8>,
    head: Result<Option<Head>, KeepFault>,
) -> Result<(), AllocError> {
    match head {
        Ok(Some(head)) => write_fields(alloc, out, &head),
        Ok(None) => write(out, "none"),
        Err(fault) => write_fault(out, fault),
    }
}

/// Writes a head with all its fields, a space between them.
pub fn write_fields(alloc: Global, out: &mut Vec<u8>, head: &Head) -> Result<(), AllocError> {
    write_number(alloc, out, u64::from(head.format))?;
    out.push(b' ')?;
    write_number(alloc, out, u64::from(head.language))?;
    out.push(b' ')?;
    write(out, head.path.as_str())?;
    write_digests(alloc, out, head)?;
    for number in [
        head.budget,
        head.steps,
        u32::from(head.status),
        head.pages,
        head.parent,
    ] {
        out.push(b' ')?;
        write_number(alloc, out, u64::from(number))?;
    }
    write_time(alloc, out, head.started)?;
    write_time(alloc, out, head.ended)
}

fn write_digests(alloc: Global, out: &mut Vec<u8>, head: &Head) -> Result<(), AllocError> {
    for digest in [
        head.script,
        head.arguments,
        head.capture,
        head.output,
        head.finals,
    ] {
        out.push(b' ')?;
        write_digest(alloc, out, &digest)?;
    }
    Ok(())
}

fn write_time(alloc: Global, out: &mut Vec<u8>, time: Option<i64>) -> Result<(), AllocError> {
    out.push(b' ')?;
    match time {
        Some(time) => write(out, format!(in alloc; "{time}")?.as_str()),
        None => write(out, "-"),
    }
}
