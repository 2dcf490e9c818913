// How a run came out, as lines.
use capture::{Ask, Asked, Capture, Ended, FileOut, Given, RunEnd};
use prov_outside::Found;
use std::alloc::{AllocError, Global};

/// Writes the words, and a line end.
pub fn write_line(words: &str, out: &mut Vec<u8>) -> Result<(), AllocError> {
    out.extend_from_slice(words.as_bytes())?;
    Ok(out.push(b'\n')?)
}

/// Writes each line of a text behind `|`, and a last one without a line end behind `/`.
fn write_text(text: &[u8], out: &mut Vec<u8>) -> Result<(), AllocError> {
    for row in text.split_inclusive(|byte| *byte == b'\n') {
        match row.split_last() {
            Some((b'\n', line)) => {
                out.push(b'|')?;
                out.extend_from_slice(line)?;
            }
            _ => {
                out.push(b'/')?;
                out.extend_from_slice(row)?;
            }
        }
        out.push(b'\n')?;
    }
    Ok(())
}

fn write_end(alloc: Global, end: &RunEnd, out: &mut Vec<u8>) -> Result<(), AllocError> {
    match end {
        RunEnd::Finished => write_line("finished", out),
        RunEnd::Spent => write_line("out of steps", out),
        RunEnd::Raised { class, line, text } => {
            let (class, line) = (class.as_str(), *line);
            match text {
                Some(text) => {
                    let text = text.as_str();
                    write_line(
                        format!(in alloc; "uncaught {class} at line {line}: {text}")?.as_str(),
                        out,
                    )
                }
                None => write_line(
                    format!(in alloc; "uncaught {class} at line {line}")?.as_str(),
                    out,
                ),
            }
        }
    }
}

fn write_given(alloc: Global, given: &Given, out: &mut Vec<u8>) -> Result<(), AllocError> {
    match given {
        Given::Number(time) => {
            let time = *time;
            write_line(format!(in alloc; "{time}")?.as_str(), out)
        }
        Given::Word(word) => {
            let word = *word;
            write_line(format!(in alloc; "{word}")?.as_str(), out)
        }
        Given::Line(line) => {
            out.push(b'|')?;
            out.extend_from_slice(line.as_slice())?;
            Ok(out.push(b'\n')?)
        }
        Given::End => write_line("end", out),
        Given::Failed => write_line("failed", out),
    }
}

fn word_of(what: Ask) -> &'static str {
    match what {
        Ask::Time => "time",
        Ask::Word => "word",
        Ask::Line => "line",
    }
}

fn write_asked(alloc: Global, asked: &Asked, out: &mut Vec<u8>) -> Result<(), AllocError> {
    let (line, col, k) = (asked.at.line, asked.at.col, asked.k);
    let what = word_of(asked.what);
    out.extend_from_slice(format!(in alloc; "{what} at {line}:{col} {k} = ")?.as_bytes())?;
    write_given(alloc, &asked.given, out)
}

fn write_found(path: &str, found: &Found, out: &mut Vec<u8>) -> Result<(), AllocError> {
    out.extend_from_slice(b"fetched ")?;
    out.extend_from_slice(path.as_bytes())?;
    match found {
        Found::Bytes(bytes) => {
            out.push(b'\n')?;
            write_text(bytes.as_slice(), out)
        }
        Found::Absent => write_line(" absent", out),
        Found::TooLarge => write_line(" too large", out),
        Found::Failed => write_line(" failed", out),
    }
}

fn write_capture(alloc: Global, capture: &Capture, out: &mut Vec<u8>) -> Result<(), AllocError> {
    for asked in capture.answers() {
        write_asked(alloc, asked, out)?;
    }
    for (path, found) in capture.files() {
        write_found(path.as_str(), found, out)?;
    }
    Ok(())
}

fn write_files(files: &[FileOut], out: &mut Vec<u8>) -> Result<(), AllocError> {
    for file in files {
        out.extend_from_slice(b"file ")?;
        write_line(file.path.as_str(), out)?;
        write_text(file.bytes.as_slice(), out)?;
    }
    Ok(())
}

/// Writes what a run shows: how it ended, without the text of an exception, what it printed, and its files.
pub fn write_shown(alloc: Global, over: &Ended, out: &mut Vec<u8>) -> Result<(), AllocError> {
    match &over.end {
        RunEnd::Raised { class, line, .. } => {
            let (class, line) = (class.as_str(), *line);
            write_line(
                format!(in alloc; "uncaught {class} at line {line}")?.as_str(),
                out,
            )?;
        }
        end => write_end(alloc, end, out)?,
    }
    write_text(over.output.as_slice(), out)?;
    write_files(&over.finals, out)
}

/// Writes how a run came out, with its steps and what it was given.
pub fn write_ended(alloc: Global, over: &Ended, out: &mut Vec<u8>) -> Result<(), AllocError> {
    write_end(alloc, &over.end, out)?;
    let steps = over.steps;
    write_line(format!(in alloc; "{steps} steps")?.as_str(), out)?;
    write_text(over.output.as_slice(), out)?;
    write_files(&over.finals, out)?;
    write_capture(alloc, &over.capture, out)
}
