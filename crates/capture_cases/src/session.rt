// Devices in memory and a capture, and the calls on them.
ghost use Rattle.std.specs.Prelude.{IfOk};
ghost use Rattle.capture.specs.Answers.{Fits};

use crate::rows::{
    write_answers, write_files, write_given, write_kept, write_names, write_time, write_touched,
    write_word,
};
use crate::texts::{files, halves, lines, number, numbers, place, times};
use capture::{Ask, Capture, Given};
use prov_base::{Bytes, Memory, Pos};
use prov_outside::{
    ClockAndRandom, Console, Found, MemoryClockAndRandom, MemoryConsole, MemoryFolder,
};
use prov_real::RealClockAndRandom;
use std::alloc::{AllocError, Global};

/// Devices in memory and a capture.
#[derive(Drop)]
pub struct Session {
    capture: Box<Capture>,
    console: Box<MemoryConsole>,
    moments: Box<MemoryClockAndRandom>,
    folder: Box<MemoryFolder>,
}

fn console_of(alloc: Global, input: &str, fails: &str) -> Result<Box<MemoryConsole>, AllocError> {
    let input = lines(alloc, input)?;
    let fails = numbers(alloc, fails)?;
    Ok(Box::new(alloc, MemoryConsole::of(input, fails))?)
}

fn moments_of(
    alloc: Global,
    clock: &str,
    random: &str,
    fails: &str,
) -> Result<Box<MemoryClockAndRandom>, AllocError> {
    let clock = times(alloc, clock)?;
    let random = numbers(alloc, random)?;
    let fails = numbers(alloc, fails)?;
    Ok(Box::new(alloc, MemoryClockAndRandom::of(clock, random, fails))?)
}

fn folder_of(alloc: Global, found: &str, fails: &str) -> Result<Box<MemoryFolder>, AllocError> {
    let found = files(alloc, found)?;
    let fails = numbers(alloc, fails)?;
    Ok(Box::new(alloc, MemoryFolder::of(found, fails))?)
}

fn capture_of(alloc: Global) -> Result<Box<Capture>, Memory> {
    Ok(Box::new(alloc, Capture::new(alloc)?)?)
}

fn ask_of(word: &str) -> Ask {
    match word {
        "time" => Ask::Time,
        "word" => Ask::Word,
        _ => Ask::Line,
    }
}

/// What may be given to a question, by its word.
fn given_of(alloc: Global, what: Ask, word: &str) -> Result<Given, AllocError>
    ensures { IfOk result (Fits what) }
{
    if word == "failed" {
        return Ok(Given::Failed);
    }
    match what {
        Ask::Time => Ok(Given::Number(word.parse::<i64>().unwrap_or(0))),
        Ask::Word => Ok(Given::Word(word.parse::<u64>().unwrap_or(0))),
        Ask::Line => {
            let bytes = Vec::from_slice(alloc, word.as_bytes())?;
            Ok(Given::Line(Bytes::of(bytes)))
        }
    }
}

fn write_done(out: &mut Vec<u8>, done: Result<(), Memory>) -> Result<(), AllocError> {
    match done {
        Ok(()) => out.extend_from_slice(b"done"),
        Err(Memory) => out.extend_from_slice(b"memory"),
    }
}

impl Session {
    /// Devices and a new capture.
    pub fn start(alloc: Global, words: &str) -> Result<Session, Memory> {
        let (input, rest) = halves(words, '|');
        let (clock, rest) = halves(rest, '|');
        let (random, rest) = halves(rest, '|');
        let (found, rest) = halves(rest, '|');
        let (console_fails, rest) = halves(rest, '|');
        let (moments_fail, folder_fails) = halves(rest, '|');
        Ok(Session {
            console: console_of(alloc, input, console_fails)?,
            moments: moments_of(alloc, clock, random, moments_fail)?,
            folder: folder_of(alloc, found, folder_fails)?,
            capture: capture_of(alloc)?,
        })
    }

    /// Answers a line: writes it and what its command answers. An empty one, one that is no text and one that begins with `#`
    /// answer nothing.
    pub fn answer(
        &mut self,
        rt: &HostRuntime,
        line: &[u8],
        out: &mut Vec<u8>,
    ) -> Result<(), AllocError> {
        let Ok(line) = str::from_utf8(line) else {
            return Ok(());
        };
        let (command, words) = halves(line, ' ');
        if command.is_empty() || command == "#" {
            return Ok(());
        }
        out.extend_from_slice(line.as_bytes())?;
        out.extend_from_slice(b"\n    ")?;
        match command {
            "start" => self.restart(rt.alloc(), words, out)?,
            "real" => real(rt, out)?,
            _ => self.call(rt.alloc(), command, words, out)?,
        }
        out.push(b'\n')?;
        Ok(())
    }

    fn restart(&mut self, alloc: Global, words: &str, out: &mut Vec<u8>) -> Result<(), AllocError> {
        match Session::start(alloc, words) {
            Ok(session) => {
                *self = session;
                out.extend_from_slice(b"started")
            }
            Err(Memory) => out.extend_from_slice(b"memory"),
        }
    }

    fn call(
        &mut self,
        alloc: Global,
        command: &str,
        words: &str,
        out: &mut Vec<u8>,
    ) -> Result<(), AllocError> {
        let (first, second) = halves(words, ' ');
        match command {
            "ask" => self.ask(alloc, ask_of(first), place(second), out),
            "kept" => self.kept(alloc, ask_of(first), second, out),
            "touch" => self.touch(alloc, first, out),
            "found" => write_touched(out, self.capture.touch_kept(first)),
            "write" => write_done(out, self.capture.note_written(alloc, first)),
            "keep" => self.keep(alloc, ask_of(first), second, out),
            "keep_file" => self.keep_file(alloc, first, second, out),
            "order" => write_done(out, self.capture.put_in_order()),
            "last" => self.last(alloc, place(first), out),
            "fill" => self.fill(alloc, number(first), number(second), out),
            _ => self.show(alloc, command, out),
        }
    }

    fn show(&mut self, alloc: Global, command: &str, out: &mut Vec<u8>) -> Result<(), AllocError> {
        match command {
            "answers" => write_answers(alloc, out, self.capture.answers()),
            "files" => write_files(out, self.capture.files()),
            "changed" => write_names(out, self.capture.changed()),
            "now" => write_time(alloc, out, self.moments.now_ns()),
            "random" => write_word(alloc, out, self.moments.word()),
            _ => match self.console.read_line(alloc) {
                Ok(Some(line)) => out.extend_from_slice(line.as_slice()),
                Ok(None) => out.extend_from_slice(b"none"),
                Err(_) => out.extend_from_slice(b"failed"),
            },
        }
    }

    fn ask(
        &mut self,
        alloc: Global,
        what: Ask,
        at: Pos,
        out: &mut Vec<u8>,
    ) -> Result<(), AllocError> {
        match self
            .capture
            .ask_live(alloc, what, at, &mut *self.console, &mut *self.moments)
        {
            Ok(k) => self.given(alloc, what, at, k, out),
            Err(Memory) => out.extend_from_slice(b"memory"),
        }
    }

    fn given(
        &self,
        alloc: Global,
        what: Ask,
        at: Pos,
        k: u32,
        out: &mut Vec<u8>,
    ) -> Result<(), AllocError> {
        match self.capture.copy_kept(alloc, what, at, k) {
            Ok(Some(given)) => write_given(alloc, out, &given),
            Ok(None) => out.extend_from_slice(b"no answer"),
            Err(Memory) => out.extend_from_slice(b"memory"),
        }
    }

    fn kept(
        &mut self,
        alloc: Global,
        what: Ask,
        words: &str,
        out: &mut Vec<u8>,
    ) -> Result<(), AllocError> {
        let (at, k) = halves(words, ' ');
        write_kept(
            alloc,
            out,
            self.capture.ask_kept(what, place(at), number(k)),
        )
    }

    fn touch(&mut self, alloc: Global, path: &str, out: &mut Vec<u8>) -> Result<(), AllocError> {
        let done = self.capture.touch_live(alloc, path, &mut *self.folder);
        write_done(out, done)
    }

    /// Keeps an answer where nothing is kept at the place from its number on.
    fn keep(
        &mut self,
        alloc: Global,
        what: Ask,
        words: &str,
        out: &mut Vec<u8>,
    ) -> Result<(), AllocError> {
        let (at, rest) = halves(words, ' ');
        let (k, word) = halves(rest, ' ');
        let (at, k) = (place(at), number(k));
        let given = given_of(alloc, what, word)?;
        if self.capture.last_number(at) < k {
            write_done(out, self.capture.keep(alloc, at, k, what, &given))
        } else {
            out.extend_from_slice(b"kept already")
        }
    }

    /// Keeps a file where none is kept.
    fn keep_file(
        &mut self,
        alloc: Global,
        path: &str,
        text: &str,
        out: &mut Vec<u8>,
    ) -> Result<(), AllocError> {
        let found = Found::Bytes(Bytes::of(Vec::from_slice(alloc, text.as_bytes())?));
        match self.capture.touch_kept(path) {
            Ok(_) => out.extend_from_slice(b"kept already"),
            Err(_) => write_done(out, self.capture.keep_file(alloc, path, &found)),
        }
    }

    fn last(&mut self, alloc: Global, at: Pos, out: &mut Vec<u8>) -> Result<(), AllocError> {
        let last = self.capture.last_number(at);
        out.extend_from_slice(format!(in alloc; "{last}")?.as_bytes())
    }

    /// Asks for a word so many times, at so many places in turn from the last one down, looks each answer up, and puts them
    /// in order.
    fn fill(
        &mut self,
        alloc: Global,
        times: u32,
        places: u32,
        out: &mut Vec<u8>,
    ) -> Result<(), AllocError> {
        let mut asked = 0u32;
        let mut line = places;
        for _ in 0..times {
            if self.ask_again(alloc, Pos { line, col: 1 }) {
                asked = asked.saturating_add(1);
            }
            line = if line > 1 { line - 1 } else { places };
        }
        out.extend_from_slice(format!(in alloc; "{asked} found, ")?.as_bytes())?;
        write_done(out, self.capture.put_in_order())
    }

    // Whether a word is found where it was kept.
    fn ask_again(&mut self, alloc: Global, at: Pos) -> bool {
        match self.capture.ask_live(alloc, Ask::Word, at, &mut *self.console, &mut *self.moments) {
            Ok(k) => self.capture.ask_kept(Ask::Word, at, k).is_ok(),
            Err(Memory) => false,
        }
    }
}

/// The real clock and random words: a time behind the first of January 2020, no earlier time at the next call, and two words
/// that are not both zero.
fn real(rt: &HostRuntime, out: &mut Vec<u8>) -> Result<(), AllocError> {
    let mut moments = RealClockAndRandom::new(rt);
    let (first, second) = (moments.now_ns(), moments.now_ns());
    let (word, other) = (moments.word(), moments.word());
    match (first, second, word, other) {
        (Ok(first), Ok(second), Ok(word), Ok(other)) => {
            let fine = first > 1_577_836_800_000_000_000 && first <= second && word | other != 0;
            out.extend_from_slice(if fine { b"fine" } else { b"odd" })
        }
        _ => out.extend_from_slice(b"failed"),
    }
}
