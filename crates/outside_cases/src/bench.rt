// What the commands have set up for the next call of the program, and the one place where a command is told from others.
ghost use Rattle.std.specs.Prelude.{◌≡◌, false, IfOk};

use crate::texts::{bytes_of, halves, number, write_rows};
use crate::{base, damage, devices, streams};
use answer_source::Devices;
use keeper::{Head, Keeper};
use memory_keeper::{MemoryKeeper, Tables};
use now_top::now;
use prov_base::{Bytes, Name};
use prov_outside::{MemoryClockAndRandom, MemoryConsole, MemoryFolder};
use std::alloc::{AllocError, Global};

/// The file of the folder that calls are about, another one beside it if its path is not empty, the numbers of the calls of the console, of the folder and of the store of trials that fail, where 0 is none, and what the clock answers
/// in each call of the program. Then the words of the calls that are made over the same store before, what is damaged behind them, and whether a call of the program
/// is made twice.
#[derive(Drop)]
pub struct Bench {
    path: String,
    text: Vec<u8>,
    other_path: String,
    other_text: Vec<u8>,
    console_fails: u64,
    folder_fails: u64,
    store_fails: u64,
    clock: Vec<i64>,
    before: Vec<String>,
    damage: String,
    is_twice: bool,
}

impl Bench {
    pub fn new(alloc: Global) -> Result<Bench, AllocError> {
        Ok(Bench {
            path: String::new(alloc),
            text: Vec::new(alloc),
            other_path: String::new(alloc),
            other_text: Vec::new(alloc),
            console_fails: 0,
            folder_fails: 0,
            store_fails: 0,
            clock: vec![in alloc; 5, 8]?,
            before: Vec::new(alloc),
            damage: String::new(alloc),
            is_twice: false,
        })
    }

    /// Answers a line: writes what its command answers, and an LF. A line that is no text, an empty one and one that begins with
    /// `#` answer nothing.
    pub fn answer(
        &mut self,
        rt: &HostRuntime,
        line: &[u8],
        out: &mut Vec<u8>,
    ) -> Result<(), AllocError> {
        let Ok(line) = str::from_utf8(line) else {
            return Ok(());
        };
        let (command, words) = halves(line, ' ');
        if self.sets_up(rt.alloc(), command, words)? {
            return Ok(());
        }
        out.extend_from_slice(line.as_bytes())?;
        out.extend_from_slice(b"\n    ")?;
        if command == "call" {
            self.call(rt.alloc(), words, out)?;
        } else {
            answer_device(rt, command, words, out)?;
        }
        out.push(b'\n')?;
        Ok(())
    }

    /// Whether the command is one that sets up a call. It does so.
    fn sets_up(&mut self, alloc: Global, command: &str, words: &str) -> Result<bool, AllocError> {
        match command {
            "" | "#" => {}
            "path" => self.path = word_of(alloc, words)?,
            "text" => self.text = bytes_of(alloc, words)?,
            "beside" => self.put_beside(alloc, words)?,
            "repeat" => {
                let (times, text) = halves(words, ' ');
                self.repeat(&bytes_of(alloc, text)?, number(times))?;
            }
            "chain" => self.chain(alloc, number(words))?,
            "fails" => {
                let (console, folder) = halves(words, ' ');
                self.console_fails = number(console);
                self.folder_fails = number(folder);
            }
            "store" => self.store_fails = number(words),
            "clock" => self.clock = times_of(alloc, words)?,
            "before" => self.put_before(alloc, words)?,
            "damage" => self.damage = String::from_str(alloc, words)?,
            "twice" => self.is_twice = number(words) == 1,
            _ => return Ok(false),
        }
        Ok(true)
    }

    /// Puts the words of a call behind those that are made before, or forgets these where there are none.
    fn put_before(&mut self, alloc: Global, words: &str) -> Result<(), AllocError> {
        if words.is_empty() {
            self.before = Vec::new(alloc);
            return Ok(());
        }
        self.before.push(String::from_str(alloc, words)?)?;
        Ok(())
    }

    /// Puts a file beside the other one, its path before a blank; or takes it away where there is no path.
    fn put_beside(&mut self, alloc: Global, words: &str) -> Result<(), AllocError> {
        let (path, text) = halves(words, ' ');
        self.other_path = word_of(alloc, path)?;
        self.other_text = bytes_of(alloc, text)?;
        Ok(())
    }

    /// Puts a text behind the file's so many times.
    fn repeat(&mut self, text: &[u8], times: u64) -> Result<(), AllocError> {
        for _ in 0..times {
            self.text.extend_from_slice(text)?;
        }
        Ok(())
    }

    /// Makes the file a chain of so many lines, each of which needs the one before.
    fn chain(&mut self, alloc: Global, lines: u64) -> Result<(), AllocError> {
        self.text = Vec::from_slice(alloc, b"x0 = 1\n")?;
        for (i, next) in (1..lines).enumerate() {
            self.text
                .extend_from_slice(format!(in alloc; "x{next} = x{i} + 1\n")?.as_bytes())?;
        }
        Ok(())
    }

    fn file(&self) -> Result<(Name, Bytes), AllocError> {
        let name = Name::of(self.path.clone()?);
        Ok((name, Bytes::of(self.text.clone()?)))
    }

    fn folder(&self, alloc: Global) -> Result<MemoryFolder, AllocError> {
        let failing = vec![in alloc; self.folder_fails]?;
        let mut files = vec![in alloc; self.file()?]?;
        if !self.other_path.is_empty() {
            let name = Name::of(self.other_path.clone()?);
            files.push((name, Bytes::of(self.other_text.clone()?)))?;
        }
        Ok(MemoryFolder::of(files, failing))
    }

    fn console(&self, alloc: Global) -> Result<MemoryConsole, AllocError> {
        let failing = vec![in alloc; self.console_fails]?;
        Ok(MemoryConsole::of(Bytes::of(Vec::new(alloc)), failing))
    }

    fn devices(
        &self,
        alloc: Global,
    ) -> Result<Devices<MemoryConsole, MemoryFolder, MemoryClockAndRandom>, AllocError> {
        Ok(Devices {
            console: self.console(alloc)?,
            folder: self.folder(alloc)?,
            moments: MemoryClockAndRandom::of(
                self.clock.clone()?,
                Vec::new(alloc),
                Vec::new(alloc),
            ),
        })
    }

    /// An empty store of trials.
    fn keeper(&self, alloc: Global) -> Result<MemoryKeeper, AllocError>
        ensures { IfOk result (λ keeper. keeper.held.is_open ≡ false) }
    {
        let failing = vec![in alloc; self.store_fails]?;
        let tables = Tables {
            heads: Vec::new(alloc),
            pages: Vec::new(alloc),
            contents: Vec::new(alloc),
            current: Vec::new(alloc),
        };
        Ok(MemoryKeeper::of(tables, failing))
    }

    /// Makes the calls of the program that come before.
    fn call_before(&self, alloc: Global, keeper: &mut MemoryKeeper) -> Result<(), AllocError>
        requires { keeper.old.held.is_open ≡ false }
        ensures { keeper.new.held.is_open ≡ false }
    {
        for words in &self.before {
            let list = words_of(alloc, words.as_str())?;
            let _ = now(alloc, &list, self.devices(alloc)?, keeper);
        }
        Ok(())
    }

    /// Makes a call of the program, its words with `|` between them. It writes the status, what stands on the console, whether the
    /// file is another one afterwards, what stands at `out.txt` and at `more.txt`, and the last trial of the store, if there is one.
    fn call(&mut self, alloc: Global, words: &str, out: &mut Vec<u8>) -> Result<(), AllocError> {
        let list = words_of(alloc, words)?;
        let mut keeper = self.keeper(alloc)?;
        self.call_before(alloc, &mut keeper)?;
        damage::spoil(alloc, &mut keeper, self.damage.as_str())?;
        if self.is_twice {
            let _ = now(alloc, &list, self.devices(alloc)?, &mut keeper);
        }
        let (status, devices) = now(alloc, &list, self.devices(alloc)?, &mut keeper);
        let file = devices.folder.bytes(self.path.as_str());
        self.write_call(alloc, status, devices.console.written(), file, out)?;
        write_file(alloc, "out.txt", &devices.folder, out)?;
        write_file(alloc, "more.txt", &devices.folder, out)?;
        write_trials(alloc, &mut keeper, out)
    }

    fn write_call(
        &self,
        alloc: Global,
        status: u8,
        written: &[u8],
        file: Option<&[u8]>,
        out: &mut Vec<u8>,
    ) -> Result<(), AllocError> {
        out.extend_from_slice(format!(in alloc; "{status} ")?.as_bytes())?;
        self.write_console(alloc, written, out)?;
        if file != Some(self.text.as_slice()) {
            out.extend_from_slice(b" and another file")?;
        }
        Ok(())
    }

    fn write_console(
        &self,
        alloc: Global,
        written: &[u8],
        out: &mut Vec<u8>,
    ) -> Result<(), AllocError> {
        if written == self.text.as_slice() {
            out.extend_from_slice(b"the file itself")
        } else {
            write_rows(alloc, out, written)
        }
    }
}

/// Writes what stands at a path, where something does.
fn write_file(
    alloc: Global,
    path: &str,
    folder: &MemoryFolder,
    out: &mut Vec<u8>,
) -> Result<(), AllocError> {
    if let Some(bytes) = folder.bytes(path) {
        out.extend_from_slice(format!(in alloc; ", {path} ")?.as_bytes())?;
        write_rows(alloc, out, bytes)?;
    }
    Ok(())
}

/// Times in nanoseconds, with blanks between them.
fn times_of(alloc: Global, words: &str) -> Result<Vec<i64>, AllocError> {
    let mut times = Vec::new(alloc);
    for word in words.split_whitespace() {
        times.push(word.parse::<i64>().unwrap_or(0))?;
    }
    Ok(times)
}

/// The words of a call, with `|` between them.
fn words_of(alloc: Global, words: &str) -> Result<Vec<String>, AllocError> {
    let mut list = Vec::new(alloc);
    if !words.is_empty() {
        for word in words.split('|') {
            list.push(word_of(alloc, word)?)?;
        }
    }
    Ok(list)
}

/// A word that a readable text stands for, or an empty one where its bytes are no text.
fn word_of(alloc: Global, word: &str) -> Result<String, AllocError> {
    Ok(String::from_utf8(bytes_of(alloc, word)?).unwrap_or(String::new(alloc)))
}

fn answer_device(
    rt: &HostRuntime,
    command: &str,
    words: &str,
    out: &mut Vec<u8>,
) -> Result<(), AllocError> {
    let alloc = rt.alloc();
    match command {
        "decimal" => base::digits(alloc, words, out),
        "bytes" => base::kept_bytes(alloc, words, out),
        "names" => base::kept_names(alloc, words, out),
        "order" => out.extend_from_slice(base::order(words).as_bytes()),
        "console" => devices::console(alloc, words, out),
        "folder" => devices::folder(alloc, words, out),
        "size" => devices::size(alloc, words, out),
        "lines" => streams::lines(alloc, words, out),
        "longest" => streams::longest(alloc, words, out),
        "largest" => streams::largest(alloc, words, out),
        "whole" => streams::whole(alloc, words, out),
        "sinks" => streams::sinks(alloc, words, out),
        "real" => streams::folder(rt, words, out),
        _ => out.extend_from_slice(b"no such command"),
    }
}

/// Writes of the last trial of a store, where it has one, its number, its status, its parent, and when it began and ended.
fn write_trials(
    alloc: Global,
    keeper: &mut MemoryKeeper,
    out: &mut Vec<u8>,
) -> Result<(), AllocError> {
    let last = keeper.trials(alloc).unwrap_or(0);
    match keeper.head(alloc, last) {
        Ok(Some(head)) => write_head(alloc, last, &head, out),
        _ => Ok(()),
    }
}

fn write_head(
    alloc: Global,
    number: u32,
    head: &Head,
    out: &mut Vec<u8>,
) -> Result<(), AllocError> {
    let (status, parent) = (head.status, head.parent);
    out.extend_from_slice(format!(in alloc; ", trial {number} {status} {parent}")?.as_bytes())?;
    write_time(alloc, head.started, out)?;
    write_time(alloc, head.ended, out)
}

/// Writes a blank and a time, or `-` where there is none.
fn write_time(alloc: Global, time: Option<i64>, out: &mut Vec<u8>) -> Result<(), AllocError> {
    match time {
        Some(time) => out.extend_from_slice(format!(in alloc; " {time}")?.as_bytes()),
        None => out.extend_from_slice(b" -"),
    }
}
