// A script with its devices in memory, and its run.
use crate::outcome::{write_ended, write_line, write_shown};
use crate::words::{add_bytes, bytes_of, halves};
use answer_source::Devices;
use capture::Ended;
use prov_base::{Bytes, Memory, Name};
use prov_outside::{MemoryClockAndRandom, MemoryConsole, MemoryFolder};
use py_parser::{Refusal, read_script};
use py_tree::{Script, drop_script};
use run_engine::run_bare;
use std::alloc::{AllocError, Global};
use std::mem;

/// The bytes of a file that is too large.
const TOO_MANY_BYTES: usize = 16_777_217;

/// A script, how it is run, and what the devices hold.
#[derive(Drop)]
pub struct Case {
    name: String,
    path: String,
    steps: u32,
    arguments: Vec<Name>,
    script: Vec<u8>,
    input: Vec<u8>,
    times: Vec<i64>,
    words: Vec<u64>,
    files: Vec<(Name, Bytes)>,
    console_refuses: Vec<u64>,
    moments_refuse: Vec<u64>,
    folder_refuses: Vec<u64>,
}

fn name_of(alloc: Global, word: &str) -> Result<Name, AllocError> {
    Ok(Name::of(String::from_str(alloc, word)?))
}

fn large(alloc: Global) -> Result<Vec<u8>, AllocError> {
    Ok(vec![in alloc; 0; TOO_MANY_BYTES]?)
}

impl Case {
    /// A case of an empty script and of devices that hold nothing.
    pub fn new(alloc: Global, name: &str) -> Result<Case, AllocError> {
        Ok(Case {
            name: String::from_str(alloc, name)?,
            path: String::from_str(alloc, "s.py")?,
            steps: 1_000_000,
            arguments: Vec::new(alloc),
            script: Vec::new(alloc),
            input: Vec::new(alloc),
            times: Vec::new(alloc),
            words: Vec::new(alloc),
            files: Vec::new(alloc),
            console_refuses: Vec::new(alloc),
            moments_refuse: Vec::new(alloc),
            folder_refuses: Vec::new(alloc),
        })
    }

    /// Does the command of a row, and writes what it answers.
    pub fn answer(
        &mut self,
        alloc: Global,
        row: &[u8],
        out: &mut Vec<u8>,
    ) -> Result<(), AllocError> {
        let Ok(row) = str::from_utf8(row) else {
            return Ok(());
        };
        if let Some(line) = row.strip_prefix("|") {
            self.script.extend_from_slice(line.as_bytes())?;
            return Ok(self.script.push(b'\n')?);
        }
        let (command, words) = halves(row, ' ');
        match command {
            "case" => {
                *self = Case::new(alloc, words)?;
                Ok(())
            }
            "run" => self.run(alloc, true, out),
            "show" => self.run(alloc, false, out),
            "refuse" => self.refuse(words),
            "file" => self.file(alloc, words),
            _ => self.set(alloc, command, words),
        }
    }

    /// Sets how the script is run, or what a device gives.
    fn set(&mut self, alloc: Global, command: &str, words: &str) -> Result<(), AllocError> {
        match command {
            "path" => {
                self.path = String::from_str(alloc, words)?;
                Ok(())
            }
            "steps" => {
                self.steps = words.parse::<u32>().unwrap_or(0);
                Ok(())
            }
            "argument" => Ok(self.arguments.push(name_of(alloc, words)?)?),
            "input" => {
                add_bytes(words, &mut self.input)?;
                Ok(self.input.push(b'\n')?)
            }
            "time" => Ok(self.times.push(words.parse::<i64>().unwrap_or(0))?),
            "word" => Ok(self.words.push(words.parse::<u64>().unwrap_or(0))?),
            "large" => {
                let bytes = Bytes::of(large(alloc)?);
                Ok(self.files.push((name_of(alloc, words)?, bytes))?)
            }
            _ => Ok(()),
        }
    }

    /// Notes the number of a call that fails.
    fn refuse(&mut self, words: &str) -> Result<(), AllocError> {
        let (device, number) = halves(words, ' ');
        let number = number.parse::<u64>().unwrap_or(0);
        match device {
            "console" => Ok(self.console_refuses.push(number)?),
            "moments" => Ok(self.moments_refuse.push(number)?),
            _ => Ok(self.folder_refuses.push(number)?),
        }
    }

    /// Puts a file into the folder.
    fn file(&mut self, alloc: Global, words: &str) -> Result<(), AllocError> {
        let (path, digits) = halves(words, ' ');
        let bytes = Bytes::of(bytes_of(alloc, digits)?);
        Ok(self.files.push((name_of(alloc, path)?, bytes))?)
    }

    /// The console of the case.
    fn console(&self, alloc: Global) -> Result<MemoryConsole, AllocError> {
        let refused = Vec::from_slice(alloc, &self.console_refuses)?;
        let input = Vec::from_slice(alloc, &self.input)?;
        Ok(MemoryConsole::of(Bytes::of(input), refused))
    }

    /// The folder of the case, which holds no files afterwards.
    fn folder(&mut self, alloc: Global) -> Result<MemoryFolder, AllocError> {
        let refused = Vec::from_slice(alloc, &self.folder_refuses)?;
        let files = mem::replace(&mut self.files, Vec::new(alloc));
        Ok(MemoryFolder::of(files, refused))
    }

    /// What gives the times and words of the case.
    fn moments(&self, alloc: Global) -> Result<MemoryClockAndRandom, AllocError> {
        let refused = Vec::from_slice(alloc, &self.moments_refuse)?;
        let words = Vec::from_slice(alloc, &self.words)?;
        let times = Vec::from_slice(alloc, &self.times)?;
        Ok(MemoryClockAndRandom::of(times, words, refused))
    }

    /// The devices of the case, which holds no files afterwards.
    fn devices(
        &mut self,
        alloc: Global,
    ) -> Result<Devices<MemoryConsole, MemoryFolder, MemoryClockAndRandom>, AllocError> {
        let console = self.console(alloc)?;
        let moments = self.moments(alloc)?;
        let folder = self.folder(alloc)?;
        Ok(Devices {
            console,
            folder,
            moments,
        })
    }

    /// How the run of a script comes out.
    fn ran(&mut self, alloc: Global, script: &Script) -> Result<Result<Ended, Memory>, AllocError> {
        let devices = self.devices(alloc)?;
        let (path, steps) = (self.path.as_str(), self.steps);
        let (ran, _) = run_bare(alloc, script, path, &self.arguments, steps, devices);
        Ok(ran)
    }

    /// Runs a script, which is let go, and writes how that came out.
    fn run_script(
        &mut self,
        alloc: Global,
        script: Script,
        whole: bool,
        out: &mut Vec<u8>,
    ) -> Result<(), AllocError> {
        let ran = self.ran(alloc, &script);
        drop_script(script);
        write_ran(alloc, ran?, whole, out)
    }

    /// Reads the script and runs it, and writes how that came out: all of it, or what a script shows.
    fn run(&mut self, alloc: Global, whole: bool, out: &mut Vec<u8>) -> Result<(), AllocError> {
        out.extend_from_slice(b"== ")?;
        write_line(self.name.as_str(), out)?;
        match read_script(alloc, &self.script) {
            Ok(script) => self.run_script(alloc, script, whole, out),
            Err(refusal) => write_refusal(alloc, refusal, out),
        }
    }
}

/// Writes why a script was not read.
fn write_refusal(alloc: Global, refusal: Refusal, out: &mut Vec<u8>) -> Result<(), AllocError> {
    match refusal {
        Refusal::At(at) => {
            let (line, col) = (at.line, at.col);
            write_line(format!(in alloc; "refused at {line}:{col}")?.as_str(), out)
        }
        Refusal::Memory => write_line("out of memory in reading", out),
    }
}

/// Writes the end of a run: all of it, or what a script shows.
fn write_over(
    alloc: Global,
    over: &Ended,
    whole: bool,
    out: &mut Vec<u8>,
) -> Result<(), AllocError> {
    if whole {
        write_ended(alloc, over, out)
    } else {
        write_shown(alloc, over, out)
    }
}

/// Writes how a run came out.
fn write_ran(
    alloc: Global,
    ran: Result<Ended, Memory>,
    whole: bool,
    out: &mut Vec<u8>,
) -> Result<(), AllocError> {
    match ran {
        Ok(over) => write_over(alloc, &over, whole, out),
        Err(Memory) => write_line("out of memory", out),
    }
}
