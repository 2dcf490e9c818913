// What the words behind `run` have said so far.
ghost use Rattle.std.specs.Prelude.{◌≡◌, Some, None, IfOk, option_map, if◌then◌else◌, take, drop, codes};
ghost use Rattle.std.specs.Str.{bytes_eq};
ghost use Rattle.now_words.specs.Command.{is_option as is_option_word, nothing_read, run_of, with_positional, with_steps, with_free_word, with_word};
ghost use Rattle.now_words.specs.Parsed.{command_of_code, reading_of};

use crate::command::Command;
use crate::number::number;
use prov_base::{Memory, Name};
use std::alloc::Global;

/// The words so far: the options, whether `--steps` waits for its value, whether the first `--` stood there, and the
/// positionals.
#[derive(Drop)]
pub(crate) struct Reading<'w> {
    bare: bool,
    steps: Option<u32>,
    waits: bool,
    ended: bool,
    file: Option<&'w str>,
    arguments: Vec<Name>,
}

/// Whether the word begins with `-` and is not `-` alone.
pub(crate) fn is_option(word: &[u8]) -> bool
    ensures { result ≡ is_option_word word.now }
{
    match word {
        [] => false,
        [first, rest @ ..] => *first == b'-' && !rest.is_empty(),
    }
}

// The word behind `--steps=`.
fn steps_value(word: &[u8]) -> Option<&[u8]>
    ensures { option_map (λ value. value.now) result ≡ (if bytes_eq (take 8 word.now) (codes "--steps=") then Some (drop 8 word.now) else None) }
{
    if word.len() < 8 || &word[..8] != b"--steps=".as_slice() {
        return None;
    }
    Some(&word[8..])
}

impl<'w> Reading<'w> {
    /// Before the first word.
    pub(crate) fn new(alloc: Global) -> Reading<'w>
        ensures { reading_of result ≡ nothing_read }
    {
        Reading {
            bare: false,
            steps: None,
            waits: false,
            ended: false,
            file: None,
            arguments: Vec::new(alloc),
        }
    }

    // A positional: the file, or an argument behind it.
    fn take_positional(&mut self, alloc: Global, word: &'w str) -> Result<(), Memory>
        ensures { IfOk result (λ _. reading_of self.new ≡ with_positional (reading_of self.old) word.now) }
    {
        if self.file.is_none() {
            self.file = Some(word);
            return Ok(());
        }
        let name = Name::of(String::from_str(alloc, word)?);
        self.arguments.push(name)?;
        Ok(())
    }

    // The value of `--steps`. `false` where it is none, or steps were said before.
    fn take_steps(&mut self, word: &[u8]) -> bool
        ensures { (if result then Some (reading_of self.new) else None) ≡ with_steps (reading_of self.old) word.now }
    {
        if self.steps.is_some() {
            return false;
        }
        self.steps = number(word, 1000000);
        self.waits = false;
        self.steps.is_some()
    }

    // A word that is not the value of `--steps` and has no `--` before it. `false` where it may not stand there.
    fn take_free_word(&mut self, alloc: Global, word: &'w str) -> Result<bool, Memory>
        ensures { IfOk result (λ taken. (if taken then Some (reading_of self.new) else None) ≡ with_free_word (reading_of self.old) word.now) }
    {
        if word == "--" {
            self.ended = true;
            return Ok(true);
        }
        if word == "--bare" {
            let taken = !self.bare;
            self.bare = true;
            return Ok(taken);
        }
        if word == "--steps" {
            self.waits = true;
            return Ok(self.steps.is_none());
        }
        if let Some(value) = steps_value(word.as_bytes()) {
            return Ok(self.take_steps(value));
        }
        if is_option(word.as_bytes()) {
            return Ok(false);
        }
        self.take_positional(alloc, word)?;
        Ok(true)
    }

    /// One word more. `false` where it may not stand there.
    pub(crate) fn take_word(&mut self, alloc: Global, word: &'w str) -> Result<bool, Memory>
        ensures { IfOk result (λ taken. (if taken then Some (reading_of self.new) else None) ≡ with_word (reading_of self.old) word.now) }
    {
        if self.ended {
            self.take_positional(alloc, word)?;
            return Ok(true);
        }
        if self.waits {
            return Ok(self.take_steps(word.as_bytes()));
        }
        self.take_free_word(alloc, word)
    }

    /// The command, where these are all the words behind `run`.
    pub(crate) fn command(self) -> Option<Command<'w>>
        ensures { option_map command_of_code result ≡ run_of (reading_of self.entry) }
    {
        if self.waits {
            return None;
        }
        let file = self.file?;
        let steps = self.steps.unwrap_or(1000000);
        let arguments = self.arguments;
        if self.bare {
            return Some(Command::RunBare {
                file,
                steps,
                arguments,
            });
        }
        Some(Command::RunKept {
            file,
            steps,
            arguments,
        })
    }
}
