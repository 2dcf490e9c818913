// A console in memory: the input is there from the start, and what was written can be read back.
ghost use Rattle.std.specs.Prelude.{position, ◌==◌, ◌≡◌, ◌↔◌, ◌+◌, ◌≤◌, ◌<◌, Some, [], ◌∷◌, length, take, drop, IfOk, IfSome, IsErrOf, OnErr};
ghost use Rattle.prov_outside.specs.Console.{IsLine, ReadsLine, Writes};
ghost use Rattle.prov_outside.specs.Count.{Counts};
ghost use Rattle.prov_outside.specs.MemoryConsole.{console_view, lines_of};
ghost use Rattle.prov_outside.specs.Numbering.{NextFails, after_call};

use crate::calls::Calls;
use crate::{Console, Trouble};
use prov_base::Bytes;
use std::alloc::Global;
use std::marker::Model;

const LF: u8 = b'\n';

/// A console in memory, which tells all that it holds. It numbers its calls from 1 in one order, whatever their kind;
/// a call fails, and raises its own count by one, exactly where its number is in a list that was given.
#[derive(Drop, Debug)]
pub struct MemoryConsole {
    input: Bytes,
    read: usize,
    output: Vec<u8>,
    calls: Calls,
    in_faults: u64,
    out_faults: u64,
}

impl Model for MemoryConsole {
    ghost use Rattle.std.specs.Prelude.{◌≤◌, length, drop};
    ghost use Rattle.prov_outside.specs.MemoryConsole.{MemoryConsoleView, lines_of};

    ghost Value = { MemoryConsoleView };

    ghost view = { λ c. record {
      lines = lines_of (drop c.read c.input);
      written = c.output.items;
      calls = c.calls;
      in_faults = c.in_faults;
      out_faults = c.out_faults;
    } };

    ghost invariant = { λ c. c.read ≤ length c.input };
}

impl MemoryConsole {
    /// A console with this input, at which the calls with the listed numbers fail. The input is cut into lines at LF;
    /// what stands behind the last LF is a last line where it is not empty.
    pub fn of(input: Bytes, failing: Vec<u64>) -> MemoryConsole
        ensures lines { result.lines ≡ lines_of input }
        ensures written { result.written ≡ [] }
        ensures calls { result.calls ≡ record { failing = failing.items; made = 0 } }
        ensures in_faults { result.in_faults ≡ 0 }
        ensures out_faults { result.out_faults ≡ 0 }
    {
        let alloc = *failing.allocator();
        MemoryConsole {
            input,
            read: 0,
            output: Vec::new(alloc),
            calls: Calls::of(failing),
            in_faults: 0,
            out_faults: 0,
        }
    }

    /// All the bytes that were written, in their order.
    pub fn written(&self) -> &[u8]
        ensures { result.now ≡ self.now.written }
    {
        self.output.as_slice()
    }
}

// Where the first LF is.
fn first_lf(bytes: &[u8]) -> Option<usize>
    ensures { result ≡ position (λ byte. byte == 10) bytes.now }
{
    bytes.iter().position(|byte| *byte == LF)
}

// How long the first line is, without its LF.
fn first_line_len(bytes: &[u8]) -> usize
    requires { 0 < length bytes.now }
    ensures within { result ≤ length bytes.now }
    ensures first { lines_of bytes.now ≡ take result bytes.now ∷ lines_of (drop (result + 1) bytes.now) }
    ensures no_lf { IsLine (take result bytes.now) }
{
    first_lf(bytes).unwrap_or(bytes.len())
}

impl Console for MemoryConsole {
    ghost told = { λ c. Some (console_view c) };

    ghost in_faults = { λ c. c.in_faults };

    ghost out_faults = { λ c. c.out_faults };

    /// The next line. After an `Err`, of memory too, the lines are as before.
    fn read_line(&mut self, alloc: Global) -> Result<Option<Bytes>, Trouble>
        ensures line { ReadsLine result (console_view self.old) (console_view self.new) }
        ensures cause { Counts self.old.in_faults self.new.in_faults result }
        ensures others { self.new.out_faults ≡ self.old.out_faults }
        ensures no_lf { IfOk result (λ line. IfSome line IsLine) }
        ensures fails { IsErrOf result Trouble.Failed ↔ NextFails self.old.calls }
        ensures numbered { self.new.calls ≡ after_call self.old.calls }
    {
        if self.calls.next_fails() {
            self.in_faults = self.in_faults.saturating_add(1);
            return Err(Trouble::Failed);
        }
        let rest = &self.input.as_slice()[self.read..];
        if rest.is_empty() {
            return Ok(None);
        }
        let len = first_line_len(rest);
        let line = Vec::from_slice(alloc, &rest[..len])?;
        let step = rest.len().min(len + 1);
        self.read += step;
        Ok(Some(Bytes::of(line)))
    }

    /// Writes all the bytes, or after an `Err`, of memory too, none of them.
    fn write(&mut self, _alloc: Global, bytes: &[u8]) -> Result<(), Trouble>
        ensures written { Writes bytes.now result (console_view self.old) (console_view self.new) }
        ensures cause { Counts self.old.out_faults self.new.out_faults result }
        ensures others { self.new.in_faults ≡ self.old.in_faults }
        ensures fails { IsErrOf result Trouble.Failed ↔ NextFails self.old.calls }
        ensures numbered { self.new.calls ≡ after_call self.old.calls }
        ensures nothing { OnErr result (self.new.written ≡ self.old.written) }
    {
        if self.calls.next_fails() {
            self.out_faults = self.out_faults.saturating_add(1);
            return Err(Trouble::Failed);
        }
        self.output.extend_from_slice(bytes)?;
        Ok(())
    }
}
