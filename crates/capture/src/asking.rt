// One asking of a device: what it gives, as it is kept.
ghost use Rattle.std.specs.Prelude.{◌≡◌, IfOk, OnErr};
ghost use Rattle.prov_outside.specs.Count.{faults_after};
ghost use Rattle.prov_outside.specs.Folder.{Gets, IsAnswer};
ghost use Rattle.prov_outside.specs.Tells.{Tells};
ghost use Rattle.capture.specs.Answers.{Fits};
ghost use Rattle.capture.specs.Asking.{ForAsk, AsksTime, AsksWord, AsksLine, as_answer, as_fetch, IsLineGiven, IsOneLine};

use crate::answer::{Ask, Given};
use prov_base::{Bytes, Memory};
use prov_outside::{ClockAndRandom, Console, Folder, Found, Trouble};
use std::alloc::Global;

/// Asks the device that the question is for, and leaves the other.
pub(crate) fn ask<C: Console, M: ClockAndRandom>(
    alloc: Global,
    what: Ask,
    console: &mut C,
    moments: &mut M,
) -> Result<Given, Memory>
    ensures fits { IfOk result (Fits what) }
    ensures no_lf { IfOk result IsOneLine }
    ensures told { ForAsk what (Tells (M.told moments.old) (M.told moments.new) (AsksTime result))
        (Tells (M.told moments.old) (M.told moments.new) (AsksWord result))
        (Tells (C.told console.old) (C.told console.new) (AsksLine result)) }
    ensures cause { ForAsk what (M.time_faults moments.new ≡ faults_after (as_answer result) (M.time_faults moments.old))
        (M.word_faults moments.new ≡ faults_after (as_answer result) (M.word_faults moments.old))
        (C.in_faults console.new ≡ faults_after (as_answer result) (C.in_faults console.old)) }
    ensures other_count { ForAsk what (M.word_faults moments.new ≡ M.word_faults moments.old)
        (M.time_faults moments.new ≡ M.time_faults moments.old) (C.out_faults console.new ≡ C.out_faults console.old) }
    ensures other_device { ForAsk what (console.new ≡ console.old) (console.new ≡ console.old) (moments.new ≡ moments.old) }
{
    match what {
        Ask::Time => match moments.now_ns() {
            Ok(time) => Ok(Given::Number(time)),
            Err(_) => Ok(Given::Failed),
        },
        Ask::Word => match moments.word() {
            Ok(word) => Ok(Given::Word(word)),
            Err(_) => Ok(Given::Failed),
        },
        Ask::Line => match console.read_line(alloc) {
            Ok(Some(line)) => Ok(Given::Line(line)),
            Ok(None) => Ok(Given::End),
            Err(Trouble::Failed) => Ok(Given::Failed),
            Err(Trouble::Memory) => Err(Memory),
        },
    }
}

/// What the folder gives at a path. A fault is found as `Failed`.
pub(crate) fn fetch<F: Folder>(alloc: Global, path: &str, folder: &mut F) -> Result<Found, Memory>
    ensures answer { IfOk (as_fetch result) IsAnswer }
    ensures told { Tells (F.told folder.old) (F.told folder.new) (Gets path.now (as_fetch result)) }
    ensures cause { F.get_faults folder.new ≡ faults_after (as_fetch result) (F.get_faults folder.old) }
    ensures source_faults { F.source_faults folder.new ≡ F.source_faults folder.old }
    ensures put_faults { F.put_faults folder.new ≡ F.put_faults folder.old }
{
    match folder.get(alloc, path) {
        Ok(found) => Ok(found),
        Err(Trouble::Failed) => Ok(Found::Failed),
        Err(Trouble::Memory) => Err(Memory),
    }
}

fn copy_of(alloc: Global, bytes: &Bytes) -> Result<Bytes, Memory>
    ensures { IfOk result (λ copy. copy ≡ bytes.now) }
{
    Ok(Bytes::of(Vec::from_slice(alloc, bytes.as_slice())?))
}

/// A copy of what was given. It takes memory for a line alone.
pub(crate) fn copy_of_given(alloc: Global, given: &Given) -> Result<Given, Memory>
    ensures copy { IfOk result (λ copy. copy ≡ given.now) }
    ensures err { OnErr result (IsLineGiven given.now) }
{
    match given {
        Given::Number(time) => Ok(Given::Number(*time)),
        Given::Word(word) => Ok(Given::Word(*word)),
        Given::Line(line) => {
            let copy = copy_of(alloc, line)?;
            Ok(Given::Line(copy))
        }
        Given::End => Ok(Given::End),
        Given::Failed => Ok(Given::Failed),
    }
}

/// A copy of what was found.
pub(crate) fn copy_of_found(alloc: Global, found: &Found) -> Result<Found, Memory>
    ensures { IfOk result (λ copy. copy ≡ found.now) }
{
    match found {
        Found::Bytes(bytes) => {
            let copy = copy_of(alloc, bytes)?;
            Ok(Found::Bytes(copy))
        }
        Found::Absent => Ok(Found::Absent),
        Found::TooLarge => Ok(Found::TooLarge),
        Found::Failed => Ok(Found::Failed),
    }
}
