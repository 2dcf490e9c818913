// Rows of an input, cut at those that begin anew.
ghost use Rattle.std.specs.Prelude.{[]};

use crate::devices::{RowDevices, arguments_of, devices_of};
use answer_source::{Live, Source};
use capture::Capture;
use prov_base::{Bytes, Name};
use prov_outside::{Console, Trouble};
use std::alloc::Global;

/// What answers the rows behind one that begins anew.
pub trait Runner<C: Console> {
    /// Answers rows with the arguments of a script and a source of which nothing was asked, up to the row that begins anew, which it gives back; none at
    /// the end of the input.
    fn run<S: Source + Drop>(
        &self,
        alloc: Global,
        console: &mut C,
        arguments: &[Name],
        source: S,
    ) -> Result<Option<Bytes>, Trouble>
        requires { S.stands source [] [] };
}

/// Answers rows with devices.
fn over_devices<C: Console, R: Runner<C>>(
    alloc: Global,
    console: &mut C,
    runner: &R,
    arguments: &[Name],
    devices: RowDevices,
) -> Result<Option<Bytes>, Trouble> {
    match Capture::new(alloc) {
        Ok(capture) => runner.run(alloc, console, arguments, Live::new(capture, devices)),
        Err(_) => Err(Trouble::Memory),
    }
}

/// Answers the rows behind one that begins anew.
fn sit<C: Console, R: Runner<C>>(
    alloc: Global,
    console: &mut C,
    runner: &R,
    row: &[u8],
) -> Result<Option<Bytes>, Trouble> {
    let words = str::from_utf8(row).unwrap_or("");
    let names = arguments_of(alloc, words)?;
    let devices = devices_of(alloc, words)?;
    over_devices(alloc, console, runner, &names, devices)
}

/// Answers every row of the input.
pub fn answer_all<C: Console, R: Runner<C>>(
    alloc: Global,
    console: &mut C,
    runner: &R,
) -> Result<(), Trouble> {
    let mut row = sit(alloc, console, runner, b"")?;
    for _ in 0..u64::MAX {
        let Some(begin) = row else {
            return Ok(());
        };
        row = sit(alloc, console, runner, begin.as_slice())?;
    }
    Ok(())
}
