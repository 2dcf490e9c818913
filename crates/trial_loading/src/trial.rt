// A kept trial, loaded.
ghost use Rattle.trial_loading.specs.Stages.{IsMadeOf};

use crate::behind::Behind;
use capture::{Capture, FileOut};
use keeper::Head;
use prov_base::{Bytes, Names};
use py_tree::{Script, drop_script};
use trace_rows::Rows;

/// A kept trial, loaded: all that was kept of a run.
#[derive(Drop)]
pub struct Trial {
    /// Its number, from 1.
    pub number: u32,
    /// Its head.
    pub head: Head,
    /// The script's text.
    pub text: Bytes,
    /// The script that the text is.
    pub script: Script,
    /// The script's arguments.
    pub arguments: Names,
    /// What the devices gave: the answers in ascending order of place and number, and what was found at each path. No path is noted as written.
    pub capture: Capture,
    /// What the run printed.
    pub output: Bytes,
    /// The files that the run left, in order of first opening for writing.
    pub finals: Vec<FileOut>,
    /// The rows of all pages, in order.
    pub rows: Rows,
    /// How many of them each page has.
    pub cuts: Vec<u32>,
}

/// Lets a trial go. Crates above call this, so the drop of the whole trial is proved here alone.
pub fn drop_trial(trial: Trial) {
    let Trial { script, .. } = trial;
    drop_script(script);
}

/// The parts of a trial, as one.
pub(crate) fn trial_of(
    number: u32,
    head: Head,
    text: Bytes,
    script: Script,
    behind: Behind,
) -> Trial
    ensures { IsMadeOf number head text script behind result }
{
    Trial {
        number,
        head,
        text,
        script,
        arguments: behind.rest.arguments,
        capture: behind.rest.capture,
        output: behind.rest.output,
        finals: behind.rest.finals,
        rows: behind.paged.rows,
        cuts: behind.paged.cuts,
    }
}
