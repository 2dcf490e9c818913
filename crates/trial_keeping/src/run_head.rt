// The head of a run's trial.
ghost use Rattle.std.specs.Prelude.{◌≡◌, IfOk};
ghost use Rattle.trial_keeping.specs.Trial.{status_of};
ghost use Rattle.content_store.specs.Contents.{digest_of as sha1_digest_of};

use crate::contents::Records;
use crate::records::{copied_name, digest_of};
use capture::{Ended, RunEnd};
use keeper::Head;
use prov_base::{Digest, Memory, Name};
use std::alloc::Global;

/// The format of a trial's records and pages.
const FORMAT: u8 = 1;

/// The language of the script.
const LANGUAGE: u8 = 1;

/// The status by how the run ended.
fn status_by(end: &RunEnd) -> u8
    ensures { result ≡ status_of end.now }
{
    match end {
        RunEnd::Finished => 0,
        RunEnd::Raised { .. } => 1,
        RunEnd::Spent => 9,
    }
}

/// What a head says of a run besides its digests and how it ended.
#[derive(Drop)]
pub(crate) struct Given<'r> {
    /// The script's text.
    pub(crate) text: &'r [u8],
    /// Its path.
    pub(crate) path: &'r str,
    /// The steps that the run might take.
    pub(crate) budget: u32,
    /// How many pages its rows have.
    pub(crate) pages: u32,
    /// When it began and ended, where the clock told that.
    pub(crate) times: (Option<i64>, Option<i64>),
    /// The trial that was current before, or 0.
    pub(crate) parent: u32,
}

/// The head of a run's trial.
pub(crate) fn head_of(
    alloc: Global,
    given: &Given<'_>,
    records: &Records,
    ended: &Ended,
) -> Result<Head, Memory>
    ensures { IfOk result (λ head. head ≡ record {
      format = 1;
      language = 1;
      path = given.now.path.now;
      script = sha1_digest_of given.now.text.now;
      arguments = sha1_digest_of records.now.arguments;
      capture = sha1_digest_of records.now.capture;
      output = sha1_digest_of ended.now.output;
      finals = sha1_digest_of records.now.finals;
      budget = given.now.budget;
      steps = ended.now.steps;
      status = status_of ended.now.end;
      pages = given.now.pages;
      started = given.now.times.0;
      ended = given.now.times.1;
      parent = given.now.parent;
    }) }
{
    Ok(Head {
        format: FORMAT,
        language: LANGUAGE,
        path: copied_name(alloc, given.path)?,
        script: digest_of(given.text),
        arguments: digest_of(records.arguments.as_slice()),
        capture: digest_of(records.capture.as_slice()),
        output: digest_of(ended.output.as_slice()),
        finals: digest_of(records.finals.as_slice()),
        budget: given.budget,
        steps: ended.steps,
        status: status_by(&ended.end),
        pages: given.pages,
        started: given.times.0,
        ended: given.times.1,
        parent: given.parent,
    })
}
