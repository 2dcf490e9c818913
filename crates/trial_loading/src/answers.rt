// The answers of a kept trial, put into a capture.
ghost use Rattle.std.specs.Prelude.{◌≡◌, [], OnOk};
ghost use Rattle.capture.specs.Answers.{AreInOrder};
ghost use Rattle.row_words.specs.Fits.{Each};
ghost use Rattle.trial_keeping.specs.RecordFits.{IsAnswer};

use capture::{Asked, Capture};
use prov_base::Memory;
use std::alloc::Global;

/// Keeps a copy of each answer, in their order. After an `Err` the capture may hold the first of them.
pub(crate) fn keep_answers(
    alloc: Global,
    capture: &mut Capture,
    answers: &[Asked],
) -> Result<(), Memory>
    requires none { capture.old.answers ≡ [] }
    requires each { Each IsAnswer answers.now }
    requires order { AreInOrder answers.now }
    ensures kept { OnOk result (capture.new.answers ≡ answers.now) }
    ensures others { capture.new ≡ record capture.old { answers = capture.new.answers } }
{
    for asked in answers {
        capture.keep(alloc, asked.at, asked.k, asked.what, &asked.given)?;
    }
    Ok(())
}
