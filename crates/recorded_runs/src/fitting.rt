// What is recorded fits the types in which it is held. Nothing is done here: each call tells a proof so.
ghost use Rattle.std.specs.Prelude.{◌<◌, ◌^◌};
ghost use Rattle.trial_keeping.specs.RecordFits.{IsInRange};
ghost use Rattle.recorded_runs.specs.Typed.{IsText, EachOf, IsSized, IsFetched, IsLeft, AreTexts, FitsTypes};

use capture::{Asked, Ended, FileOut, Given};
use prov_base::{Name, Pos};
use prov_outside::Found;

// A text has fewer bytes than 64 bits count, and is UTF-8.
fn text_fits(s: &str)
    ensures { IsText s.now }
{
    let _ = s.as_bytes().len();
}

// The line and the column of a place have 32 bits.
fn place_fits(at: Pos)
    ensures { (at.line < 2 ^ 32) × (at.col < 2 ^ 32) }
{
    let _ = at;
}

// What was given is in range.
fn given_fits(given: &Given)
    ensures { IsInRange given.now }
{
    match given {
        Given::Number(time) => {
            let _time = *time;
        }
        Given::Word(word) => {
            let _word = *word;
        }
        Given::Line(line) => {
            let _ = line.as_slice().len();
        }
        Given::End => {}
        Given::Failed => {}
    }
}

// The numbers of an answer are in range.
fn answer_fits(asked: &Asked)
    ensures { IsSized asked.now }
{
    let _k = asked.k;
    place_fits(asked.at);
    given_fits(&asked.given);
}

// So are those of all answers.
fn answers_fit(answers: &[Asked])
    ensures { EachOf IsSized answers.now }
{
    let _ = answers.len();
    for asked in answers.iter() {
        answer_fits(asked);
    }
}

// The paths of files that were found are texts.
fn files_fit(files: &[(Name, Found)])
    ensures { EachOf IsFetched files.now }
{
    let _ = files.len();
    for file in files.iter() {
        text_fits(file.0.as_str());
    }
}

// The paths of files that a run left are texts.
fn finals_fit(files: &[FileOut])
    ensures { EachOf IsLeft files.now }
{
    let _ = files.len();
    for file in files.iter() {
        text_fits(file.path.as_str());
    }
}

// Arguments are texts.
fn arguments_fit(arguments: &[Name])
    ensures { EachOf IsText arguments.now }
{
    let _ = arguments.len();
    for argument in arguments.iter() {
        text_fits(argument.as_str());
    }
}

/// The path and the arguments of a run are texts.
pub(crate) fn words_fit(path: &str, arguments: &[Name])
    ensures { AreTexts path.now arguments.now }
{
    text_fits(path);
    arguments_fit(arguments);
}

/// A run that is over fits the types in which it is held.
pub(crate) fn run_fits(ended: &Ended)
    ensures { FitsTypes ended.now }
{
    answers_fit(ended.capture.answers());
    files_fit(ended.capture.files());
    finals_fit(ended.finals.as_slice());
}
