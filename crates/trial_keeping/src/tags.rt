// The first byte of what was given and of what was found, which tells its form.
ghost use Rattle.std.specs.Prelude.{◌≡◌};
ghost use Rattle.trial_keeping.specs.RecordReading.{ask_tag as ask_tag_of, given_tag as given_tag_of, found_tag as found_tag_of};

use capture::Ask;

/// The form of what was given.
#[derive(Clone, Copy)]
pub(crate) enum GivenTag {
    /// A time.
    Number,
    /// Random bits.
    Word,
    /// A line.
    Line,
    /// No line was left.
    End,
    /// The device failed.
    Failed,
}

/// The form of what was found.
#[derive(Clone, Copy)]
pub(crate) enum FoundTag {
    /// A file.
    Content,
    /// No file.
    Absent,
    /// A file that is too large.
    TooLarge,
    /// A refused call.
    Failed,
}

pub(crate) fn ask_tag(b: u8) -> Option<Ask>
    ensures { result ≡ ask_tag_of b }
{
    match b {
        0 => Some(Ask::Time),
        1 => Some(Ask::Word),
        2 => Some(Ask::Line),
        _ => None,
    }
}

pub(crate) fn given_tag(b: u8) -> Option<GivenTag>
    ensures { result ≡ given_tag_of b }
{
    match b {
        0 => Some(GivenTag::Number),
        1 => Some(GivenTag::Word),
        2 => Some(GivenTag::Line),
        3 => Some(GivenTag::End),
        4 => Some(GivenTag::Failed),
        _ => None,
    }
}

pub(crate) fn found_tag(b: u8) -> Option<FoundTag>
    ensures { result ≡ found_tag_of b }
{
    match b {
        0 => Some(FoundTag::Content),
        1 => Some(FoundTag::Absent),
        2 => Some(FoundTag::TooLarge),
        3 => Some(FoundTag::Failed),
        _ => None,
    }
}
