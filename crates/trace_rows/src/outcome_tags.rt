// The first byte of an answer, which tells its form, the byte of an ending, and the numbers of operations.
ghost use Rattle.std.specs.Prelude.{◌≡◌};
ghost use Rattle.py_model.specs.Told.{is_operation as is_operation_number};
ghost use Rattle.trace_rows.specs.PartReading.{answer_tag as answer_tag_of, how_tag as how_tag_of};

use py_model::How;

/// The form of an answer.
#[derive(Clone, Copy)]
pub(crate) enum AnswerTag {
    /// A value.
    Value,
    /// An exception.
    Raised,
    /// The end of a sequence.
    End,
}

pub(crate) fn answer_tag(b: u8) -> Option<AnswerTag>
    ensures { result ≡ answer_tag_of b }
{
    match b {
        0 => Some(AnswerTag::Value),
        1 => Some(AnswerTag::Raised),
        2 => Some(AnswerTag::End),
        _ => None,
    }
}

pub(crate) fn how_tag(b: u8) -> Option<How>
    ensures { result ≡ how_tag_of b }
{
    match b {
        0 => Some(How::Normal),
        1 => Some(How::Break),
        2 => Some(How::Continue),
        3 => Some(How::Return),
        4 => Some(How::Raise),
        _ => None,
    }
}

/// Whether an operation has this number.
pub(crate) fn is_operation(b: u8) -> bool
    ensures { result ≡ is_operation_number b }
{
    b < 48 || (50 <= b && b < 72) || (80 <= b && b < 112)
}
