// The first byte of a row, which tells its form.
ghost use Rattle.std.specs.Prelude.{◌≡◌};
ghost use Rattle.trace_rows.specs.RowReading.{row_tag as row_tag_of};

/// The form of a row.
#[derive(Clone, Copy)]
pub(crate) enum RowTag {
    /// A text.
    Text,
    /// A tuple.
    Tuple,
    /// A statement begins.
    Begin,
    /// An operation is done.
    Do,
    /// An activation is entered.
    Enter,
    /// An activation is left.
    Leave,
    /// A statement ends.
    End,
}

pub(crate) fn row_tag(b: u8) -> Option<RowTag>
    ensures { result ≡ row_tag_of b }
{
    match b {
        1 => Some(RowTag::Text),
        2 => Some(RowTag::Tuple),
        3 => Some(RowTag::Begin),
        4 => Some(RowTag::Do),
        5 => Some(RowTag::Enter),
        6 => Some(RowTag::Leave),
        7 => Some(RowTag::End),
        _ => None,
    }
}
