// The first byte of a value and of what was made, which tells its form.
ghost use Rattle.std.specs.Prelude.{◌≡◌};
ghost use Rattle.row_words.specs.Reading.{value_tag as value_tag_of, made_tag as made_tag_of, mode_tag as mode_tag_of};

use py_value::Mode;

/// The form of a value.
#[derive(Clone, Copy)]
pub(crate) enum ValueTag {
    /// `None`.
    None,
    /// `False`.
    False,
    /// `True`.
    True,
    /// An integer.
    Int,
    /// A range.
    Range,
    /// What has a number below 2 to the 32nd.
    Named(NamedTag),
    /// What has a place.
    Placed(PlacedTag),
    /// What has a number of the language.
    Numbered(NumberedTag),
}

/// What has a number below 2 to the 32nd.
#[derive(Clone, Copy)]
pub(crate) enum NamedTag {
    /// A text.
    Text,
    /// A tuple.
    Tuple,
    /// An object.
    Object,
}

/// What has a place.
#[derive(Clone, Copy)]
pub(crate) enum PlacedTag {
    /// A function.
    Fn,
    /// A class.
    Class,
}

/// What has a number of the language.
#[derive(Clone, Copy)]
pub(crate) enum NumberedTag {
    /// An exception class.
    Exc,
    /// A function or module.
    Builtin,
}

/// The form of what an operation made.
#[derive(Clone, Copy)]
pub(crate) enum MadeTag {
    /// Nothing.
    Nothing,
    /// A list.
    List,
    /// A dictionary.
    Dict,
    /// An instance.
    Instance,
    /// A file.
    File,
}

pub(crate) fn value_tag(b: u8) -> Option<ValueTag>
    ensures { result ≡ value_tag_of b }
{
    match b {
        0 => Some(ValueTag::None),
        1 => Some(ValueTag::False),
        2 => Some(ValueTag::True),
        3 => Some(ValueTag::Int),
        4 => Some(ValueTag::Named(NamedTag::Text)),
        5 => Some(ValueTag::Named(NamedTag::Tuple)),
        6 => Some(ValueTag::Range),
        7 => Some(ValueTag::Placed(PlacedTag::Fn)),
        8 => Some(ValueTag::Placed(PlacedTag::Class)),
        9 => Some(ValueTag::Numbered(NumberedTag::Exc)),
        10 => Some(ValueTag::Numbered(NumberedTag::Builtin)),
        11 => Some(ValueTag::Named(NamedTag::Object)),
        _ => None,
    }
}

pub(crate) fn made_tag(b: u8) -> Option<MadeTag>
    ensures { result ≡ made_tag_of b }
{
    match b {
        0 => Some(MadeTag::Nothing),
        1 => Some(MadeTag::List),
        2 => Some(MadeTag::Dict),
        3 => Some(MadeTag::Instance),
        4 => Some(MadeTag::File),
        _ => None,
    }
}

pub(crate) fn mode_tag(b: u8) -> Option<Mode>
    ensures { result ≡ mode_tag_of b }
{
    match b {
        0 => Some(Mode::Read),
        1 => Some(Mode::Write),
        2 => Some(Mode::Append),
        _ => None,
    }
}
