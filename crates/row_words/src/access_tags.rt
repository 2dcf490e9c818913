// The first byte of a location and of an access, which tells its form.
ghost use Rattle.std.specs.Prelude.{◌≡◌};
ghost use Rattle.row_words.specs.AccessReading.{location_tag as location_tag_of, access_tag as access_tag_of, flag as flag_of};

/// The form of a location.
#[derive(Clone, Copy)]
pub(crate) enum LocationTag {
    /// A variable.
    Var,
    /// An item of a list.
    Item,
    /// An entry.
    Entry,
    /// A method of a class.
    Method,
    /// The base of a class.
    Base,
    /// What has one number.
    Named(NamedTag),
}

/// The form of a location that has one number.
#[derive(Clone, Copy)]
pub(crate) enum NamedTag {
    /// The length of a list.
    Len,
    /// The keys of a dictionary.
    Order,
    /// The content of a file.
    File,
    /// How far a file was read.
    Offset,
    /// Whether a file was closed.
    Closed,
}

/// What is done to the store.
#[derive(Clone, Copy)]
pub(crate) enum AccessTag {
    /// A location is read.
    Read,
    /// A location is set.
    Set,
    /// What stands at a location is changed.
    Update,
}

pub(crate) fn location_tag(b: u8) -> Option<LocationTag>
    ensures { result ≡ location_tag_of b }
{
    match b {
        0 => Some(LocationTag::Var),
        1 => Some(LocationTag::Named(NamedTag::Len)),
        2 => Some(LocationTag::Item),
        3 => Some(LocationTag::Entry),
        4 => Some(LocationTag::Named(NamedTag::Order)),
        5 => Some(LocationTag::Named(NamedTag::File)),
        6 => Some(LocationTag::Named(NamedTag::Offset)),
        7 => Some(LocationTag::Named(NamedTag::Closed)),
        8 => Some(LocationTag::Method),
        9 => Some(LocationTag::Base),
        _ => None,
    }
}

pub(crate) fn access_tag(b: u8) -> Option<AccessTag>
    ensures { result ≡ access_tag_of b }
{
    match b {
        0 => Some(AccessTag::Read),
        1 => Some(AccessTag::Set),
        2 => Some(AccessTag::Update),
        _ => None,
    }
}

pub(crate) fn flag(b: u8) -> Option<bool>
    ensures { result ≡ flag_of b }
{
    match b {
        0 => Some(false),
        1 => Some(true),
        _ => None,
    }
}
