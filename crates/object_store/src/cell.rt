// What is kept of a content that is read whole and written whole.
ghost use Rattle.std.specs.Prelude.{◌≡◌, Some};
ghost use Rattle.object_store.specs.Cell.{content_of, cell_of};

use prov_base::Pos;
use py_value::{Content, Value};

/// A content that is no item, no order and no file.
#[derive(Clone, Copy, Debug)]
pub enum Cell {
    Var(Option<Value>),
    Len(u64),
    Entry(Option<(Value, Value)>),
    Offset(u64),
    Closed(bool),
    Method(Pos),
    Base(Option<Value>),
}

impl Cell {
    /// What is kept of a content.
    pub fn of(content: &Content) -> Option<Cell>
        ensures { result ≡ cell_of content.now }
    {
        match content {
            Content::Var(value) => Some(Cell::Var(*value)),
            Content::Len(len) => Some(Cell::Len(*len)),
            Content::Entry(entry) => Some(Cell::Entry(*entry)),
            Content::Offset(offset) => Some(Cell::Offset(*offset)),
            Content::Closed(is_closed) => Some(Cell::Closed(*is_closed)),
            Content::Method(place) => Some(Cell::Method(*place)),
            Content::Base(base) => Some(Cell::Base(*base)),
            Content::Item(_) | Content::Order(_) | Content::File(_) => None,
        }
    }

    /// The content.
    pub fn content(self) -> Content
        ensures { result ≡ content_of self }
    {
        match self {
            Cell::Var(value) => Content::Var(value),
            Cell::Len(len) => Content::Len(len),
            Cell::Entry(entry) => Content::Entry(entry),
            Cell::Offset(offset) => Content::Offset(offset),
            Cell::Closed(is_closed) => Content::Closed(is_closed),
            Cell::Method(place) => Content::Method(place),
            Cell::Base(base) => Content::Base(base),
        }
    }
}
