// Which operation takes the answer of which.
use prov_base::Pos;

/// An operation by its place, and by what it is to others: to those that take its answer (0 is an evaluation, else its number), or to those whose answers it takes.
#[derive(Clone, Copy, Debug, PartialEq, Eq, Hash)]
pub struct Point {
    pub at: Pos,
    pub kind: u8,
}

/// An operation takes the answer of another one of its occurrence, if it has as many values.
#[derive(Clone, Copy, Debug)]
pub struct Link {
    /// The operation that takes.
    pub to: Point,
    /// It takes only with so many values or more.
    pub least: usize,
    /// The operation whose last answer is taken.
    pub from: Point,
    /// Nothing is taken if this one was done later.
    pub rival: Option<Point>,
}
