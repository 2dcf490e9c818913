// The rows of all pages of a trial.
use trace_rows::Rows;

/// The rows of all pages of a trial, and how they stand on its pages.
#[derive(Drop)]
pub struct PagedRows {
    /// The rows, in order.
    pub rows: Rows,
    /// How many of them each page has.
    pub cuts: Vec<u32>,
}
