// The moment of an evaluation, among rows.
ghost use Rattle.std.specs.Prelude.{◌≡◌};
ghost use Rattle.feedings.specs.RowSites.{is_at as row_is_at, FindsTime};

use crate::sites::{evaluated, tells};
use prov_base::Pos;
use trace_rows::Row;

// Whether a row tells an evaluation at a place.
fn is_at(row: &Row, at: Pos) -> bool
    ensures { result ≡ row_is_at at row.now }
{
    match evaluated(row) {
        Some(place) => place == at,
        None => false,
    }
}

/// The time of the moment of the k-th evaluation at a place, counted from 1. Each row is looked at once, up to that of the evaluation.
pub(crate) fn find_time(rows: &[Row], at: Pos, k: u32) -> Option<usize>
    ensures { FindsTime at k rows.now result }
{
    let mut seen: usize = 0;
    let mut time: usize = 0;
    for row in rows {
        if is_at(row, at) {
            seen += 1;
            if seen == k as usize {
                return Some(time);
            }
        }
        if tells(row) {
            time += 1;
        }
    }
    None
}
