// What rows cost in steps.
ghost use Rattle.std.specs.Prelude.{◌≡◌, ◌+◌, ℕ, List, min, reverse};
ghost use Rattle.py_value.specs.Values.{ValuesView};
ghost use Rattle.py_model.specs.History.{spent_on};
ghost use Rattle.py_model.specs.Moment.{Moment};
ghost use Rattle.row_moments.specs.Moments.{told_with, moments_by};

use trace_rows::Row;

// So many steps more, and no more than 4294967295.
fn capped(total: u32, more: u64) -> u32
    ensures { result ≡ min 4294967295 (total + more) }
{
    let room = u32::MAX - total;
    if more < room as u64 {
        total + more as u32
    } else {
        u32::MAX
    }
}

// The steps after a row.
fn steps_with(total: u32, row: &Row) -> u32
    ensures { (view : ValuesView) (told : List Moment) → total ≡ min 4294967295 (spent_on told) → result ≡ min 4294967295 (spent_on (told_with view row.now told)) }
{
    match row {
        Row::Begin(_) => capped(total, 1),
        Row::Do(_, _, _, _, _, accesses, weight) => {
            let before = capped(capped(total, 1), accesses.as_slice().len() as u64);
            capped(before, *weight as u64)
        }
        Row::Enter(_, _, values, _) => capped(capped(total, 1), values.as_slice().len() as u64),
        Row::Text(_) | Row::Tuple(_) | Row::Leave(_) | Row::End(_) => total,
    }
}

/// The lesser of 4294967295 and what rows cost. Each row is looked at once.
pub(crate) fn steps_upto(rows: &[Row]) -> u32
    ensures { (view : ValuesView) → result ≡ min 4294967295 (spent_on (moments_by view (reverse rows.now))) }
{
    let mut total = 0;
    for row in rows {
        total = steps_with(total, row);
    }
    total
}
