// What ends by a jump directly in the module.
ghost use Rattle.std.specs.Prelude.{◌≡◌, ℕ, List, length, nat_lt, OnOk};
ghost use Rattle.py_value.specs.Values.{ValuesView};
ghost use Rattle.py_model.specs.Moment.{Moment};
ghost use Rattle.py_model.specs.Occurrences.{frames_after, owner_stmt};
ghost use Rattle.slice_law.specs.Closed.{has};
ghost use Rattle.slice_law.specs.Edges.{module_jumps};
ghost use Rattle.row_moments.specs.Moments.{told_with};
ghost use Rattle.slicer.specs.Jumps.{ends_by_jump as row_ends_by_jump};

use prov_base::Memory;
use py_model::How;
use trace_rows::Row;

// Whether a row ends a statement by a jump.
fn ends_by_jump(row: &Row) -> bool
    ensures { result ≡ row_ends_by_jump row.now }
{
    match row {
        Row::End(How::Normal) => false,
        Row::End(How::Break | How::Continue | How::Return | How::Raise) => true,
        Row::Text(_)
        | Row::Tuple(_)
        | Row::Begin(_)
        | Row::Do(..)
        | Row::Enter(..)
        | Row::Leave(_) => false,
    }
}

/// Notes a statement that ends by a jump directly in the module. The innermost statement before the row is the one that an End ends, and
/// nothing is open after it.
pub fn note_jump(
    jumps: &mut Vec<u32>,
    row: &Row,
    innermost: Option<u32>,
    is_open: bool,
) -> Result<(), Memory>
    ensures { (view : ValuesView) (told : List Moment) → innermost ≡ owner_stmt told → is_open ≡ nat_lt 0 (length (frames_after (told_with view row.now told)))
        → ((s : ℕ) → has s jumps.old.items ≡ has s (module_jumps told)) → OnOk result ((s : ℕ) → has s jumps.new.items ≡ has s (module_jumps (told_with view row.now told))) }
{
    if ends_by_jump(row) && !is_open {
        jumps.push(innermost.unwrap_or(0))?;
    }
    Ok(())
}
