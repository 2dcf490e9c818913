// What is open behind rows.
ghost use Rattle.std.specs.Prelude.{◌≡◌, OnOk};
ghost use Rattle.row_checks.specs.Nesting.{opened_by, closes as closes_innermost};

use prov_base::Memory;
use trace_rows::Row;

/// What is open.
#[derive(Clone, Copy)]
pub enum Open {
    /// A statement.
    Statement,
    /// An activation.
    Activation,
}

/// Whether a row closes what is innermost, where it closes anything.
pub(crate) fn closes(open_ones: &[Open], row: &Row) -> bool
    ensures { result ≡ closes_innermost open_ones.now row.now }
{
    match row {
        Row::End(_) => matches!(open_ones.last(), Some(Open::Statement)),
        Row::Leave(_) => matches!(open_ones.last(), Some(Open::Activation)),
        Row::Text(_) | Row::Tuple(_) | Row::Begin(_) | Row::Do(..) | Row::Enter(..) => true,
    }
}

/// Opens or closes what a row opens or closes.
pub(crate) fn pass(open_ones: &mut Vec<Open>, row: &Row) -> Result<(), Memory>
    ensures { OnOk result (open_ones.new.items ≡ opened_by row.now open_ones.old.items) }
{
    match row {
        Row::Begin(_) => open_ones.push(Open::Statement)?,
        Row::Enter(..) => open_ones.push(Open::Activation)?,
        Row::End(_) | Row::Leave(_) => {
            open_ones.pop();
        }
        Row::Text(_) | Row::Tuple(_) | Row::Do(..) => {}
    }
    Ok(())
}
