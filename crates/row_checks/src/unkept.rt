// The first row that may not stand where it stands.
ghost use Rattle.std.specs.Prelude.{◌≡◌, ℕ, List, [], IfOk};
ghost use Rattle.row_checks.specs.Going.{IsReady, earlier_of};
ghost use Rattle.row_checks.specs.KeptRows.{AreKeptRows, IsFirstUnkept, TellsUnkept, earlier_in};
ghost use Rattle.trace_rows.specs.declared.row.Row.{Row as OneRow};

use crate::seen::Seen;
use prov_base::Memory;
use std::alloc::Global;
use trace_rows::Row;

// The first of the rows that may not stand there, behind no others.
fn first_refused(alloc: Global, seen: &mut Seen, rows: &[Row]) -> Result<Option<u32>, Memory>
    requires ready { IsReady seen.old }
    requires none { earlier_of seen.old ≡ earlier_in seen.old.counts.statements [] }
    ensures { IfOk result (TellsUnkept seen.old.counts.statements rows.now) }
{
    for (i, row) in rows.iter().enumerate() {
        if !seen.goes_on(alloc, row)? {
            let Ok(number) = u32::try_from(i) else {
                return Err(Memory);
            };
            return Ok(Some(number));
        }
    }
    Ok(None)
}

/// The number of the first row with which the rows are no longer those of a well kept trial, where the script has so many statements. None
/// is the answer exactly where they are. Out of memory is the one other answer.
pub fn first_unkept(alloc: Global, rows: &[Row], statements: u32) -> Result<Option<u32>, Memory>
    ensures { IfOk result (TellsUnkept statements rows.now) }
{
    let mut seen = Seen::new(alloc, statements)?;
    let told = first_refused(alloc, &mut seen, rows)?;
    Ok(told)
}
