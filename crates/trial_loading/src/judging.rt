// Whether rows of pages may stand there.
ghost use Rattle.std.specs.Prelude.{◌≡◌, List, map, length, false, IfOk};
ghost use Rattle.trace_rows.specs.declared.row.Row.{Row as OneRow};
ghost use Rattle.trace_rows.specs.Page.{IsPage};
ghost use Rattle.row_checks.specs.KeptRows.{AreKeptRows};
ghost use Rattle.trial_tables.specs.ReadFault.{has_failed};
ghost use Rattle.trial_loading.specs.Placing.{Judges};
ghost use Rattle.trial_loading.specs.TrialPages.{rows_on};

use crate::paged_rows::PagedRows;
use crate::placing::damage_at;
use row_checks::first_unkept;
use std::alloc::Global;
use trace_rows::decode_page;
use trial_tables::ReadFault;

/// The rows of pages with these bytes and so many rows each, where they are kept.
pub(crate) fn judge(
    alloc: Global,
    bytes: &[u8],
    cuts: Vec<u32>,
    statements: u32,
) -> Result<PagedRows, ReadFault>
    ensures judges { (each : List (List OneRow)) → IsPage bytes.now (rows_on each) → cuts.items ≡ map length each → Judges statements each result }
    ensures stand { IfOk result (λ read. AreKeptRows statements read.rows) }
    ensures counted { has_failed result ≡ false }
{
    let Ok(rows) = decode_page(alloc, bytes) else {
        return Err(ReadFault::Memory);
    };
    match first_unkept(alloc, rows.as_slice(), statements) {
        Ok(None) => Ok(PagedRows { rows, cuts }),
        Ok(Some(row)) => match damage_at(alloc, rows.as_slice(), cuts.as_slice(), row) {
            Ok(damage) => Err(ReadFault::Damaged(damage)),
            Err(_) => Err(ReadFault::Memory),
        },
        Err(_) => Err(ReadFault::Memory),
    }
}
