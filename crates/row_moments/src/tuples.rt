// The tuples of rows, by their numbers.
ghost use Rattle.std.specs.Prelude.{◌≡◌, map, IfOk};
ghost use Rattle.row_checks.specs.KeptRows.{tuples_in};

use prov_base::Memory;
use py_value::Value;
use std::alloc::Global;
use trace_rows::Row;

/// The tuples of rows, each at its number. They are not copied.
pub fn tuples_of<'a>(alloc: Global, rows: &'a [Row]) -> Result<Vec<&'a [Value]>, Memory>
    ensures { IfOk result (λ tuples. map (λ k. k.now) tuples.items ≡ tuples_in rows.now) }
{
    let mut tuples = Vec::new(alloc);
    for row in rows {
        if let Row::Tuple(parts) = row {
            tuples.push(parts.as_slice())?;
        }
    }
    Ok(tuples)
}
