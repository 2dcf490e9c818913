// The texts of rows, by their numbers.
ghost use Rattle.std.specs.Prelude.{◌≡◌, map, IfOk};
ghost use Rattle.row_checks.specs.KeptRows.{texts_in};

use prov_base::Memory;
use std::alloc::Global;
use trace_rows::Row;

/// The texts of rows, each at its number. They are not copied.
pub fn texts_of<'a>(alloc: Global, rows: &'a [Row]) -> Result<Vec<&'a str>, Memory>
    ensures { IfOk result (λ texts. map (λ k. k.now) texts.items ≡ texts_in rows.now) }
{
    let mut texts = Vec::new(alloc);
    for row in rows {
        if let Row::Text(text) = row {
            texts.push(text.as_str())?;
        }
    }
    Ok(texts)
}
