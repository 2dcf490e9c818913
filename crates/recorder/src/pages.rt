// Rows, cut into pages.
ghost use Rattle.std.specs.Prelude.{◌≡◌, [], List, ℕ, IfOk};
ghost use Rattle.std.specs.List.{concat};
ghost use Rattle.trace_rows.specs.declared.row.Row.{Row as OneRow};
ghost use Rattle.trace_rows.specs.RowBytes.{rows_bytes, AreRows};
ghost use Rattle.recorder.specs.PageCuts.{pages, AreCut, AreDecodedAs, HaveBytes};

use prov_base::{Bytes, Memory};
use std::alloc::Global;
use trace_rows::{Pages, Row, encode_page};

/// A page ends with the row that brings it to this many bytes or more.
const FULL: usize = 65_536;

/// The pages of rows. Out of memory is the one other answer.
pub fn pages_of(alloc: Global, rows: &[Row]) -> Result<Pages, Memory>
    ensures { IfOk result (λ p. p ≡ pages rows.now) }
{
    let mut done = Vec::new(alloc);
    let mut page = Vec::new(alloc);
    for row in rows {
        let bytes = encode_page(alloc, std::slice::from_ref(row))?;
        page.extend_from_slice(bytes.as_slice())?;
        if page.len() >= FULL {
            done.push(Bytes::of(page))?;
            page = Vec::new(alloc);
        }
    }
    if !page.is_empty() {
        done.push(Bytes::of(page))?;
    }
    Ok(Pages::of(done))
}

/// The law that pages are the rows: one behind the other they have the rows' bytes. A page ends with the row that brings it to 65,536 bytes or
/// more, so each page but the last has as many, and less without its last row. There is one way to cut so. Each page is decoded as the next
/// rows. No page is empty, and no rows have no page.
pub fn pages_are_the_rows()
    ensures bytes { (rows : List OneRow) → concat (pages rows) ≡ rows_bytes rows }
    ensures cut { (rows : List OneRow) → AreCut rows (pages rows) }
    ensures once { (rows : List OneRow) (ps : List (List ℕ)) → AreCut rows ps → ps ≡ pages rows }
    ensures decoded { (rows : List OneRow) → AreRows rows → AreDecodedAs rows (pages rows) }
    ensures some { (rows : List OneRow) → HaveBytes (pages rows) }
    ensures none { pages [] ≡ [] }
{}
