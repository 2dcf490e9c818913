// Pages of rows, both ways.
ghost use Rattle.std.specs.Prelude.{◌≡◌, ℕ, List, IfOk};
ghost use Rattle.trace_rows.specs.declared.row.Row.{Row as OneRow};
ghost use Rattle.trace_rows.specs.Page.{IsPage, IsFirstBad, Decodes, IsDecodedAs};
ghost use Rattle.trace_rows.specs.RowBytes.{rows_bytes};
ghost use Rattle.trace_rows.specs.RowReading.{GivesRow, row_at};

use crate::fault::PageFault;
use crate::reading_rows::read_row;
use crate::row::{Row, Rows};
use crate::writing::write_row;
use prov_base::{Bytes, Memory};
use row_words::ReadFault;
use std::alloc::Global;

/// The bytes of rows, one behind the other. Out of memory is the one other answer.
pub fn encode_page(alloc: Global, rows: &[Row]) -> Result<Bytes, Memory>
    ensures { IfOk result (λ bytes. bytes ≡ rows_bytes rows.now) }
{
    let mut out = Vec::new(alloc);
    for row in rows {
        write_row(&mut out, row)?;
    }
    Ok(Bytes::of(out))
}

// The row at the front of what begins at this byte of a page.
fn next_row(alloc: Global, rest: &[u8], place: usize) -> Result<(Row, &[u8]), PageFault>
    ensures { GivesRow place (λ x. (x.0, x.1.now)) result (row_at rest.now) }
{
    match read_row(alloc, rest) {
        Ok(read) => Ok(read),
        Err(ReadFault::Bad) => Err(PageFault::BadRow(place as u64)),
        Err(ReadFault::Memory) => Err(PageFault::Memory),
    }
}

// The rows of a page, one after the other.
fn read_rows(alloc: Global, bytes: &[u8]) -> Result<Rows, PageFault>
    ensures { Decodes bytes.now result }
{
    let mut rows = Vec::new(alloc);
    let mut rest = bytes;
    while !rest.is_empty() {
        let (row, after) = next_row(alloc, rest, bytes.len() - rest.len())?;
        rows.push(row)?;
        rest = after;
    }
    Ok(Rows::of(rows))
}

/// The rows that have exactly these bytes. Where no rows have them, the place is where the longest front that is rows ends.
pub fn decode_page(alloc: Global, bytes: &[u8]) -> Result<Rows, PageFault>
    // What is read has these bytes, and a bad row begins where the longest front of rows ends.
    ensures decodes { Decodes bytes.now result }
    // Where rows have these bytes they are read, unless memory runs out.
    ensures again { (rows : List OneRow) → IsPage bytes.now rows → IsDecodedAs rows result }
{
    read_rows(alloc, bytes)
}

/// The law that a page has one list of rows, and bytes that are no page have one place where they stop being rows.
pub fn pages_are_read_one_way()
    ensures rows { (bytes : List ℕ) (rows others : List OneRow) → IsPage bytes rows → IsPage bytes others → rows ≡ others }
    ensures none { (bytes : List ℕ) (rows : List OneRow) (place : ℕ) → IsPage bytes rows → IsFirstBad bytes place → ⊥ }
    ensures places { (bytes : List ℕ) (place other : ℕ) → IsFirstBad bytes place → IsFirstBad bytes other → place ≡ other }
{}
