// Whether the rows of a page are kept.
use row_checks::first_unkept;
use std::alloc::{AllocError, Global};
use trace_rows::{Rows, decode_page};

/// Writes whether rows are kept.
fn write_told(
    alloc: Global,
    rows: &Rows,
    statements: u32,
    out: &mut Vec<u8>,
) -> Result<(), AllocError> {
    match first_unkept(alloc, rows.as_slice(), statements) {
        Ok(None) => out.extend_from_slice(b"kept"),
        Ok(Some(place)) => {
            let words = format!(in alloc; "first unkept: row {place}")?;
            out.extend_from_slice(words.as_bytes())
        }
        Err(_) => out.extend_from_slice(b"no memory"),
    }
}

/// Writes the answer of a page, of a script with so many statements.
fn write_page(
    alloc: Global,
    page: &[u8],
    statements: u32,
    out: &mut Vec<u8>,
) -> Result<(), AllocError> {
    match decode_page(alloc, page) {
        Ok(rows) => write_told(alloc, &rows, statements, out),
        Err(_) => out.extend_from_slice(b"no page"),
    }
}

/// Writes whether the rows of a page are kept: of a script with so many statements, and of a page as digits of base 16.
pub fn write_words(
    alloc: Global,
    count: &str,
    digits: &str,
    out: &mut Vec<u8>,
) -> Result<(), AllocError> {
    let Ok(statements) = count.parse::<u32>() else {
        return out.extend_from_slice(b"no number");
    };
    match hex::decode(alloc, digits) {
        Ok(page) => write_page(alloc, &page, statements, out),
        Err(_) => out.extend_from_slice(b"no digits of base 16"),
    }
}
