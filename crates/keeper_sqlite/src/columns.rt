// The columns of a row as what a keeper keeps. A value of another kind or out of its range is a failure.
use crate::fault::fault_of;
use keeper::{Head, KeepFault, Page};
use prov_base::{Bytes, Digest, Name};
use sqlite::Row;

// What stands in a row of a table.
pub(crate) trait OfRow: Sized {
    fn of_row(row: &Row) -> Result<Self, KeepFault>;
}

impl OfRow for u32 {
    fn of_row(row: &Row) -> Result<u32, KeepFault> {
        number_at(row, 0)
    }
}

impl OfRow for Bytes {
    fn of_row(row: &Row) -> Result<Bytes, KeepFault> {
        bytes_at(row, 0)
    }
}

impl OfRow for Page {
    fn of_row(row: &Row) -> Result<Page, KeepFault> {
        let digest = digest_at(row, 0)?;
        let bytes = bytes_at(row, 1)?;
        Ok(Page { digest, bytes })
    }
}

impl OfRow for Head {
    fn of_row(row: &Row) -> Result<Head, KeepFault> {
        Ok(Head {
            format: byte_at(row, 0)?,
            language: byte_at(row, 1)?,
            script: digest_at(row, 2)?,
            arguments: digest_at(row, 3)?,
            capture: digest_at(row, 4)?,
            output: digest_at(row, 5)?,
            finals: digest_at(row, 6)?,
            budget: number_at(row, 7)?,
            steps: number_at(row, 8)?,
            status: byte_at(row, 9)?,
            pages: number_at(row, 10)?,
            started: moment_at(row, 11)?,
            ended: moment_at(row, 12)?,
            parent: number_at(row, 13)?,
            path: name_at(row, 14)?,
        })
    }
}

fn number_at(row: &Row, column: usize) -> Result<u32, KeepFault> {
    row.get(column).map_err(fault_of)
}

fn byte_at(row: &Row, column: usize) -> Result<u8, KeepFault> {
    match u8::try_from(number_at(row, column)?) {
        Ok(byte) => Ok(byte),
        Err(_) => Err(KeepFault::Failed),
    }
}

// Nanoseconds since 1970, or NULL.
fn moment_at(row: &Row, column: usize) -> Result<Option<i64>, KeepFault> {
    row.get(column).map_err(fault_of)
}

fn bytes_at(row: &Row, column: usize) -> Result<Bytes, KeepFault> {
    match row.get(column) {
        Ok(bytes) => Ok(Bytes::of(bytes)),
        Err(error) => Err(fault_of(error)),
    }
}

fn name_at(row: &Row, column: usize) -> Result<Name, KeepFault> {
    match row.get(column) {
        Ok(text) => Ok(Name::of(text)),
        Err(error) => Err(fault_of(error)),
    }
}

fn digest_at(row: &Row, column: usize) -> Result<Digest, KeepFault> {
    let bytes = bytes_at(row, column)?;
    match bytes.as_slice().try_into() {
        Ok(bytes) => Ok(Digest { bytes }),
        Err(_) => Err(KeepFault::Failed),
    }
}
