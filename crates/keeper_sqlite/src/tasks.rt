// What is done at a connection. Only this module and the writers call it.
use crate::fault::fault_of;
use crate::writers::write_entries;
use keeper::{Batch, KeepFault};
use sqlite::types::ValueRef;
use sqlite::{Alter, Connection, Error, Row};

// The four tables. Where they are there already, this changes nothing.
const TABLES: &str = "
CREATE TABLE IF NOT EXISTS trial (
    number INTEGER PRIMARY KEY,
    format INTEGER NOT NULL,
    language INTEGER NOT NULL,
    path TEXT NOT NULL,
    script BLOB NOT NULL,
    arguments BLOB NOT NULL,
    capture BLOB NOT NULL,
    output BLOB NOT NULL,
    finals BLOB NOT NULL,
    budget INTEGER NOT NULL,
    steps INTEGER NOT NULL,
    status INTEGER NOT NULL,
    pages INTEGER NOT NULL,
    started INTEGER,
    ended INTEGER,
    parent INTEGER NOT NULL
) STRICT;
CREATE TABLE IF NOT EXISTS page (
    trial INTEGER NOT NULL,
    number INTEGER NOT NULL,
    digest BLOB NOT NULL,
    bytes BLOB NOT NULL,
    PRIMARY KEY (trial, number)
) STRICT;
CREATE TABLE IF NOT EXISTS content (
    digest BLOB NOT NULL PRIMARY KEY,
    bytes BLOB NOT NULL
) STRICT;
CREATE TABLE IF NOT EXISTS current (
    path TEXT NOT NULL PRIMARY KEY,
    trial INTEGER NOT NULL
) STRICT;
";

// A task at a connection.
#[derive(Clone, Copy)]
pub(crate) enum Task<'a> {
    // Runs a statement that reads, with these values.
    Read(&'a str, &'a [ValueRef<'a>]),
    // Writes a batch.
    Write(&'a Batch),
}

// Performs a task, before which it makes the tables where it is not known that they are there. The answer is the first
// row of what a statement read, where it has one.
pub(crate) fn perform<S: Alter>(
    connection: &mut Connection<S>,
    has_tables: &mut bool,
    task: Task<'_>,
) -> Result<Option<Row>, KeepFault> {
    if !*has_tables {
        make_tables(connection)?;
        *has_tables = true;
    }
    match task {
        Task::Read(statement, values) => first_row(connection, statement, values),
        Task::Write(batch) => write_batch(connection, batch),
    }
}

// Makes the tables that are absent, all or none.
fn make_tables<S: Alter>(connection: &mut Connection<S>) -> Result<(), KeepFault> {
    if !connection.is_autocommit() {
        return Err(KeepFault::Failed);
    }
    let mut transaction = connection.transaction();
    match transaction.execute_batch(TABLES) {
        Ok(()) => transaction.commit().map_err(fault_of),
        Err(error) => Err(fault_of(error)),
    }
}

// The first row of an answer, or `None` where it has none.
fn first_row<S: Alter>(
    connection: &mut Connection<S>,
    statement: &str,
    values: &[ValueRef<'_>],
) -> Result<Option<Row>, KeepFault> {
    match connection.query_row(statement, values) {
        Ok(row) => Ok(Some(row)),
        Err(Error::QueryReturnedNoRows) => Ok(None),
        Err(error) => Err(fault_of(error)),
    }
}

// Writes the whole batch in one transaction. Where a statement fails, the transaction is rolled back.
fn write_batch<S: Alter>(
    connection: &mut Connection<S>,
    batch: &Batch,
) -> Result<Option<Row>, KeepFault> {
    if !connection.is_autocommit() {
        return Err(KeepFault::Failed);
    }
    let mut transaction = connection.transaction();
    write_entries(&mut transaction, batch)?;
    match transaction.commit() {
        Ok(()) => Ok(None),
        Err(error) => Err(fault_of(error)),
    }
}
