// The five statements that read the committed tables.
use crate::columns::OfRow;
use crate::file::StoreFile;
use crate::tasks::Task;
use keeper::{Head, KeepFault, Page};
use prov_base::{Bytes, Digest};
use sqlite::params;
use sqlite::types::ValueRef;

const COUNT_TRIALS: &str = "SELECT count(*) FROM trial";

const READ_HEAD: &str = "
SELECT format, language, script, arguments, capture, output, finals,
    budget, steps, status, pages, started, ended, parent, path
FROM trial WHERE number = ?1";

const READ_PAGE: &str = "SELECT digest, bytes FROM page WHERE trial = ?1 AND number = ?2";

const READ_CONTENT: &str = "SELECT bytes FROM content WHERE digest = ?1";

const READ_CURRENT: &str = "SELECT trial FROM current WHERE path = ?1";

// What a statement reads in its first row, or `None` where it has none.
fn read<T: OfRow>(
    file: &mut StoreFile<'_>,
    statement: &str,
    values: &[ValueRef<'_>],
) -> Result<Option<T>, KeepFault> {
    match file.perform(Task::Read(statement, values))? {
        Some(row) => Ok(Some(T::of_row(&row)?)),
        None => Ok(None),
    }
}

// How many trials there are.
pub(crate) fn count_trials(file: &mut StoreFile<'_>) -> Result<u32, KeepFault> {
    match read(file, COUNT_TRIALS, &[])? {
        Some(trials) => Ok(trials),
        None => Err(KeepFault::Failed),
    }
}

// The head of a trial.
pub(crate) fn read_head(file: &mut StoreFile<'_>, trial: u32) -> Result<Option<Head>, KeepFault> {
    read(file, READ_HEAD, params![trial])
}

// A page of a trial.
pub(crate) fn read_page(
    file: &mut StoreFile<'_>,
    trial: u32,
    number: u32,
) -> Result<Option<Page>, KeepFault> {
    read(file, READ_PAGE, params![trial, number])
}

// The content with this digest.
pub(crate) fn read_content(
    file: &mut StoreFile<'_>,
    digest: &Digest,
) -> Result<Option<Bytes>, KeepFault> {
    read(file, READ_CONTENT, params![digest.bytes.as_slice()])
}

// The current trial of a path.
pub(crate) fn read_current(file: &mut StoreFile<'_>, path: &str) -> Result<Option<u32>, KeepFault> {
    read(file, READ_CURRENT, params![path])
}
