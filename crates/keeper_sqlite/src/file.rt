// The database file: its folder, and its opening at the first task. One function alone performs tasks at the connection, for each that does costs a
// check 25 s: it reads all of `sqlite` at this kind of file.
use crate::fault::fault_of;
use crate::tasks::{Task, perform};
use keeper::KeepFault;
use prov_base::Name;
use sqlite::{Connection, Error, ErrorCode, File, FileStore, Row};
use std::fs;
use std::io::ErrorKind;
use std::thread::sleep;
use std::time::Duration;

// While another program has the file open, it is tried again after each pause, up to 60 seconds in all.
const PAUSES: u32 = 3000;

const PAUSE_MILLISECONDS: u64 = 20;

/// The database file of a store, its path, and whether it is known to have the tables.
#[derive(Drop)]
pub struct StoreFile<'a> {
    rt: &'a HostRuntime,
    path: Name,
    database: Database,
    has_tables: bool,
}

// A database, before and after it was opened.
enum Database {
    Unopened,
    Opened(Connection<FileStore<File>>),
}

impl Drop for Database {
    // Copies what stands in the log beside the file into the file. Where that fails, the log keeps it.
    fn drop(self) {
        match self {
            Database::Unopened => {}
            Database::Opened(connection) => {
                let _ = connection.close();
            }
        }
    }
}

impl<'a> StoreFile<'a> {
    // The file at this path. It opens nothing and takes no memory.
    pub(crate) fn at(rt: &'a HostRuntime, path: Name) -> StoreFile<'a> {
        StoreFile {
            rt,
            path,
            database: Database::Unopened,
            has_tables: false,
        }
    }

    // Performs a task. The first one opens the file; where that fails, the next one tries again.
    pub(crate) fn perform(&mut self, task: Task<'_>) -> Result<Option<Row>, KeepFault> {
        self.open()?;
        match &mut self.database {
            Database::Opened(connection) => perform(connection, &mut self.has_tables, task),
            Database::Unopened => Err(KeepFault::Failed),
        }
    }

    // Opens the file, or makes it, where it is not open yet.
    fn open(&mut self) -> Result<(), KeepFault> {
        if matches!(self.database, Database::Opened(_)) {
            return Ok(());
        }
        make_folder(self.rt, self.path.as_str())?;
        let connection = opened(self.rt, self.path.as_str())?;
        self.database = Database::Opened(connection);
        Ok(())
    }
}

// Opens the file. Another program may have it open: then it waits.
fn opened(rt: &HostRuntime, path: &str) -> Result<Connection<FileStore<File>>, KeepFault> {
    for _ in 0..PAUSES {
        match Connection::open(rt, path) {
            Ok(connection) => return Ok(connection),
            Err(Error::SqliteFailure(ErrorCode::DatabaseBusy)) => {
                sleep(rt, Duration::from_millis(PAUSE_MILLISECONDS));
            }
            Err(error) => return Err(fault_of(error)),
        }
    }
    Err(KeepFault::Failed)
}

// Makes the folder in which the file stands, where it is absent, but none above it.
fn make_folder(rt: &HostRuntime, path: &str) -> Result<(), KeepFault> {
    let Some((folder, _)) = path.rsplit_once('/') else {
        return Ok(());
    };
    match fs::create_dir(rt, folder) {
        Ok(()) => Ok(()),
        Err(error) => match error.kind() {
            ErrorKind::AlreadyExists => Ok(()),
            ErrorKind::OutOfMemory => Err(KeepFault::Memory),
            _ => Err(KeepFault::Failed),
        },
    }
}
