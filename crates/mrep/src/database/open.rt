//! Opening and closing a database file.

use crate::report::failure::{Failure, of_damage, of_database, of_file, over_file, unusable};
use files::{LOCKED, Opening, is_file, missing_wal, opening_fault, reading_fault, remove_unused};
use replica::{InFile, Unopened, close_file, open_file};
use sqlite::{Alter, Connection, Error, ErrorCode, File, FileStore, Files};
use sqlite_disk::{Disk, Unknown};
use sqlite_std_file::OpenError;
use std::alloc::Global;
use store::{Damage, ListError, StoreFault};

/// A store in a database file.
type FileOf = FileStore<File>;

const JOURNAL: &str = "sqlite3 has left a journal beside it: open it once with sqlite3";

/// A database file: its path, and its names in failures.
#[derive(Clone, Copy)]
struct DatabaseNames<'p, 'a> {
    path: &'p str,
    /// The name where the file cannot be used.
    file: &'a str,
    /// The name where what it holds cannot be used.
    content: &'a str,
}

impl<'a> DatabaseNames<'a, 'a> {
    /// A file that is given by this name.
    fn named(name: &'a str) -> DatabaseNames<'a, 'a> {
        DatabaseNames {
            path: name,
            file: name,
            content: name,
        }
    }
}

/// What giving a database to a lister has come to. A failure of the list names the database, and one of closing it, which comes
/// second, the file.
pub fn listed<E: Drop>(
    alloc: Global,
    db: &str,
    file: &str,
    made: InFile<Result<(), ListError<E>>, File>,
) -> Result<Result<(), E>, Failure> {
    let InFile {
        done,
        closed: files,
    } = made;
    let listed = match done {
        Ok(()) => Ok(()),
        Err(ListError::Store(cause)) => Err(of_database(alloc, db, cause)),
        Err(ListError::Visitor(error)) => {
            drop(closed(alloc, file, files));
            return Ok(Err(error));
        }
    };
    listed.and(closed(alloc, file, files))?;
    Ok(Ok(()))
}

/// Opens and closes a copy of a database in a file, which copies its WAL file back into it. A failure names the file that is
/// to be made, or the database where that is what cannot be used.
pub fn test<'a>(rt: &HostRuntime, copy: &str, to: &'a str, db: &'a str) -> Result<(), Failure> {
    match open_file(rt, copy, Unknown, 0, None) {
        Ok(store) => closed(rt.alloc(), to, close_file(store)),
        Err(unopened) => Err(unopened_copy(rt, copy, to, db, unopened)),
    }
}

/// The failure of a copy of a database that could not be opened, whose files are closed.
pub fn unopened_copy<'a>(
    rt: &HostRuntime,
    copy: &str,
    to: &'a str,
    db: &'a str,
    unopened: Unopened<File>,
) -> Failure {
    let place = DatabaseNames {
        path: copy,
        file: to,
        content: db,
    };
    refusal(rt, place, leave(rt, None, unopened))
}

/// Takes the name of a database for one that is opened by it next.
pub fn opening(rt: &HostRuntime, name: &str) -> Result<Opening, Failure> {
    over_file(rt.alloc(), name, Opening::begin(rt, name))
}

/// The failure of the database of this name that could not be opened, whose opening was begun so. Its files are closed, and the
/// name is given up.
pub fn unopened_database<D: Disk + Drop>(
    rt: &HostRuntime,
    name: &str,
    opening: Opening,
    unopened: Unopened<D>,
) -> Failure {
    let Opening { lock, wal } = opening;
    let failure = refusal(rt, DatabaseNames::named(name), leave(rt, wal, unopened));
    lock.discard(rt, name);
    failure
}

/// Locks a file that is there as an open database is locked, until the result is dropped. Nothing is written to it. A file
/// that this process may not open is not locked.
pub fn lock(rt: &HostRuntime, name: &str) -> Result<Option<Files<File>>, Failure> {
    if !is_file(rt, name) {
        return Ok(None);
    }
    let wal = missing_wal(rt, name)?;
    match sqlite_std_file::open(rt, name, Unknown) {
        Ok(files) => {
            remove_unused(rt, wal);
            Ok(Some(files))
        }
        Err(OpenError::Busy) => Err(unusable(rt.alloc(), name, LOCKED)),
        Err(OpenError::HotJournal) => Err(unusable(rt.alloc(), name, JOURNAL)),
        Err(OpenError::OutOfMemory) => Err(Failure::Memory),
        Err(OpenError::Io(_)) => Ok(None),
    }
}

/// Why an opening failed.
enum Cause {
    Fault(StoreFault),
    /// The tables are damaged, and what of them is.
    Damage(Damage),
}

/// Closes what is left of an opening that failed, and returns its cause.
fn leave<D: Disk + Drop>(rt: &HostRuntime, wal: Option<String>, unopened: Unopened<D>) -> Cause {
    match unopened {
        Unopened::NotOpened(why) => Cause::Fault(match why.cause {
            Error::SqliteFailure(ErrorCode::OutOfMemory) => StoreFault::Memory,
            cause => StoreFault::Database(cause),
        }),
        Unopened::Files(cause, left) => {
            remove_unused(rt, wal);
            drop(left);
            Cause::Fault(StoreFault::Database(cause))
        }
        Unopened::Database(fault, conn) => leave_database(rt, wal, fault, conn),
    }
}

/// Closes a database that was opened and whose store was not, and returns the cause.
fn leave_database<D: Disk + Drop>(
    rt: &HostRuntime,
    wal: Option<String>,
    fault: StoreFault,
    mut conn: Connection<FileStore<D>>,
) -> Cause {
    let cause = cause_in(rt.alloc(), fault, &mut conn);
    remove_unused(rt, wal);
    let _ = conn.close();
    cause
}

/// The cause of a fault of opening a database: of damage, what is damaged, if that is found.
fn cause_in<S: Alter>(alloc: Global, fault: StoreFault, conn: &mut Connection<S>) -> Cause {
    if fault != StoreFault::Damaged {
        return Cause::Fault(fault);
    }
    match Damage::find(alloc, conn) {
        Some(damage) => Cause::Damage(damage),
        None => Cause::Fault(fault),
    }
}

/// The failure of a database file that could not be opened.
fn refusal(rt: &HostRuntime, place: DatabaseNames<'_, '_>, cause: Cause) -> Failure {
    let alloc = rt.alloc();
    let DatabaseNames {
        path,
        file,
        content,
    } = place;
    let cause = match cause {
        Cause::Fault(fault) => fault,
        Cause::Damage(damage) => return of_damage(alloc, content, &damage),
    };
    match cause {
        StoreFault::Database(Error::SqliteFailure(code)) => match code {
            ErrorCode::CannotOpen => of_file(alloc, file, opening_fault(rt, path)),
            ErrorCode::DatabaseBusy => unusable(alloc, file, LOCKED),
            ErrorCode::NotADatabase | ErrorCode::DatabaseCorrupt => {
                unusable(alloc, content, reading_fault(rt, path))
            }
            _ => of_database(alloc, file, cause),
        },
        StoreFault::Database(_) | StoreFault::Memory => of_database(alloc, file, cause),
        _ => of_database(alloc, content, cause),
    }
}

/// Whether the files were closed.
pub fn closed(
    alloc: Global,
    name: &str,
    files: Result<Files<File>, (Error, FileOf)>,
) -> Result<(), Failure> {
    match files {
        Ok(files) => {
            drop(files);
            Ok(())
        }
        Err((cause, left)) => {
            drop(left.close());
            Err(of_database(alloc, name, StoreFault::Database(cause)))
        }
    }
}
