//! What stands around the opening of a database file: the lock of its name, the WAL file that it makes, and why it failed.

use crate::fault::FileFault;
use crate::name_lock::{NameLock, lock_shared};
use crate::sqlite_file::{NO_DATABASE, has_frames, is_special};
use crate::what_is_named::given;
use std::alloc::AllocError;
use std::fs::OpenOptions;
use std::io::ErrorKind;
use std::{fs, io};

const READ_ONLY: &str =
    "the file may only be read, and each command locks it for writing and keeps a WAL file beside it";

const NO_FILE: &str = "not the name of a file to SQLite: put ./ before it";

const NO_TARGET: &str = "it is a link to a file that is not there";

/// How long the header of a database file is (SQLite, "Database File Format", section 1.3).
const HEADER: u64 = 100;

const NOT_USABLE: &str =
    "unable to open database file: it has several names or is no file, sqlite3 has left a journal, or its WAL file or folder cannot be written";

/// What an opening begins with: the lock of the name, and the name of the WAL file if there is none yet.
#[derive(Drop)]
pub struct Opening {
    pub lock: NameLock,
    pub wal: Option<String>,
}

impl Opening {
    /// Locks the name of a database that is to be opened. A file that is not there is made. One with bytes and without a whole
    /// header is no database, and stays as it is.
    pub fn begin(rt: &HostRuntime, name: &str) -> Result<Opening, FileFault> {
        if is_cut(rt, name) {
            return Err(FileFault::Unusable(NO_DATABASE));
        }
        let lock = lock_shared(rt, name)?;
        match missing_wal(rt, name) {
            Ok(wal) => Ok(Opening { lock, wal }),
            Err(_) => {
                lock.discard(rt, name);
                Err(FileFault::Memory)
            }
        }
    }
}

/// Whether a regular file has bytes, and fewer than the header of a database.
fn is_cut(rt: &HostRuntime, name: &str) -> bool {
    match fs::metadata(rt, name) {
        Ok(metadata) => metadata.is_file() && metadata.len() > 0 && metadata.len() < HEADER,
        Err(_) => false,
    }
}

/// The name of the WAL file of a database file that is there, if it has none yet.
pub fn missing_wal(rt: &HostRuntime, name: &str) -> Result<Option<String>, AllocError> {
    let Some(real) = given(fs::canonicalize(rt, name))? else {
        return Ok(None);
    };
    let wal = format!(in rt.alloc(); "{}-wal", real.as_str())?;
    Ok(match fs::exists(rt, wal.as_str()) {
        Ok(false) => Some(wal),
        _ => None,
    })
}

/// Removes a WAL file that was missing before the database was opened, if nothing was written to it. The database must
/// still be locked, so that no other process has it open.
pub fn remove_unused(rt: &HostRuntime, wal: Option<String>) {
    if let Some(wal) = wal
        && let Ok(false) = has_frames(rt, wal.as_str())
    {
        let _ = fs::remove_file(rt, wal.as_str());
    }
}

/// Why a database file could not be opened: its name, if SQLite has another meaning for that; or the system's cause, if the
/// system refuses the file itself.
pub fn opening_fault(rt: &HostRuntime, path: &str) -> FileFault {
    if is_special(path) {
        return FileFault::Unusable(NO_FILE);
    }
    match try_open(rt, path) {
        Ok(()) => FileFault::Unusable(NOT_USABLE),
        Err(cause) if is_protected(cause.kind()) && fs::open(rt, path).is_ok() => {
            FileFault::Unusable(READ_ONLY)
        }
        Err(cause) if cause.kind() == ErrorKind::AlreadyExists => FileFault::Unusable(NO_TARGET),
        Err(cause) => FileFault::System(cause),
    }
}

fn is_protected(kind: ErrorKind) -> bool {
    matches!(
        kind,
        ErrorKind::PermissionDenied | ErrorKind::ReadOnlyFilesystem
    )
}

/// Opens a file as a database is opened, makes it if it is missing, and closes it.
fn try_open(rt: &HostRuntime, name: &str) -> io::Result<()> {
    let mut options = OpenOptions::new();
    options.read(true).write(true);
    if !fs::exists(rt, name)? {
        options.create_new(true);
    }
    options.open(rt, name)?;
    Ok(())
}
