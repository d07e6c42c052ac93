//! The lock of a database file's name: a command holds it shared while it has the database open, and `mrep copy` alone
//! while it replaces the file.
//!
//! The database's own lock is taken on a file that is open, and by then another file may have its name. This lock is
//! taken before that, and counts only if the name still leads to the file afterwards; so no file is replaced between the
//! opening of its name and its lock. It is an advisory lock on the whole file (`flock`), which other programs do not look at.

use crate::fault::FileFault;
use crate::new_file::{Made, is_first_page, make};
use crate::part_file::remove_other;
use crate::sqlite_file::{has_frames, is_special};
use crate::what_is_named::{given, is_empty, is_file, is_named, private};
use std::alloc::AllocError;
use std::fs::{File, TryLockError};
use std::io::ErrorKind;
use std::os::unix::fs::MetadataExt;
use std::{fs, io};

/// How often a name is locked again whose file was replaced meanwhile.
const TRIES: u32 = 100;

/// What is said of a database that is locked.
pub const LOCKED: &str = "database is locked: another process has it open";

/// A database file whose name is locked until this is dropped. On a file system without such locks, and where this
/// process may not open the file, nothing is locked.
#[derive(Drop)]
pub struct NameLock {
    file: Option<File>,
    /// Whether the file was made for the lock.
    is_new: bool,
}

/// Locks the name of a database file that is to be opened, beside others that have it open. A file that is not there is
/// made, for its owner alone; of a name that no such file can have, the opening says so.
pub(crate) fn lock_shared(rt: &HostRuntime, name: &str) -> Result<NameLock, FileFault> {
    keep_one_name(rt, name)?;
    let part = format!(in rt.alloc(); "{name}.new")?;
    for _ in 0..TRIES {
        let lock = match open_or_make(rt, name, part.as_str()) {
            NameFile::File(lock) => lock,
            NameFile::InUse => return Err(FileFault::Unusable(LOCKED)),
            NameFile::No => break,
        };
        let Some(file) = &lock.file else {
            break;
        };
        match file.try_lock_shared() {
            Ok(()) if is_named(rt, file, name) => return Ok(lock),
            Ok(()) => {}
            Err(TryLockError::WouldBlock) => return Err(FileFault::Unusable(LOCKED)),
            Err(TryLockError::Error(_)) => return Ok(lock),
        }
    }
    Ok(NameLock {
        file: None,
        is_new: false,
    })
}

/// Locks the name of a file that is to be replaced. `None` if there is no file, or none that this process may open.
pub fn lock_alone(rt: &HostRuntime, name: &str) -> Result<Option<NameLock>, FileFault> {
    for _ in 0..TRIES {
        if !is_file(rt, name) {
            return Ok(None);
        }
        let Ok(file) = fs::open(rt, name) else {
            return Ok(None);
        };
        match file.try_lock() {
            Ok(()) if !is_named(rt, &file, name) => continue,
            Err(TryLockError::WouldBlock) => return Err(FileFault::Unusable(LOCKED)),
            Ok(()) | Err(TryLockError::Error(_)) => {}
        }
        return Ok(Some(NameLock {
            file: Some(file),
            is_new: false,
        }));
    }
    Ok(None)
}

impl NameLock {
    /// Gives the name up after an opening that was refused, and removes the file if it was made for the lock, is still as
    /// it was made, and no other process is about to open it.
    pub fn discard(self, rt: &HostRuntime, name: &str) {
        let NameLock { file, is_new } = self;
        if let Some(file) = file
            && is_new
            && is_as_made(rt, &file, name)
            && file.try_lock().is_ok()
        {
            let _ = fs::remove_file(rt, name);
        }
    }
}

/// Removes the names F.new and F.part of a database file F, which a process that made it was killed with before it could: no
/// database with two names is opened, since what lies beside it stands beside one of them.
pub fn keep_one_name(rt: &HostRuntime, name: &str) -> Result<(), AllocError> {
    if let Ok(metadata) = fs::metadata(rt, name)
        && metadata.is_file()
        && metadata.nlink() > 1
        && let Some(real) = given(fs::canonicalize(rt, name))?
    {
        for suffix in [".new", ".part"] {
            let other = format!(in rt.alloc(); "{}{suffix}", real.as_str())?;
            let _ = remove_other(rt, other.as_str(), real.as_str());
        }
    }
    Ok(())
}

/// What was found under a name, or made.
enum NameFile {
    File(NameLock),
    /// Another process is making the file.
    InUse,
    /// That is no name of a file to SQLite, something else has the name, or the system refuses it.
    No,
}

/// Opens the file of a name, or makes it.
fn open_or_make(rt: &HostRuntime, name: &str, part: &str) -> NameFile {
    if is_special(name) {
        return NameFile::No;
    }
    match fs::metadata(rt, name) {
        Ok(metadata) if !metadata.is_file() => return NameFile::No,
        Ok(_) => {}
        Err(cause) if cause.kind() != ErrorKind::NotFound => return NameFile::No,
        Err(_) => match make_file(rt, name, part) {
            Made::File(file) => {
                return NameFile::File(NameLock {
                    file: Some(file),
                    is_new: true,
                });
            }
            Made::InUse => return NameFile::InUse,
            Made::Taken => {}
        },
    }
    match fs::open(rt, name) {
        Ok(file) => NameFile::File(NameLock {
            file: Some(file),
            is_new: false,
        }),
        Err(_) => NameFile::No,
    }
}

/// Makes a database file that is not there: with its first page, or empty where that cannot be, as on a file system on which
/// no file has two names. Beside a WAL file with transactions, which a database that is gone has left, it is empty too: these
/// would be taken for those of the new one.
fn make_file(rt: &HostRuntime, name: &str, part: &str) -> Made {
    if let Ok(false) = has_wal(rt, name)
        && let Ok(made) = make(rt, part, name)
    {
        return made;
    }
    match private().create_new(true).open(rt, name) {
        Ok(file) => Made::File(file),
        Err(_) => Made::Taken,
    }
}

/// Whether a WAL file with transactions stands beside a database file.
fn has_wal(rt: &HostRuntime, name: &str) -> io::Result<bool> {
    let wal = format!(in rt.alloc(); "{name}-wal")?;
    Ok(is_file(rt, wal.as_str()) && has_frames(rt, wal.as_str())?)
}

/// Whether a database file is as it was made: it is empty, or has its first page and no transactions in a WAL file.
fn is_as_made(rt: &HostRuntime, file: &File, name: &str) -> bool {
    if is_empty(file) {
        return true;
    }
    matches!(is_first_page(file), Ok(true)) && matches!(has_wal(rt, name), Ok(false))
}
