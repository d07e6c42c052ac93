//! The files of a database that is copied, and which may be copied, made and replaced.

use crate::fault::FileFault;
use crate::sqlite_file::has_frames;
use crate::what_is_named::{is_no_file, is_there, read_head};
use std::alloc::{AllocError, Global};
use std::io::ErrorKind;
use std::{fs, io};

/// How long the header of a WAL file is (SQLite, "Database File Format", section 4.1).
pub const WAL_HEADER: usize = 32;

const SAME: &str = "it is the database itself";

/// What is said of a file that is not to be replaced.
pub const EXISTS: &str = "the file exists; --force replaces it";

const HAS_WAL: &str =
    "a WAL file with transactions stands beside it: open it once, which copies them back, or remove both";

const HAS_JOURNAL: &str =
    "sqlite3 has left a journal beside it: open it once with sqlite3, or remove both";

const NO_FILE: &str = "it is no regular file";

const NO_FILE_BESIDE: &str =
    "what stands beside it, at its name with -wal or -journal, is no regular file";

/// The names of a database file and of its WAL file.
#[derive(Drop)]
pub struct FileNames {
    pub file: String,
    pub wal: String,
}

impl FileNames {
    /// The files of the database that this name leads to.
    pub fn of(rt: &HostRuntime, name: &str) -> Result<FileNames, FileFault> {
        let path = fs::canonicalize(rt, name)?;
        let file = String::from_str(rt.alloc(), path.as_str())?;
        Ok(FileNames::beside(rt.alloc(), file)?)
    }

    /// The database file of this name, and its WAL file, which has the same name with `-wal` at the end.
    pub fn beside(alloc: Global, file: String) -> Result<FileNames, AllocError> {
        let wal = format!(in alloc; "{file}-wal")?;
        Ok(FileNames { file, wal })
    }

    /// Whether both files can be read.
    pub fn try_read(&self, rt: &HostRuntime) -> io::Result<()> {
        fs::open(rt, self.file.as_str())?;
        header(rt, self.wal.as_str())?;
        Ok(())
    }

    /// Refuses a file that may not be copied as a database.
    pub fn check(&self, rt: &HostRuntime) -> Result<(), FileFault> {
        judge(fault_of(rt, self))
    }

    /// Refuses a name to which this database may not be copied. One that is there is replaced only if that is asked for.
    pub fn check_target(&self, rt: &HostRuntime, to: &str, force: bool) -> Result<(), FileFault> {
        judge(refusal_of(rt, self, to, force))
    }

    /// Refuses a name under which a copy is to be made, if it leads to one of these files.
    pub fn check_part(&self, rt: &HostRuntime, name: &str) -> Result<(), FileFault> {
        if is_one_of(rt, name, self)? {
            return Err(FileFault::Unusable(SAME));
        }
        Ok(())
    }
}

/// The fault of a file that may not be used, if it may not.
fn judge(judged: io::Result<Option<&'static str>>) -> Result<(), FileFault> {
    match judged? {
        None => Ok(()),
        Some(why) => Err(FileFault::Unusable(why)),
    }
}

/// Why a file may not be copied as a database, if it may not.
fn fault_of(rt: &HostRuntime, from: &FileNames) -> io::Result<Option<&'static str>> {
    if !fs::metadata(rt, from.file.as_str())?.is_file() {
        return Ok(Some(NO_FILE));
    }
    if has_no_file_beside(rt, from.file.as_str())? {
        return Ok(Some(NO_FILE_BESIDE));
    }
    if has_journal(rt, from.file.as_str())? {
        return Ok(Some(HAS_JOURNAL));
    }
    Ok(None)
}

/// Why a file may not be made or replaced, if it may not. What lies beside its name would be read with the copy.
fn refusal_of(
    rt: &HostRuntime,
    from: &FileNames,
    to: &str,
    force: bool,
) -> io::Result<Option<&'static str>> {
    if is_one_of(rt, to, from)? {
        return Ok(Some(SAME));
    }
    if is_there(rt, to)? {
        if is_no_file(rt, to)? {
            return Ok(Some(NO_FILE));
        }
        if !force {
            return Ok(Some(EXISTS));
        }
    }
    match fs::canonicalize(rt, to) {
        Ok(path) => {
            if let Some(why) = refusal_beside(rt, path.as_str())? {
                return Ok(Some(why));
            }
        }
        Err(cause) if cause.kind() == ErrorKind::NotFound => {}
        Err(cause) => return Err(cause),
    }
    refusal_beside(rt, to)
}

/// Why what stands beside a name forbids that a file has it, if it does.
fn refusal_beside(rt: &HostRuntime, file: &str) -> io::Result<Option<&'static str>> {
    if has_no_file_beside(rt, file)? {
        return Ok(Some(NO_FILE_BESIDE));
    }
    if has_transactions(rt, file)? {
        return Ok(Some(HAS_WAL));
    }
    if has_journal(rt, file)? {
        return Ok(Some(HAS_JOURNAL));
    }
    Ok(None)
}

/// Whether something that is no regular file has the name of a WAL file or of a journal: a pipe, say, which an opening
/// would wait for.
fn has_no_file_beside(rt: &HostRuntime, file: &str) -> io::Result<bool> {
    let wal = format!(in rt.alloc(); "{file}-wal")?;
    let journal = format!(in rt.alloc(); "{file}-journal")?;
    Ok(is_no_file(rt, wal.as_str())? || is_no_file(rt, journal.as_str())?)
}

/// Whether a name leads to a database file or to its WAL file.
fn is_one_of(rt: &HostRuntime, name: &str, names: &FileNames) -> io::Result<bool> {
    match fs::canonicalize(rt, name) {
        Ok(path) => Ok(path.as_str() == names.file.as_str() || path.as_str() == names.wal.as_str()),
        Err(cause) if cause.kind() == ErrorKind::NotFound => Ok(false),
        Err(cause) => Err(cause),
    }
}

/// Whether a WAL file with transactions stands beside a name.
fn has_transactions(rt: &HostRuntime, file: &str) -> io::Result<bool> {
    let wal = format!(in rt.alloc(); "{file}-wal")?;
    match has_frames(rt, wal.as_str()) {
        Err(cause) if cause.kind() == ErrorKind::NotFound => Ok(false),
        found => found,
    }
}

/// Whether a journal of sqlite3 that is to be rolled back stands beside a name: one that does not begin with a zero
/// (section 3).
fn has_journal(rt: &HostRuntime, file: &str) -> io::Result<bool> {
    let journal = format!(in rt.alloc(); "{file}-journal")?;
    match read_head::<1>(rt, journal.as_str()) {
        Ok(head) => Ok(head.is_some_and(|head| head != [0])),
        Err(cause) if cause.kind() == ErrorKind::NotFound => Ok(false),
        Err(cause) => Err(cause),
    }
}

/// The header of a WAL file, if it has one.
pub fn header(rt: &HostRuntime, wal: &str) -> io::Result<Option<[u8; WAL_HEADER]>> {
    match read_head::<WAL_HEADER>(rt, wal) {
        Ok(head) => Ok(head),
        Err(cause) if cause.kind() == ErrorKind::NotFound => Ok(None),
        Err(cause) => Err(cause),
    }
}
