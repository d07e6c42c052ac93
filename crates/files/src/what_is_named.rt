//! What a name leads to, and the first bytes of a file.

use std::alloc::AllocError;
use std::fs::{File, OpenOptions};
use std::io::{ErrorKind, Read};
use std::os::unix::fs::{MetadataExt, OpenOptionsExt};
use std::{fs, io};

/// What is put after the name of a database in those of files beside it.
const BESIDE: [&str; 4] = ["-wal", "-journal", "-shm", ".new"];

/// How a file of a binary log begins.
const LOG_FILE: [u8; 4] = *b"\xfebin";

/// The mode of a file that is made for the rows of others: its owner alone may read and write it.
pub const PRIVATE: u32 = 0o600;

/// How a file for the rows of others is opened to be read and written, and made if it is asked for.
pub fn private() -> OpenOptions {
    let mut options = OpenOptions::new();
    options.read(true).write(true).mode(PRIVATE);
    options
}

/// What a call over a file has given; none where it has failed. The error is that an allocation was refused, of which nothing
/// follows for the file.
pub(crate) fn given<T>(done: io::Result<T>) -> Result<Option<T>, AllocError> {
    match done {
        Ok(value) => Ok(Some(value)),
        Err(cause) if cause.kind() == ErrorKind::OutOfMemory => Err(AllocError),
        Err(_) => Ok(None),
    }
}

/// Whether a name leads to a regular file.
pub fn is_file(rt: &HostRuntime, name: &str) -> bool {
    match fs::metadata(rt, name) {
        Ok(metadata) => metadata.is_file(),
        Err(_) => false,
    }
}

/// Whether a name leads to the file that is open.
pub fn is_named(rt: &HostRuntime, file: &File, name: &str) -> bool {
    match is_same(rt, file, name) {
        Ok(same) => same,
        Err(_) => false,
    }
}

/// Whether a name leads to the file that is open: it is the same inode of the same device.
fn is_same(rt: &HostRuntime, file: &File, name: &str) -> io::Result<bool> {
    let (open, named) = (file.metadata()?, fs::metadata(rt, name)?);
    Ok(open.dev() == named.dev() && open.ino() == named.ino())
}

/// Whether two names lead to one file.
pub fn lead_to_one(rt: &HostRuntime, name: &str, other: &str) -> bool {
    match (fs::metadata(rt, name), fs::metadata(rt, other)) {
        (Ok(one), Ok(two)) => one.dev() == two.dev() && one.ino() == two.ino(),
        _ => false,
    }
}

/// Whether a name is one that a file beside a database has, be it there or not: one that SQLite gives, or that of a new
/// database until it is whole.
pub fn is_beside(rt: &HostRuntime, name: &str, db: &str) -> Result<bool, AllocError> {
    let (Some(place), Some(database)) = (place_of(rt, name)?, place_of_database(rt, db)?) else {
        return Ok(false);
    };
    for suffix in BESIDE {
        let beside = format!(in rt.alloc(); "{database}{suffix}")?;
        if beside.as_str() == place.as_str() {
            return Ok(true);
        }
    }
    Ok(false)
}

/// The place of a database file, that of its target if it is a link.
fn place_of_database(rt: &HostRuntime, db: &str) -> Result<Option<String>, AllocError> {
    match given(fs::canonicalize(rt, db))? {
        Some(real) => Ok(Some(format!(in rt.alloc(); "{}", real.as_str())?)),
        None => place_of(rt, db),
    }
}

/// A name after the real one of its folder, if that is there.
pub(crate) fn place_of(rt: &HostRuntime, name: &str) -> Result<Option<String>, AllocError> {
    let (folder, leaf) = match name.rsplit_once('/') {
        Some(("", leaf)) => ("/", leaf),
        Some(parts) => parts,
        None => (".", name),
    };
    match given(fs::canonicalize(rt, folder))? {
        Some(real) if real.as_str() == "/" => Ok(Some(format!(in rt.alloc(); "/{leaf}")?)),
        Some(real) => Ok(Some(format!(in rt.alloc(); "{}/{leaf}", real.as_str())?)),
        None => Ok(None),
    }
}

/// The folder of the file that a name leads to.
pub fn folder_of(rt: &HostRuntime, name: &str) -> io::Result<File> {
    let mut folder = fs::canonicalize(rt, name)?;
    folder.pop();
    fs::open(rt, folder.as_str())
}

/// Waits until the disk has the name of a file. One without a name has none to lose.
pub fn sync_name(rt: &HostRuntime, name: &str) -> io::Result<()> {
    match folder_of(rt, name) {
        Ok(folder) => folder.sync_all(),
        Err(cause) if cause.kind() == ErrorKind::NotFound => Ok(()),
        Err(cause) => Err(cause),
    }
}

/// Whether a file is a binary log of MySQL, by its first bytes (MySQL Source Documentation, "Binary Log Header").
pub fn is_log_file(rt: &HostRuntime, name: &str) -> bool {
    if !is_file(rt, name) {
        return false;
    }
    match read_head::<4>(rt, name) {
        Ok(head) => head == Some(LOG_FILE),
        Err(_) => false,
    }
}

/// Whether an open file has no bytes.
pub fn is_empty(file: &File) -> bool {
    match file.metadata() {
        Ok(metadata) => metadata.len() == 0,
        Err(_) => false,
    }
}

/// Whether something has a name, be it a link that leads nowhere.
pub fn is_there(rt: &HostRuntime, name: &str) -> io::Result<bool> {
    match fs::symlink_metadata(rt, name) {
        Ok(_) => Ok(true),
        Err(cause) if cause.kind() == ErrorKind::NotFound => Ok(false),
        Err(cause) => Err(cause),
    }
}

/// Whether a name leads to something that is no regular file.
pub fn is_no_file(rt: &HostRuntime, name: &str) -> io::Result<bool> {
    match fs::metadata(rt, name) {
        Ok(metadata) => Ok(!metadata.is_file()),
        Err(cause) if cause.kind() == ErrorKind::NotFound => Ok(false),
        Err(cause) => Err(cause),
    }
}

/// The first bytes of a file, if it has that many.
pub fn read_head<const N: usize>(rt: &HostRuntime, name: &str) -> io::Result<Option<[u8; N]>> {
    let mut file = fs::open(rt, name)?;
    if file.metadata()?.len() < N as u64 {
        return Ok(None);
    }
    let mut head = [0; N];
    file.read_exact(&mut head)?;
    Ok(Some(head))
}
