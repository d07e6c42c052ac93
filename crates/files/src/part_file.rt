//! A file that has another name until it is whole: TO.part of a copy, and F.new of a new database.
//!
//! It is locked as long as it is made (`flock`). So one that a killed process has left is known by its lock, which is free,
//! and is made anew.

use crate::what_is_named::{is_named, private};
use std::fs::{File, TryLockError};
use std::io::ErrorKind;
use std::os::unix::fs::MetadataExt;
use std::{fs, io};

/// How often a file is made again that another process has made or removed meanwhile.
const TRIES: u32 = 100;

/// What came of making a file.
pub enum Claim {
    /// It is there, empty, open and locked.
    Made(File),
    /// Another process is making it.
    InUse,
    /// A file has the name that no process has left there.
    Foreign,
}

/// How a file is known that a killed process has left.
pub trait Leftover {
    /// Whether a regular file may be one.
    fn is_left(rt: &HostRuntime, name: &str) -> io::Result<bool>;
}

/// Makes a file, empty, for its owner alone, and locks it. One that is there is made anew if a killed process has left it.
pub fn begin<L: Leftover>(rt: &HostRuntime, name: &str) -> io::Result<Claim> {
    for _ in 0..TRIES {
        let (file, is_new) = match private().create_new(true).open(rt, name) {
            Ok(file) => (file, true),
            Err(cause) if cause.kind() == ErrorKind::AlreadyExists => {
                if !may_be_left::<L>(rt, name)? {
                    return Ok(Claim::Foreign);
                }
                match fs::open(rt, name) {
                    Ok(file) => (file, false),
                    Err(cause) if cause.kind() == ErrorKind::NotFound => continue,
                    Err(cause) => return Err(cause),
                }
            }
            Err(cause) => return Err(cause),
        };
        match file.try_lock() {
            Ok(()) => {}
            Err(TryLockError::WouldBlock) => return Ok(Claim::InUse),
            Err(TryLockError::Error(cause)) => {
                if is_new {
                    remove(rt, name)?;
                }
                return Err(cause);
            }
        }
        if !is_named(rt, &file, name) {
            continue;
        }
        if is_new {
            return Ok(Claim::Made(file));
        }
        fs::remove_file(rt, name)?;
    }
    Ok(Claim::InUse)
}

/// Whether a killed process may have left what has a name. A file that is gone meanwhile may have been left.
fn may_be_left<L: Leftover>(rt: &HostRuntime, name: &str) -> io::Result<bool> {
    let found = match fs::symlink_metadata(rt, name) {
        Ok(metadata) if !metadata.is_file() => return Ok(false),
        Ok(_) => L::is_left(rt, name),
        Err(cause) => Err(cause),
    };
    match found {
        Err(cause) if cause.kind() == ErrorKind::NotFound => Ok(true),
        found => found,
    }
}

/// Gives a file that is whole its name, if nothing has that: it is a second name at first, and then the first one goes, since
/// no call renames only where the new name is free. `false` if something has the name. Where the first one cannot be removed
/// it is a leftover, as after a kill.
pub fn give_name(rt: &HostRuntime, part: &str, name: &str) -> io::Result<bool> {
    match fs::hard_link(rt, part, name) {
        Ok(()) => {
            let _ = remove(rt, part);
            Ok(true)
        }
        Err(cause) if cause.kind() == ErrorKind::AlreadyExists => Ok(false),
        Err(_) if fs::symlink_metadata(rt, name).is_ok() => Ok(false),
        Err(cause) => Err(cause),
    }
}

/// Removes the other name of a file that a process was killed with before it could: no database with two names is opened,
/// since what lies beside it stands beside one of them.
pub fn remove_other(rt: &HostRuntime, part: &str, name: &str) -> io::Result<()> {
    let (part_is, name_is) = (fs::symlink_metadata(rt, part)?, fs::metadata(rt, name)?);
    if part_is.dev() == name_is.dev() && part_is.ino() == name_is.ino() {
        remove(rt, part)?;
    }
    Ok(())
}

/// Removes a file, unless it is gone.
pub fn remove(rt: &HostRuntime, name: &str) -> io::Result<()> {
    match fs::remove_file(rt, name) {
        Err(cause) if cause.kind() != ErrorKind::NotFound => Err(cause),
        _ => Ok(()),
    }
}
