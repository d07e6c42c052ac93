//! A file that is replaced whole, so that no reader finds a part of it.

use files::{FileFault, is_beside, lead_to_one};
use std::fs::{File, OpenOptions};
use std::io::{ErrorKind, Write};
use std::os::unix::fs::FileExt;
use std::{fs, io};

/// What a status begins with. A file that begins otherwise is no status, and is not replaced.
pub const HEAD: &[u8] = b"# HELP mrep_connected ";

const HEAD_LENGTH: usize = 22;

const FOREIGN: &str = "it is no status of mrep, and is not replaced";

const PART_FOREIGN: &str =
    "the file with .new after this name is no status of mrep, and is not replaced";

const IN_USE: &str = "it is the database, what lies beside that, or another file that is read";

/// A file that is replaced whole: it is written beside, as NAME.new, and then renamed.
#[derive(Drop)]
pub struct StatusFile {
    name: String,
    /// The name that it has until it is whole.
    part: String,
}

impl StatusFile {
    /// The file of this name. It may be neither the database nor one of the others that the command uses. What has the name,
    /// or that of the file beside it, has to be a status, or empty.
    pub fn new(
        rt: &HostRuntime,
        name: &str,
        db: &str,
        others: &[&str],
    ) -> Result<StatusFile, FileFault> {
        if is_in_use(rt, name, db, others) || is_beside(rt, name, db)? {
            return Err(FileFault::Unusable(IN_USE));
        }
        let alloc = rt.alloc();
        let Ok(part) = format!(in alloc; "{name}.new") else {
            return Err(FileFault::Memory);
        };
        let Ok(name) = format!(in alloc; "{name}") else {
            return Err(FileFault::Memory);
        };
        let file = StatusFile { name, part };
        match file.may_be_replaced(rt) {
            Ok(None) => Ok(file),
            Ok(Some(why)) => Err(FileFault::Unusable(why)),
            Err(cause) => Err(FileFault::System(cause)),
        }
    }

    /// Why a file may not be replaced, if there is a reason.
    fn may_be_replaced(&self, rt: &HostRuntime) -> io::Result<Option<&'static str>> {
        if !is_status(rt, self.name.as_str())? {
            return Ok(Some(FOREIGN));
        }
        if !is_status(rt, self.part.as_str())? {
            return Ok(Some(PART_FOREIGN));
        }
        Ok(None)
    }

    /// Replaces the file. After a failure it is as it was.
    pub fn replace(&self, rt: &HostRuntime, content: &[u8]) -> io::Result<()> {
        if self.may_be_replaced(rt)?.is_some() {
            return Err(ErrorKind::AlreadyExists.into());
        }
        match self.write(rt, content) {
            Ok(()) => fs::rename(rt, self.part.as_str(), self.name.as_str()),
            Err(cause) => Err(cause),
        }
    }

    /// Writes the file beside it. One that a killed process has left is made anew.
    fn write(&self, rt: &HostRuntime, content: &[u8]) -> io::Result<()> {
        let part = self.part.as_str();
        match fs::remove_file(rt, part) {
            Err(cause) if cause.kind() != ErrorKind::NotFound => return Err(cause),
            _ => {}
        }
        let mut file = OpenOptions::new()
            .write(true)
            .create_new(true)
            .open(rt, part)?;
        file.write_all(content)
    }
}

/// Whether a name leads to the database or another file that a command uses. One of the others is the name itself.
fn is_in_use(rt: &HostRuntime, name: &str, db: &str, others: &[&str]) -> bool {
    if name == db || lead_to_one(rt, name, db) {
        return true;
    }
    for other in others {
        if *other != name && lead_to_one(rt, name, other) {
            return true;
        }
    }
    false
}

/// Whether what has a name is a status, or what a crash has left of one; also if nothing has it.
fn is_status(rt: &HostRuntime, name: &str) -> io::Result<bool> {
    match fs::symlink_metadata(rt, name) {
        Err(cause) if cause.kind() == ErrorKind::NotFound => Ok(true),
        Err(cause) => Err(cause),
        Ok(metadata) if !metadata.is_file() => Ok(false),
        Ok(metadata) => begins_as_one(&fs::open(rt, name)?, metadata.len()),
    }
}

/// Whether a file of this length begins as a status. After a crash bytes of it may be zeros, or missing.
fn begins_as_one(file: &File, length: u64) -> io::Result<bool> {
    let mut begin = [0u8; HEAD_LENGTH];
    let there = length.min(HEAD_LENGTH as u64);
    if let Some(begin) = begin.get_mut(..there as usize) {
        file.read_exact_at(begin, 0)?;
    }
    Ok(
        begin
            .iter()
            .zip(HEAD.iter())
            .all(|(it, whole)| *it == *whole || *it == 0),
    )
}
