//! The files in which `mrep copy` makes a copy, TO.part and TO.part-wal, until it has its name.

use crate::fault::FileFault;
use crate::names::{EXISTS, FileNames};
use crate::part_file::{Claim, Leftover, begin, give_name, remove};
use crate::sqlite_file::may_be_left;
use crate::what_is_named::{folder_of, private};
use std::fs::File;
use std::os::unix::fs::FileExt;
use std::{fs, io};

/// Where the header of a database has its two format versions, which are 2 in WAL mode and 1 otherwise.
const VERSIONS: u64 = 18;

const IN_USE: &str =
    "another copy to this name is being made: the file with .part after it is locked";

const NO_COPY: &str = "the file with .part after this name exists and is no copy: remove it";

/// A copy that a killed process or a crash has left.
struct LeftCopy;

impl Leftover for LeftCopy {
    fn is_left(rt: &HostRuntime, name: &str) -> io::Result<bool> {
        may_be_left(rt, name)
    }
}

/// The files of a copy that is being made, which no other process has then.
#[derive(Drop)]
pub struct CopyPart {
    pub names: FileNames,
    /// The database file, which is open and locked.
    pub file: File,
}

/// Makes TO.part, empty, for a copy of a database to the name TO, and removes a TO.part-wal. A TO.part that is there is made
/// anew if it is what a killed process has left of a copy. Neither name may lead to the database.
pub fn make_part(rt: &HostRuntime, from: &FileNames, to: &str) -> Result<CopyPart, FileFault> {
    let names = FileNames::beside(rt.alloc(), format!(in rt.alloc(); "{to}.part")?)?;
    from.check_part(rt, names.file.as_str())?;
    from.check_part(rt, names.wal.as_str())?;
    match begin::<LeftCopy>(rt, names.file.as_str())? {
        Claim::Made(file) => {
            let part = CopyPart { names, file };
            part.remove_wal(rt)?;
            Ok(part)
        }
        Claim::InUse => Err(FileFault::Unusable(IN_USE)),
        Claim::Foreign => Err(FileFault::Unusable(NO_COPY)),
    }
}

impl CopyPart {
    /// Removes TO.part-wal, whatever has that name.
    pub fn remove_wal(&self, rt: &HostRuntime) -> io::Result<()> {
        remove(rt, self.names.wal.as_str())
    }

    /// Makes TO.part-wal, which nothing has the name of.
    pub fn make_wal(&self, rt: &HostRuntime) -> io::Result<File> {
        private().create_new(true).open(rt, self.names.wal.as_str())
    }

    /// Says in the header of the database that it is not in WAL mode: then who may not write in its folder can read it. Its WAL
    /// file is copied back and removed before (SQLite, "Database File Format", section 1.3.3).
    pub fn leave_wal_mode(&self) -> io::Result<()> {
        self.file.write_all_at(&[1, 1], VERSIONS)
    }

    /// Gives a copy that is whole its name, once it is on the disk, and syncs the folder. It is refused if it is not to
    /// replace a file, and one has the name now.
    pub fn put(&self, rt: &HostRuntime, to: &str, replaces: bool) -> Result<(), FileFault> {
        self.file.sync_all()?;
        let folder = folder_of(rt, self.names.file.as_str())?;
        if !self.name(rt, to, replaces)? {
            return Err(FileFault::Unusable(EXISTS));
        }
        folder.sync_all()?;
        Ok(())
    }

    /// Gives the copy its name. On a file system without second names it is renamed also where it is not to replace a file.
    fn name(&self, rt: &HostRuntime, to: &str, replaces: bool) -> io::Result<bool> {
        let part = self.names.file.as_str();
        if !replaces && let Ok(is_named) = give_name(rt, part, to) {
            return Ok(is_named);
        }
        fs::rename(rt, part, to)?;
        Ok(true)
    }

    /// Removes what is left of the files, once the copy has its name or is given up.
    pub fn remove(&self, rt: &HostRuntime, is_named: bool) {
        if !is_named {
            let _ = fs::remove_file(rt, self.names.file.as_str());
        }
        let _ = self.remove_wal(rt);
    }
}
