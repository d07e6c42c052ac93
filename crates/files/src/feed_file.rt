//! The file of a change feed: how it is found, made, locked, written to its end, cut back and removed.

use crate::fault::FileFault;
use crate::what_is_named::{PRIVATE, given, is_empty, is_named, sync_name};
use std::alloc::AllocError;
use std::fs::{File, OpenOptions, TryLockError};
use std::io::{ErrorKind, Seek, SeekFrom};
use std::os::unix::fs::{FileExt, OpenOptionsExt};
use std::{fs, io};

const IN_USE: &str = "it is the database, what lies beside that, or another file that is read";

const FED: &str = "another process writes its change feed to it";

/// How often a file is made again that another process removes.
const TRIES: u32 = 100;

/// How much of the end of a file is compared at once.
const CHUNK: usize = 4096;

/// The file of a change feed, which no other process feeds; or a pipe or a device.
#[derive(Drop)]
pub struct FeedFile {
    file: File,
    /// Whether it was made for the feed.
    is_new: bool,
    /// Whether it ends inside a line.
    is_cut: bool,
    /// Whether it is on a disk, and not a pipe or a device.
    is_regular: bool,
}

impl FeedFile {
    /// Opens the file of a feed, or makes it, for its owner alone, and waits until the disk has its name. It must be none of those that the command uses: the
    /// database, what lies beside it, and the others.
    pub fn open(
        rt: &HostRuntime,
        name: &str,
        db: &str,
        others: &[&str],
    ) -> Result<FeedFile, FileFault> {
        let Some(mut feed) = open(rt, name)? else {
            return Err(FileFault::Unusable(FED));
        };
        match feed.find_end(rt, name, db, others) {
            Ok(true) => Ok(feed),
            Ok(false) => {
                feed.discard(rt, name);
                Err(FileFault::Unusable(IN_USE))
            }
            Err(cause) => {
                feed.discard(rt, name);
                Err(FileFault::System(cause))
            }
        }
    }

    /// Finds out whether the file ends inside a line. `false` if it is one that the command uses.
    fn find_end(
        &mut self,
        rt: &HostRuntime,
        name: &str,
        db: &str,
        others: &[&str],
    ) -> io::Result<bool> {
        if !self.is_regular {
            return Ok(true);
        }
        if is_in_use(rt, &self.file, db, others)? {
            return Ok(false);
        }
        if is_empty(&self.file) {
            // It may be one that a killed process has made.
            sync_name(rt, name)?;
        } else {
            self.is_cut = !self.ends_with(b"\n")?;
        }
        Ok(true)
    }

    /// Gives the file up, and removes it if it was made for the feed and is still empty. No other process feeds it.
    pub fn discard(self, rt: &HostRuntime, name: &str) {
        if self.is_new && is_empty(&self.file) {
            let _ = fs::remove_file(rt, name);
        }
    }

    /// Whether the file ends with these bytes, which end with a line feed, as whole lines.
    pub fn ends_with(&self, lines: &[u8]) -> io::Result<bool> {
        if !self.is_regular {
            return Ok(false);
        }
        let length = self.file.metadata()?.len();
        let Some(begin) = length.checked_sub(lines.len() as u64) else {
            return Ok(false);
        };
        if lines.len() > 1 && begin > 0 && !self.has(begin - 1, b"\n")? {
            return Ok(false);
        }
        let mut at = begin;
        for part in lines.chunks(CHUNK) {
            if !self.has(at, part)? {
                return Ok(false);
            }
            at = at.saturating_add(part.len() as u64);
        }
        Ok(true)
    }

    /// Whether the file has these bytes, at most `CHUNK`, at a place.
    fn has(&self, at: u64, part: &[u8]) -> io::Result<bool> {
        let mut room = [0u8; CHUNK];
        let Some(room) = room.get_mut(..part.len()) else {
            return Ok(false);
        };
        self.file.read_exact_at(room, at)?;
        Ok(&*room == part)
    }

    /// Whether it has nothing yet.
    pub fn is_empty(&self) -> bool {
        is_empty(&self.file)
    }

    /// Whether what was written can be cut off again: it is on a disk.
    pub fn can_cut(&self) -> bool {
        self.is_regular
    }

    /// Begins an entry, on a line of its own, and returns the length of the file before it.
    pub fn begin(&mut self) -> io::Result<u64> {
        let length = self.file.metadata()?.len();
        if self.is_cut {
            let mut file = &self.file;
            io::Write::write_all(&mut file, b"\n")?;
            self.is_cut = false;
        }
        Ok(length)
    }

    /// How many bytes it has.
    pub fn length(&self) -> io::Result<u64> {
        Ok(self.file.metadata()?.len())
    }

    /// Fills the room with the bytes at a place of a file on a disk.
    pub fn read_at(&self, at: u64, room: &mut [u8]) -> io::Result<()> {
        self.file.read_exact_at(room, at)
    }

    /// A file on a disk as what is read, from a place on.
    pub fn read_from(&self, at: u64) -> io::Result<&File> {
        let mut file = &self.file;
        file.seek(SeekFrom::Start(at))?;
        Ok(file)
    }

    /// The file as what is written to its end.
    pub fn append(&self) -> &File {
        &self.file
    }

    /// Waits until the disk has what was written, where it is a disk.
    pub fn sync(&self) -> io::Result<()> {
        if self.is_regular {
            self.file.sync_data()
        } else {
            Ok(())
        }
    }

    /// Cuts off what was written since the file had this length, if it can be.
    pub fn cut(&mut self, length: u64) {
        if self.is_regular {
            let _ = self.file.set_len(length);
        }
    }
}

/// Opens or makes the file of a feed and locks it. `None` if another process has it.
fn open(rt: &HostRuntime, name: &str) -> io::Result<Option<FeedFile>> {
    let is_regular = match fs::metadata(rt, name) {
        Ok(metadata) => metadata.is_file(),
        Err(cause) if cause.kind() == ErrorKind::NotFound => true,
        Err(cause) => return Err(cause),
    };
    for _ in 0..TRIES {
        let (file, is_new) = open_once(rt, name, is_regular)?;
        let is_locked = !is_regular || lock(&file)?;
        if !is_locked {
            return Ok(None);
        }
        // A process that was refused may have removed it meanwhile.
        if !is_regular || is_named(rt, &file, name) {
            return Ok(Some(FeedFile {
                file,
                is_new,
                is_cut: false,
                is_regular,
            }));
        }
    }
    Ok(None)
}

/// Locks a file, unless another process has it locked. A file system without such locks has none in the way.
fn lock(file: &File) -> io::Result<bool> {
    match file.try_lock() {
        Err(TryLockError::WouldBlock) => Ok(false),
        Err(TryLockError::Error(cause)) if cause.kind() != ErrorKind::Unsupported => Err(cause),
        _ => Ok(true),
    }
}

/// Opens a file for a feed, and says whether it was made.
fn open_once(rt: &HostRuntime, name: &str, is_regular: bool) -> io::Result<(File, bool)> {
    if !is_regular {
        return Ok((OpenOptions::new().write(true).open(rt, name)?, false));
    }
    let mut options = OpenOptions::new();
    options
        .read(true)
        .append(true)
        .create_new(true)
        .mode(PRIVATE);
    match options.open(rt, name) {
        Ok(file) => Ok((file, true)),
        Err(cause) if cause.kind() == ErrorKind::AlreadyExists => {
            let file = options.create_new(false).create(true).open(rt, name)?;
            Ok((file, false))
        }
        Err(cause) => Err(cause),
    }
}

/// Whether a file is one of those that the command uses, under whatever name.
fn is_in_use(rt: &HostRuntime, file: &File, db: &str, others: &[&str]) -> io::Result<bool> {
    for other in others {
        if is_named(rt, file, other) {
            return Ok(true);
        }
    }
    // What lies beside the database stands beside the file that a link leads to.
    let is_one = match given(fs::canonicalize(rt, db))? {
        Some(real) => is_of_database(rt, file, real.as_str())?,
        None => is_of_database(rt, file, db)?,
    };
    Ok(is_one)
}

/// Whether a file is a database file, or has a name that SQLite gives to a file beside it.
fn is_of_database(rt: &HostRuntime, file: &File, db: &str) -> Result<bool, AllocError> {
    Ok(
        is_named(rt, file, db)
            || has_suffix(rt, file, db, "-wal")?
            || has_suffix(rt, file, db, "-journal")?
            || has_suffix(rt, file, db, "-shm")?,
    )
}

fn has_suffix(rt: &HostRuntime, file: &File, db: &str, suffix: &str) -> Result<bool, AllocError> {
    let name = format!(in rt.alloc(); "{db}{suffix}")?;
    Ok(is_named(rt, file, name.as_str()))
}
