//! Standard input that is read more than once.
//!
//! What it has is kept in a file beside a database, F.input.part, whose name is removed as soon as the file is open: so the file
//! goes with the process, whatever ends that.

use crate::fault::FileFault;
use crate::input::Input;
use crate::part_file::{Claim, Leftover, begin};
use crate::what_is_named::folder_of;
use std::fs::File;
use std::io::{ErrorKind, Read, Write};
use std::{fs, io};

/// How many bytes are taken at a time.
const PIECE: usize = 1 << 16;

const IN_USE: &str =
    "another process begins to read standard input for it: the file with .input.part after its name is locked";

const HAS_BYTES: &str = "the file with .input.part after its name exists and has bytes: remove it";

/// A file that a process has left which was killed before it had removed the name: it is empty.
struct LeftEmpty;

impl Leftover for LeftEmpty {
    fn is_left(rt: &HostRuntime, name: &str) -> io::Result<bool> {
        Ok(fs::metadata(rt, name)?.len() == 0)
    }
}

/// All that standard input had, in a file without a name.
#[derive(Drop)]
pub struct KeptInput {
    file: File,
    size: u64,
}

impl KeptInput {
    /// Takes standard input up to its end, beside the database of this name.
    pub fn take(rt: &HostRuntime, db: &str) -> Result<KeptInput, FileFault> {
        let name = format!(in rt.alloc(); "{db}.input.part")?;
        let mut file = match begin::<LeftEmpty>(rt, name.as_str())? {
            Claim::Made(file) => file,
            Claim::InUse => return Err(FileFault::Unusable(IN_USE)),
            Claim::Foreign => return Err(FileFault::Unusable(HAS_BYTES)),
        };
        // The disk knows that the name is gone before the file has bytes: a power failure does not bring them back under it.
        let folder = folder_of(rt, name.as_str())?;
        fs::remove_file(rt, name.as_str())?;
        folder.sync_all()?;
        let size = keep(rt, &mut file)?;
        Ok(KeptInput { file, size })
    }

    /// How many bytes it had.
    pub fn size(&self) -> u64 {
        self.size
    }

    /// What reads it from its beginning.
    pub fn input(&self) -> io::Result<Input> {
        Ok(Input::Kept {
            file: self.file.try_clone()?,
            at: 0,
        })
    }
}

/// Copies standard input to the end of a file. Returns how many bytes it had.
fn keep(rt: &HostRuntime, file: &mut File) -> io::Result<u64> {
    let mut input = rt.stdin();
    let mut piece = vec![in rt.alloc(); 0u8; PIECE]?;
    let mut size = 0u64;
    // A `for`, since the prover asks that each loop ends.
    for _ in 0..u64::MAX {
        match input.read(&mut piece) {
            Ok(0) => return Ok(size),
            Ok(count) => {
                file.write_all(&piece[..count])?;
                size = size.saturating_add(count as u64);
            }
            Err(cause) if cause.kind() == ErrorKind::Interrupted => {}
            Err(cause) => return Err(cause),
        }
    }
    Err(io::Error::from(ErrorKind::Interrupted))
}
