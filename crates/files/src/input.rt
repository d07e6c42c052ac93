//! What is read: a file, or standard input.

use std::fs::File;
use std::io::Read;
use std::os::unix::fs::FileExt;
use std::rt::Stdin;
use std::{fs, io};

/// The name of standard input.
pub const INPUT: &str = "-";

/// A file that is open, or standard input. Nothing is specified about its bytes.
#[derive(Drop)]
pub enum Input {
    File(File),
    Standard(Stdin),
    /// A file, from this place on, of which others may read other places.
    Kept { file: File, at: u64 },
}

impl Input {
    /// Opens the file of this name, or takes standard input.
    pub fn open(rt: &HostRuntime, name: &str) -> io::Result<Input> {
        if name == INPUT {
            return Ok(Input::Standard(rt.stdin()));
        }
        Ok(Input::File(fs::open(rt, name)?))
    }

    /// How many bytes it has, if it is a regular file that was opened by its name.
    pub fn size(&self) -> io::Result<Option<u64>> {
        let Input::File(file) = self else {
            return Ok(None);
        };
        let metadata = file.metadata()?;
        if metadata.is_file() {
            return Ok(Some(metadata.len()));
        }
        Ok(None)
    }
}

impl Read for Input {
    fn read(&mut self, buf: &mut [u8]) -> io::Result<usize> {
        match self {
            Input::File(file) => file.read(buf),
            Input::Standard(input) => input.read(buf),
            Input::Kept { file, at } => {
                let count = file.read_at(buf, *at)?;
                *at = at.saturating_add(count as u64);
                Ok(count)
            }
        }
    }
}
